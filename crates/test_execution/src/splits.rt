//! Tables that are split anew between batches.

ghost use Rattle.std.specs.Prelude.{◌≡◌};
ghost use Rattle.engine.specs.Engines.{tables_of};

use catalogue::Catalogue;
use engine::{Engine, RepartFault, Settings};
use requests::Request;
use setup::read_setup;
use std::alloc::Global;
use std::sync::Wait;
use std::test::Fail;
use test_bank::{Bodies, batch_over, engine, replies, request};

/// The bank's tables, of which the first is split at a bound, without procedures and rows.
const SPLIT_AT_3: &str = r#"["setup",1,
["catalogue",2,[["acct",["bounds",3],[["bal","int"]]],["ref",1,[["to","int"]]]]],["procs",1,[]],["rows",1,[]]]"#;

/// Other tables: the column of the first has another name.
const OTHER_COLUMN: &str = r#"["setup",1,
["catalogue",2,[["acct",["bounds",3],[["sum","int"]]],["ref",1,[["to","int"]]]]],["procs",1,[]],["rows",1,[]]]"#;

/// The catalogue of a setup.
fn catalogue_in(alloc: Global, setup: &str) -> Result<Catalogue, Fail> {
    Ok(read_setup(alloc, setup.as_bytes())?.setup.catalogue)
}

/// What comes of a request of an engine.
fn called<R: Wait + AllocGlobal>(
    rt: &R,
    engine: &mut Engine,
    request: Request,
) -> Result<String, Fail>
    requires { request.proc.tables ≡ tables_of engine.old.core }
    ensures { tables_of engine.new.core ≡ tables_of engine.old.core }
{
    let alloc = rt.alloc();
    let mut requests = Vec::new(alloc);
    requests.push(request)?;
    let batch = batch_over(alloc, engine.procs(), requests)?;
    replies(alloc, engine.run_alone(rt, alloc, batch, &[]))
}

/// Appends what comes of a request that is called before and after the tables are split anew.
fn append_two<R: Wait + AllocGlobal>(
    rt: &R,
    engine: &mut Engine,
    request: Request,
    catalogue: &Catalogue,
    outcomes: &mut String,
) -> Result<(), Fail>
    requires { request.proc.tables ≡ tables_of engine.old.core }
{
    let alloc = rt.alloc();
    outcomes.push_str(called(rt, engine, request.clone()?)?.as_str())?;
    engine.repartition(alloc, catalogue)?;
    let request = request.over(catalogue.clone()?);
    outcomes.push_str(called(rt, engine, request)?.as_str())?;
    Ok(())
}

/// What comes of a count before and after the tables of an engine are split anew.
fn counted_twice<R: Wait + AllocGlobal>(
    rt: &R,
    engine: &mut Engine,
    catalogue: &Catalogue,
) -> Result<String, Fail> {
    let mut outcomes = String::new(rt.alloc());
    let count = request(rt.alloc(), engine.procs(), ("cnt", &[]))?;
    append_two(rt, engine, count, catalogue, &mut outcomes)?;
    Ok(outcomes)
}

/// The same of a new engine, and whether it refuses other tables then.
fn split_anew<R: Wait + AllocGlobal>(
    rt: &R,
    split: &Catalogue,
    other: &Catalogue,
) -> Result<(String, bool), Fail> {
    let settings = Settings::new(1, 8, 64, 65_536)?;
    let mut engine = engine(rt.alloc(), Bodies::Brief, settings)?;
    let outcomes = counted_twice(rt, &mut engine, split)?;
    let refused = engine.repartition(rt.alloc(), other);
    Ok((outcomes, matches!(refused, Err(RepartFault::Different))))
}

/// The first partition has the account 2 where keys are split by the remainder, and 1 and 2 below the bound 3. A
/// catalogue with another column is refused.
#[test]
fn a_request_goes_on_over_tables_that_are_split_anew(rt: HostRuntime) -> Result<(), Fail> {
    let split = catalogue_in(rt.alloc(), SPLIT_AT_3)?;
    let other = catalogue_in(rt.alloc(), OTHER_COLUMN)?;
    let (outcomes, is_refused) = split_anew(&rt, &split, &other)?;
    assert_eq!(rt;
        (outcomes.as_str(), is_refused),
        ("commit 1;commit 2;", true)
    );
    Ok(())
}
