//! Calls that are tried again until they commit.

use crate::logs::three;
use crate::servers::serve_all;
use engine::{Engine, Settings};
use example_serving::Told;
use meaning::Outcome;
use setup::read_setup;
use std::alloc::Global;
use std::sync::Wait;
use std::test::Fail;
use std::thread::Threads;
use test_bank::push_outcome;

/// A chain of rows, each of which leads to the next; `go` has a row lead where the next one does, after a loop of one
/// turn up to a sum, so that it is handed over to a worker. Stale requests are tried again twice.
const CHAIN: &str = r#"["setup",2,
["catalogue",1,[["ref",1,[["to","int"]]]]],
["procs",1,[["go",[["k","int"]],["recon"],
 [["for","once",1,["+",0,1],[]],["get","t","ref","k","to"],["get","x","ref","t","to"],
   ["put","ref","k","to","x"],["reply","x"]]]]],
["rows",1,[["ref",1,[2]],["ref",2,[3]],["ref",3,[4]],["ref",4,[4]]]],2]"#;

/// What came of the attempts that were not stale, in their order.
fn settled(alloc: Global, told: &[Told]) -> Result<String, Fail> {
    let mut text = String::new(alloc);
    for told in told {
        match &told.answer {
            Ok(Outcome::Stale) => {}
            Ok(outcome) => push_outcome(&mut text, outcome)?,
            Err(_) => text.push_str("no request;")?,
        }
    }
    Ok(text)
}

/// What three clients are told, on 2 workers.
fn told_to_three<R: Threads + Wait + Sync>(rt: &R, alloc: Global) -> Result<Vec<Told>, Fail> {
    let logs = three(alloc)?;
    let settings = Settings::new(2, 8, 64, 65_536)?;
    let engine = Engine::new(alloc, read_setup(alloc, CHAIN.as_bytes())?.setup, settings)?;
    let (_engine, told) = serve_all(rt, alloc, engine, logs, 16)?;
    Ok(told)
}

/// However the three calls fall into batches, the first of a batch commits, and none has more than two before it.
#[test]
fn each_call_commits_in_the_end(rt: HostRuntime) -> Result<(), Fail> {
    let told = told_to_three(&rt, rt.alloc())?;
    let outcomes = settled(rt.alloc(), told.as_slice())?;
    assert_eq!(rt; outcomes.as_str(), "commit 3;commit 4;commit 4;");
    Ok(())
}
