//! The engine, by many lists of choices and on workers under many settings, beside the plain program.

ghost use Rattle.std.specs.Prelude.{◌≡◌, IfOk};
ghost use Rattle.std.specs.FinMap as map_of;
ghost use Rattle.sequencer.specs.Batches.{items_of, AreOver};
ghost use Rattle.engine.specs.Engines.{tables_of};

use crate::choices::{after, choices};
use crate::plain::run_serially;
use catalogue::Catalogue;
use engine::{BadSetting, Batch, Engine, Settings};
use meaning::Outcome;
use requests::{Procs, Request, Setup};
use row_store::{RowStore, all_is_free_with_nothing_lent};
use sequencer::prepare;
use std::alloc::Global;
use std::sync::Wait;
use std::test::Fail;
use std::thread::Threads;
use test_bank::{Bodies, CallsFault, CountingGate, HANDED_OVER, bank, batch_over, engine, request};
use values::{Key, Row, TableNo};
use workspace::RowView;

/// How many batches the log has.
const BATCHES: u32 = 5;

/// How many calls a batch has: no more than 65, so that each is handed over at an open gate, too.
const CALLS: u32 = 40;

/// How many lists of choices are tried with each setting.
const SEEDS: u32 = 64;

/// How many settings are drawn for workers, beside the least and the greatest.
const DRAWN_SETTINGS: u32 = 14;

/// How an engine runs batches.
#[derive(Clone, Copy)]
enum Way<'a> {
    /// On one thread, each by a list of choices of events.
    Alone(&'a [u64]),
    /// On workers, through a gate.
    Workers(&'a CountingGate),
}

/// The call that a number means: mostly a payment between the accounts 1, 2 and 4, of which the last may not be
/// there yet.
fn drawn(alloc: Global, procs: &Procs, number: u32) -> Result<Request, CallsFault>
    ensures { IfOk result (λ request. request.proc.tables ≡ procs.now.tables) }
{
    let from = 1 << ((number >> 9) % 3);
    let to = 1 << ((number >> 17) % 3);
    let amount = i64::from(number >> 27);
    match (number >> 5) % 8 {
        0 => request(alloc, procs, ("ins", &[to, amount])),
        1 => request(alloc, procs, ("cnt", &[])),
        2 => request(alloc, procs, ("peek", &[to])),
        _ => request(alloc, procs, ("pay", &[from, to, amount])),
    }
}

/// The batch of that number.
fn drawn_batch(alloc: Global, procs: &Procs, batch: u32) -> Result<Batch, Fail>
    ensures { IfOk result (λ batch. AreOver procs.now.tables (items_of batch)) }
{
    let mut requests = Vec::new(alloc);
    let mut number = batch;
    for _ in 0..CALLS {
        number = after(number);
        requests.push(drawn(alloc, procs, number)?)?;
    }
    Ok(batch_over(alloc, procs, requests)?)
}

/// The outcomes of one batch, run call by call on the rows of a store.
fn plain_batch(
    alloc: Global,
    catalogue: &Catalogue,
    procs: &Procs,
    store: &mut RowStore,
    number: u32,
) -> Result<Vec<Outcome>, Fail>
    requires procs { procs.now.tables ≡ catalogue.now }
    requires tables { store.old.tables ≡ catalogue.now }
    requires unlent { store.old.lent ≡ map_of.empty }
    ensures tables { store.new.tables ≡ catalogue.now }
    ensures unlent { store.new.lent ≡ map_of.empty }
{
    all_is_free_with_nothing_lent();
    let batch = drawn_batch(alloc, procs, number)?;
    let entries = prepare(alloc, &batch, catalogue, procs, &*store)?;
    Ok(run_serially(alloc, store, &entries)?)
}

/// The outcomes of all batches, run call by call on the rows of a store.
fn plain_batches(
    alloc: Global,
    catalogue: &Catalogue,
    procs: &Procs,
    store: &mut RowStore,
) -> Result<Vec<Outcome>, Fail>
    requires procs { procs.now.tables ≡ catalogue.now }
    requires tables { store.old.tables ≡ catalogue.now }
    requires unlent { store.old.lent ≡ map_of.empty }
    ensures { store.new.lent ≡ map_of.empty }
{
    let mut outcomes = Vec::new(alloc);
    for number in 0..BATCHES {
        let mut more = plain_batch(alloc, catalogue, procs, store, number)?;
        outcomes.append(&mut more)?;
    }
    Ok(outcomes)
}

/// The outcomes of all batches, run call by call, and the rows that they leave.
fn plain_run(
    alloc: Global,
    catalogue: &Catalogue,
    procs: &Procs,
    rows: Vec<(TableNo, Key, Row)>,
) -> Result<(Vec<Outcome>, RowStore), Fail>
    requires { procs.now.tables ≡ catalogue.now }
    ensures { IfOk result (λ ran. ran.1.lent ≡ map_of.empty) }
{
    let mut store = RowStore::new(alloc, catalogue, rows)?;
    let outcomes = plain_batches(alloc, catalogue, procs, &mut store)?;
    Ok((outcomes, store))
}

/// The outcomes of all batches on the bank, run call by call, and the rows that they leave.
fn plain_run_of_bank(alloc: Global) -> Result<(Vec<Outcome>, RowStore), Fail>
    ensures { IfOk result (λ ran. ran.1.lent ≡ map_of.empty) }
{
    let Setup {
        catalogue,
        procs,
        rows,
        retries: _,
    } = bank(alloc, Bodies::Brief)?;
    plain_run(alloc, &catalogue, &procs, rows)
}

/// Whether an engine gives these outcomes of a batch.
fn gives<R: Threads + Wait + Sync + AllocGlobal>(
    rt: &R,
    engine: &mut Engine,
    batch: Batch,
    way: Way<'_>,
    outcomes: &[Outcome],
) -> bool
    requires { AreOver (tables_of engine.old.core) (items_of batch) }
{
    let done = match way {
        Way::Alone(choices) => engine.run_alone(rt, rt.alloc(), batch, choices),
        Way::Workers(gate) => engine.execute(rt, rt.alloc(), batch, gate),
    };
    match done {
        Ok(done) => done
            .replies
            .iter()
            .map(|reply| &reply.outcome)
            .eq(outcomes.iter()),
        Err(_) => false,
    }
}

/// Whether the accounts 1 to 4 of an engine are those of a store.
fn same_accounts(engine: &Engine, store: &RowStore) -> Result<bool, Fail>
    requires { store.now.lent ≡ map_of.empty }
{
    all_is_free_with_nothing_lent();
    if engine.is_busy() {
        return Err(Fail::from("a batch is unfinished"));
    }
    let rows = engine.rows();
    let accounts = TableNo::new(0);
    for number in 1..5 {
        let key = Key::new(number).ok_or("a key")?;
        let same = match (rows.row(accounts, key), store.row(accounts, key)) {
            (Some(row), Some(other)) => row.values() == other.values(),
            (row, other) => row.is_none() && other.is_none(),
        };
        if !same {
            return Ok(false);
        }
    }
    Ok(true)
}

/// Whether an engine gives these outcomes and the accounts of the store.
fn agrees<R: Threads + Wait + Sync + AllocGlobal>(
    rt: &R,
    engine: &mut Engine,
    way: Way<'_>,
    outcomes: &[Outcome],
    store: &RowStore,
) -> Result<bool, Fail>
    requires { store.now.lent ≡ map_of.empty }
{
    for (number, outcomes) in (0..BATCHES).zip(outcomes.chunks(CALLS as usize)) {
        let batch = drawn_batch(rt.alloc(), engine.procs(), number)?;
        if !gives(rt, engine, batch, way, outcomes) {
            return Ok(false);
        }
    }
    same_accounts(engine, store)
}

/// Whether a new engine with these settings gives these outcomes and the accounts of the store.
fn agrees_with<R: Threads + Wait + Sync + AllocGlobal>(
    rt: &R,
    bodies: Bodies,
    settings: Settings,
    way: Way<'_>,
    outcomes: &[Outcome],
    store: &RowStore,
) -> Result<bool, Fail>
    requires { store.now.lent ≡ map_of.empty }
{
    let mut engine = engine(rt.alloc(), bodies, settings)?;
    agrees(rt, &mut engine, way, outcomes, store)
}

/// Whether engines with these settings agree with the plain program by each of many lists of choices.
fn always_agrees<R: Threads + Wait + Sync + AllocGlobal>(
    rt: &R,
    settings: Settings,
    outcomes: &[Outcome],
    store: &RowStore,
) -> Result<bool, Fail>
    requires { store.now.lent ≡ map_of.empty }
{
    for seed in 0..SEEDS {
        let choices = choices(rt.alloc(), seed, 4 * CALLS)?;
        let way = Way::Alone(&choices);
        if !agrees_with(rt, Bodies::Brief, settings, way, outcomes, store)? {
            return Ok(false);
        }
    }
    Ok(true)
}

/// Whether engines with these settings agree with the plain program on workers, and hand over each call as a job.
fn agrees_on_workers<R: Threads + Wait + Sync + AllocGlobal>(
    rt: &R,
    settings: Settings,
    outcomes: &[Outcome],
    store: &RowStore,
) -> Result<bool, Fail>
    requires { store.now.lent ≡ map_of.empty }
{
    for (bodies, is_open) in HANDED_OVER {
        let gate = CountingGate::new(is_open);
        let agrees = agrees_with(rt, bodies, settings, Way::Workers(&gate), outcomes, store)?;
        if !agrees || gate.jobs() != outcomes.len() as u64 {
            return Ok(false);
        }
    }
    Ok(true)
}

/// The settings of a seed: the least, the greatest, or drawn.
fn drawn_settings(seed: u32) -> Result<Settings, BadSetting> {
    match seed {
        0 => Settings::new(1, 1, 0, 1),
        1 => Settings::new(16, 64, 65_535, 1_048_576),
        _ => {
            let number = after(after(seed)) as usize;
            let (workers, lanes) = (1 + (number >> 4) % 16, 1 + (number >> 9) % 64);
            Settings::new(workers, lanes, (number >> 16) % 4, 1 + (number >> 20) % 40)
        }
    }
}

/// How many outcomes there are, and the first settings with which an engine doesn't agree with them and with the store.
type Compared = (usize, Option<Settings>);

/// Compares engines with small and large settings, on one thread.
fn compared_alone<R: Threads + Wait + Sync + AllocGlobal>(
    rt: &R,
    outcomes: &[Outcome],
    store: &RowStore,
) -> Result<Compared, Fail>
    requires { store.now.lent ≡ map_of.empty }
{
    for (threshold, most) in [(0, 1), (65_535, 1), (0, 1_048_576), (65_535, 1_048_576)] {
        let settings = Settings::new(1, 1, threshold, most)?;
        if !always_agrees(rt, settings, outcomes, store)? {
            return Ok((outcomes.len(), Some(settings)));
        }
    }
    Ok((outcomes.len(), None))
}

/// Compares engines on workers under many settings.
fn compared_on_workers<R: Threads + Wait + Sync + AllocGlobal>(
    rt: &R,
    outcomes: &[Outcome],
    store: &RowStore,
) -> Result<Compared, Fail>
    requires { store.now.lent ≡ map_of.empty }
{
    for seed in 0..2 + DRAWN_SETTINGS {
        let settings = drawn_settings(seed)?;
        if !agrees_on_workers(rt, settings, outcomes, store)? {
            return Ok((outcomes.len(), Some(settings)));
        }
    }
    Ok((outcomes.len(), None))
}

/// Compares engines with the plain program, on one thread and on workers.
fn compared<R: Threads + Wait + Sync + AllocGlobal>(rt: &R) -> Result<[Compared; 2], Fail> {
    let (outcomes, store) = plain_run_of_bank(rt.alloc())?;
    let alone = compared_alone(rt, &outcomes, &store)?;
    Ok([alone, compared_on_workers(rt, &outcomes, &store)?])
}

#[test]
fn each_run_gives_what_the_plain_program_gives(rt: HostRuntime) -> Result<(), Fail> {
    assert_eq!(rt; compared(&rt)?, [(200, None), (200, None)]);
    Ok(())
}
