//! Batches that are executed one after another in one pool of workers.

ghost use Rattle.std.specs.Prelude.{◌≡◌};

use crate::gates::PEEK;
use engine::{Engine, Gate, Settings, WorkerPool, Workplace};
use std::sync::Wait;
use std::test::Fail;
use std::thread;
use std::thread::Threads;
use test_bank::{Bodies, Call, HANDED_OVER, Meeting, TWO_PAYS, batch_of, engine, replies};

/// What comes of calls that an engine executes in a pool.
fn execute_in<'s, E, R: Wait + Sync + AllocGlobal, G: Gate>(
    rt: &R,
    engine: &mut Engine,
    pool: &mut WorkerPool<'s, E, R, G>,
    calls: &[Call<'_>],
) -> Result<String, Fail> {
    let alloc = rt.alloc();
    let batch = batch_of(alloc, engine, calls)?;
    replies(alloc, engine.execute_in(alloc, batch, pool))
}

/// Appends what comes of batches that an engine executes in a pool.
fn append_batches<'s, E, R: Wait + Sync + AllocGlobal, G: Gate>(
    rt: &R,
    engine: &mut Engine,
    pool: &mut WorkerPool<'s, E, R, G>,
    batches: &[&[Call<'_>]],
    outcomes: &mut String,
) -> Result<(), Fail> {
    for calls in batches {
        outcomes.push_str(execute_in(rt, engine, pool, calls)?.as_str())?;
    }
    Ok(())
}

/// Appends what comes of batches on a new engine in a pool.
fn append_engine<'s, E, R: Wait + Sync + AllocGlobal, G: Gate>(
    rt: &R,
    bodies: Bodies,
    settings: Settings,
    pool: &mut WorkerPool<'s, E, R, G>,
    batches: &[&[Call<'_>]],
    outcomes: &mut String,
) -> Result<(), Fail> {
    let mut engine = engine(rt.alloc(), bodies, settings)?;
    append_batches(rt, &mut engine, pool, batches, outcomes)
}

/// What comes of batches on two new engines, one after the other in a pool.
fn outcomes_of_two<'s, E, R: Wait + Sync + AllocGlobal, G: Gate>(
    rt: &R,
    bodies: Bodies,
    settings: Settings,
    pool: &mut WorkerPool<'s, E, R, G>,
    batches: &[&[Call<'_>]],
) -> Result<String, Fail> {
    let mut outcomes = String::new(rt.alloc());
    for _ in 0..2 {
        append_engine(rt, bodies, settings, pool, batches, &mut outcomes)?;
    }
    Ok(outcomes)
}

/// What comes of batches on two new engines in a new pool.
fn outcomes_in_pool<R: Threads + Wait + Sync + AllocGlobal, G: Gate>(
    rt: &R,
    bodies: Bodies,
    settings: Settings,
    gate: &G,
    batches: &[&[Call<'_>]],
) -> Result<String, Fail> {
    let (place, head) = Workplace::new(rt.alloc(), settings)?;
    let place = &place;
    thread::scope(
        thread::scope_env(),
        rt,
        move |scope| -> Result<String, Fail>
            requires { head ≡ place.now }
        {
            let mut pool = WorkerPool::new(rt, scope, gate, place, head);
            outcomes_of_two(rt, bodies, settings, &mut pool, batches)
        },
    )
}

const BATCHES: [&[Call<'static>]; 4] = [&[PEEK], &[], &[PEEK, PEEK], &TWO_PAYS];

const OUTCOMES: &str = "commit 100;commit 100;commit 100;commit 70;commit 40;\
commit 100;commit 100;commit 100;commit 70;commit 40;";

/// A worker is started for the first batch, and another for the third, in which two jobs meet. Both work at all batches
/// after it.
#[test]
fn a_pool_works_at_one_batch_after_another(rt: HostRuntime) -> Result<(), Fail> {
    let settings = Settings::new(2, 8, 64, 65_536)?;
    for (bodies, is_open) in HANDED_OVER {
        let gate = Meeting::new(is_open, (1, 2), 1_000_000);
        let outcomes = outcomes_in_pool(&rt, bodies, settings, &gate, &BATCHES)?;
        assert_eq!(rt; outcomes.as_str(), OUTCOMES, "{bodies:?}");
        assert_eq!(rt; (gate.jobs(), gate.was_seen()), (10, true), "{bodies:?}");
    }
    Ok(())
}
