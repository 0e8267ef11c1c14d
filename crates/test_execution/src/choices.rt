//! Calls whose outcomes were worked out by hand, run by many lists of choices.

use engine::{Engine, QuietEngine, Settings};
use std::alloc::Global;
use std::sync::Wait;
use std::test::Fail;
use test_bank::{Bodies, Call, TWO_PAYS, bank, batch, batch_of, engine, replies};

/// How many lists of choices are tried with each setting.
const SEEDS: u32 = 64;

/// The number after a number, as if drawn at random.
pub(crate) fn after(number: u32) -> u32 {
    number.wrapping_mul(1_664_525).wrapping_add(1_013_904_223)
}

/// A list of `count` choices, another one for each seed.
pub(crate) fn choices(alloc: Global, seed: u32, count: u32) -> Result<Vec<u64>, Fail> {
    let mut choices = Vec::new(alloc);
    let mut number = seed;
    for _ in 0..count {
        number = after(number);
        choices.push(u64::from(number >> 3))?;
    }
    Ok(choices)
}

/// What comes of calls that an engine runs on one thread, by these choices of events.
fn run_on<R: Wait + AllocGlobal>(
    rt: &R,
    engine: &mut Engine,
    calls: &[Call<'_>],
    choices: &[u64],
) -> Result<String, Fail> {
    let alloc = rt.alloc();
    let batch = batch_of(alloc, engine, calls)?;
    replies(alloc, engine.run_alone(rt, alloc, batch, choices))
}

/// What comes of calls by the list of choices of a seed.
fn run_by<R: Wait + AllocGlobal>(
    rt: &R,
    settings: Settings,
    calls: &[Call<'_>],
    seed: u32,
) -> Result<String, Fail> {
    let choices = choices(rt.alloc(), seed, 48)?;
    let mut engine = engine(rt.alloc(), Bodies::Brief, settings)?;
    run_on(rt, &mut engine, calls, &choices)
}

/// What comes of calls on an engine that has no leave to wait, by these choices of events.
fn run_quietly(
    alloc: Global,
    engine: &mut QuietEngine,
    calls: &[Call<'_>],
    choices: &[u64],
) -> Result<String, Fail> {
    let batch = batch(alloc, engine.procs(), calls)?;
    replies(alloc, engine.execute_by(alloc, batch, choices))
}

/// The same as `run_by`, on an engine that has no leave to wait.
fn run_quietly_by(
    alloc: Global,
    settings: Settings,
    calls: &[Call<'_>],
    seed: u32,
) -> Result<String, Fail> {
    let choices = choices(alloc, seed, 48)?;
    let mut engine = QuietEngine::new(alloc, bank(alloc, Bodies::Brief)?, settings)?;
    run_quietly(alloc, &mut engine, calls, &choices)
}

/// The first seed by whose choices calls have other outcomes than these, on either kind of engine.
fn wrong_seed<R: Wait + AllocGlobal>(
    rt: &R,
    settings: Settings,
    calls: &[Call<'_>],
    outcomes: &str,
) -> Result<Option<u32>, Fail> {
    for seed in 0..SEEDS {
        let found = run_by(rt, settings, calls, seed)?;
        let quiet = run_quietly_by(rt.alloc(), settings, calls, seed)?;
        if found.as_str() != outcomes || quiet.as_str() != outcomes {
            return Ok(Some(seed));
        }
    }
    Ok(None)
}

/// Two rows of 100 each. They come to 70 and 130, 160 and 40, 165 and 40, 166 and 39, 105 and 100.
const MANY: [Call<'static>; 12] = [
    ("pay", &[1, 2, 30]),
    ("peek", &[1]),
    ("peek", &[2]),
    ("pay", &[2, 1, 90]),
    ("pay", &[1, 1, 5]),
    ("pay", &[1, 2, 500]),
    ("bad5", &[]),
    ("peek", &[3]),
    ("pay", &[2, 1, 1]),
    ("peek", &[2]),
    ("pay", &[1, 2, 61]),
    ("peek", &[1]),
];

const MANY_OUTCOMES: &str =
    "commit 70;commit 70;commit 130;commit 40;commit 155;abort 100;abort 9;abort 1;\
commit 39;commit 39;commit 105;commit 105;";

#[test]
fn outcomes_are_those_of_log_order_whatever_the_choices(rt: HostRuntime) -> Result<(), Fail> {
    let table: [(&[Call<'_>], &str); 3] = [
        (&TWO_PAYS, "commit 70;commit 40;"),
        (
            &[("cnt", &[]), ("ins", &[4, 7]), ("cnt", &[])],
            "commit 1;commit;commit 2;",
        ),
        (&MANY, MANY_OUTCOMES),
    ];
    for (threshold, most) in [(8, 65_536), (0, 65_536), (65_535, 1), (1, 7)] {
        let settings = Settings::new(1, 1, threshold, most)?;
        for (calls, outcomes) in table {
            let wrong = wrong_seed(&rt, settings, calls, outcomes)?;
            assert_eq!(rt; wrong, None, "{threshold} {most}");
        }
    }
    Ok(())
}
