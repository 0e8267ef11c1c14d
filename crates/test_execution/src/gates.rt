//! Jobs that meet at a gate, or don't, and jobs that pass it one after another.

use engine::{Gate, Settings};
use std::alloc::Global;
use std::sync::Wait;
use std::sync::atomic::{AtomicU64, Ordering};
use std::test::Fail;
use std::thread;
use std::thread::Threads;
use test_bank::{Bodies, Call, CountingGate, HANDED_OVER, Meeting, execute};

/// Calls, how many workers and lanes, whom the first waits for and for how many turns, what comes of the calls, and
/// whether the two meet.
type Met<'a> = (&'a [Call<'a>], (usize, usize), (u64, u32), &'a str, bool);

pub(crate) const PEEK: Call<'static> = ("peek", &[1]);

const FOUR: [Call<'static>; 4] = [PEEK, PEEK, PEEK, PEEK];

const FOUR_READ: &str = "commit 100;commit 100;commit 100;commit 100;";

/// Readers, and a reader and a writer of other rows, are run at once where there are two workers and two lanes.
/// Writers, and a reader after a writer, are run one after the other. Who waits for a lane alone comes once one is
/// free.
const MEETINGS: [Met<'static>; 7] = [
    (
        &[PEEK, ("ins", &[4, 7])],
        (2, 2),
        (1, 1_000_000),
        "commit 100;commit;",
        true,
    ),
    (
        &[PEEK, PEEK],
        (2, 2),
        (1, 1_000_000),
        "commit 100;commit 100;",
        true,
    ),
    (&FOUR, (2, 8), (3, 1_000_000), FOUR_READ, true),
    (&FOUR, (2, 1), (3, 1_000_000), FOUR_READ, false),
    (
        &[("pay", &[1, 2, 1]), ("pay", &[2, 1, 1])],
        (2, 8),
        (1, 1_000),
        "commit 99;commit 100;",
        false,
    ),
    (
        &[("pay", &[1, 2, 30]), PEEK],
        (2, 2),
        (1, 1_000),
        "commit 70;commit 70;",
        false,
    ),
    (
        &[("ins", &[4, 7]), ("ins", &[4, 8])],
        (2, 2),
        (1, 1_000),
        "commit;abort 2;",
        false,
    ),
];

/// Calls for one gate, with the bodies and whether it is open. At an open gate the scheduler's thread runs jobs that
/// wait, too: then nobody hands out the last of four calls on two lanes while it is held with the first.
const AT_ONE_GATE: [(Met<'static>, (Bodies, bool)); 5] = [
    (
        (&FOUR, (1, 8), (1, 100_000), FOUR_READ, false),
        (Bodies::Brief, false),
    ),
    (
        (&FOUR, (1, 8), (1, 100_000), FOUR_READ, false),
        (Bodies::Looping, false),
    ),
    (
        (&FOUR, (1, 8), (1, 1_000_000), FOUR_READ, true),
        (Bodies::Looping, true),
    ),
    (
        (&FOUR, (2, 2), (3, 1_000_000), FOUR_READ, true),
        (Bodies::Brief, false),
    ),
    (
        (&FOUR, (2, 2), (3, 1_000_000), FOUR_READ, true),
        (Bodies::Looping, false),
    ),
];

/// Whether calls reply and meet as they must, and each is a job, where it is handed over so.
fn meet<R: Threads + Wait + Sync + AllocGlobal>(
    rt: &R,
    (calls, (workers, lanes), (awaited, turns), outcomes, is_seen): Met<'_>,
    (bodies, is_open): (Bodies, bool),
) -> Result<bool, Fail> {
    let gate = Meeting::new(is_open, (0, awaited), turns);
    let settings = Settings::new(workers, lanes, 64, 65_536)?;
    let found = execute(rt, bodies, settings, calls, &gate)?;
    Ok(
        found.as_str() == outcomes
            && gate.was_seen() == is_seen
            && gate.jobs() == calls.len() as u64,
    )
}

/// Two jobs are at the gate at the same time, so two threads run jobs. That is so at an open gate, too.
#[test]
fn jobs_meet_where_nothing_keeps_them_apart(rt: HostRuntime) -> Result<(), Fail> {
    for met in MEETINGS {
        for handed_over in HANDED_OVER {
            let (workers, lanes) = met.1;
            assert!(rt;
                meet(&rt, met, handed_over)?,
                "{workers} {lanes} {handed_over:?}"
            );
        }
    }
    Ok(())
}

/// Only at an open gate the scheduler's thread runs jobs while others are out.
#[test]
fn jobs_meet_at_one_gate_and_not_at_another(rt: HostRuntime) -> Result<(), Fail> {
    for (met, handed_over) in AT_ONE_GATE {
        let (workers, lanes) = met.1;
        assert!(rt;
            meet(&rt, met, handed_over)?,
            "{workers} {lanes} {handed_over:?}"
        );
    }
    Ok(())
}

/// How many payments of 1 go from the first account to the second, each with one that goes back.
const THERE_AND_BACK: usize = 250;

/// The payments, in turns. Both accounts have 100 at first, so 99 are left where one goes, and 100 where one comes back
/// from 101.
fn payments(alloc: Global) -> Result<(Vec<Call<'static>>, String), Fail> {
    let mut calls: Vec<Call<'static>> = Vec::new(alloc);
    for _ in 0..THERE_AND_BACK {
        calls.push(("pay", &[1, 2, 1]))?;
        calls.push(("pay", &[2, 1, 1]))?;
    }
    let outcomes = "commit 99;commit 100;".repeat(alloc, THERE_AND_BACK)?;
    Ok((calls, outcomes))
}

/// Workers and lanes, bodies, whether the gate is open, and how many of 500 calls are jobs.
type Handed = ((usize, usize), (Bodies, bool), u64);

/// At an open gate a brief call is no job. Of calls that wait for one another the first 65 are jobs, beside which
/// nothing is run, and then one in 16: of 500 calls 65 and 27.
const HANDED: [Handed; 8] = [
    ((1, 1), (Bodies::Brief, false), 500),
    ((16, 1), (Bodies::Brief, false), 500),
    ((16, 64), (Bodies::Brief, false), 500),
    ((1, 1), (Bodies::Looping, true), 92),
    ((16, 1), (Bodies::Looping, true), 92),
    ((16, 64), (Bodies::Looping, true), 92),
    ((1, 1), (Bodies::Brief, true), 0),
    ((16, 1), (Bodies::Brief, true), 0),
];

/// Each payment is in conflict with the next, so they pass in the order of the log.
#[test]
fn each_payment_in_conflict_passes_the_gate_once(rt: HostRuntime) -> Result<(), Fail> {
    let (calls, outcomes) = payments(rt.alloc())?;
    for ((workers, lanes), (bodies, is_open), jobs) in HANDED {
        let gate = CountingGate::new(is_open);
        let settings = Settings::new(workers, lanes, 64, 65_536)?;
        let found = execute(&rt, bodies, settings, &calls, &gate)?;
        assert!(rt; found == outcomes, "{workers} {lanes} {bodies:?} {is_open}");
        assert_eq!(rt;
            (gate.jobs(), gate.out_of_order()),
            (jobs, 0),
            "{workers} {lanes} {bodies:?} {is_open}"
        );
    }
    Ok(())
}

/// For how many turns at most a job is held.
const TURNS: u32 = 1_000_000;

/// An open gate that holds each job whose number is a multiple of four until the next one comes. It counts the jobs,
/// and those that were held in vain.
#[derive(Drop)]
struct Pairs {
    count: CountingGate,
    /// The greatest number of a job that came.
    came: AtomicU64,
    in_vain: AtomicU64,
}

impl Pairs {
    fn new() -> Pairs {
        Pairs {
            count: CountingGate::new(true),
            came: AtomicU64::new(0),
            in_vain: AtomicU64::new(0),
        }
    }

    fn wait_for(&self, no: u64) {
        for _ in 0..TURNS {
            if self.came.load(Ordering::SeqCst) >= no {
                return;
            }
            thread::yield_now();
        }
        self.in_vain.fetch_add(1, Ordering::SeqCst);
    }
}

impl Gate for Pairs {
    fn enter(&self, no: u64) {
        self.count.enter(no);
        self.came.fetch_max(no, Ordering::SeqCst);
        if no % 4 == 0 {
            self.wait_for(no.saturating_add(1));
        }
    }

    fn is_open(&self) -> bool {
        true
    }
}

/// How often two readers come, and two payments, which are brief and wait for them.
const PAIRS: usize = 100;

/// The calls, with what comes of them.
fn readers_in_pairs(alloc: Global) -> Result<(Vec<Call<'static>>, String), Fail> {
    let mut calls: Vec<Call<'static>> = Vec::new(alloc);
    for _ in 0..PAIRS {
        calls.push(PEEK)?;
        calls.push(PEEK)?;
        calls.push(("pay", &[1, 2, 1]))?;
        calls.push(("pay", &[2, 1, 1]))?;
    }
    let outcomes = "commit 100;commit 100;commit 99;commit 100;".repeat(alloc, PAIRS)?;
    Ok((calls, outcomes))
}

/// Jobs that are out together pay, so calls are handed over however many there were before.
#[test]
fn jobs_that_are_out_together_are_handed_over(rt: HostRuntime) -> Result<(), Fail> {
    let (calls, outcomes) = readers_in_pairs(rt.alloc())?;
    for (workers, lanes) in [(2, 8), (16, 64)] {
        let gate = Pairs::new();
        let settings = Settings::new(workers, lanes, 64, 65_536)?;
        let found = execute(&rt, Bodies::LoopingPeek, settings, &calls, &gate)?;
        assert!(rt; found == outcomes, "{workers} {lanes}");
        assert_eq!(rt; gate.count.jobs(), 2 * PAIRS as u64, "{workers} {lanes}");
        assert_eq!(rt; gate.in_vain.load(Ordering::SeqCst), 0, "{workers} {lanes}");
    }
    Ok(())
}

/// How often four calls come: a longer one, a brief one that has nothing to do with it, and two that wait for it. That
/// is so few times that each longer call is handed over.
const ROUNDS: usize = 60;

/// The calls, with what comes of them. The balance that is read is 100 each time.
fn longer_and_brief(alloc: Global) -> Result<(Vec<Call<'static>>, String), Fail> {
    let mut calls: Vec<Call<'static>> = Vec::new(alloc);
    for _ in 0..ROUNDS {
        calls.push(PEEK)?;
        calls.push(("set", &[1, 2]))?;
        calls.push(("pay", &[1, 2, 1]))?;
        calls.push(("pay", &[2, 1, 1]))?;
    }
    let outcomes = "commit 100;commit;commit 99;commit 100;".repeat(alloc, ROUNDS)?;
    Ok((calls, outcomes))
}

/// At an open gate only the longer calls are jobs, whatever is out meanwhile; at another each call is one.
#[test]
fn brief_calls_beside_longer_ones_are_jobs_of_nobody(rt: HostRuntime) -> Result<(), Fail> {
    let (calls, outcomes) = longer_and_brief(rt.alloc())?;
    for (workers, lanes) in [(1, 1), (2, 8), (16, 64)] {
        for (is_open, jobs) in [(true, ROUNDS as u64), (false, 4 * ROUNDS as u64)] {
            let gate = CountingGate::new(is_open);
            let settings = Settings::new(workers, lanes, 64, 65_536)?;
            let found = execute(&rt, Bodies::LoopingPeek, settings, &calls, &gate)?;
            assert!(rt; found == outcomes, "{workers} {lanes} {is_open}");
            assert_eq!(rt; gate.jobs(), jobs, "{workers} {lanes} {is_open}");
        }
    }
    Ok(())
}
