//! The gate of a log's run: how many jobs pass it, and whether two are at it at the same time.

use crate::test_world::{Narrow, Slow, TWO_BATCHES};
use calvin::{DigestForm, Settings, SetupDocument, run_text};
use std::sync::Wait;
use std::test::Fail;
use std::thread::Threads;
use test_bank::{Bodies, HANDED_OVER, Meeting, bank};

const READ_AND_INSERT: &str = "[\"call\",\"peek\",[1]]\n[\"call\",\"ins\",[4,7]]\n";

/// The report of the run of a log on `workers` workers and two lanes, through a gate.
fn run_through<R: Threads + Wait + Sync + AllocGlobal>(
    rt: &R,
    log: &str,
    bodies: Bodies,
    workers: usize,
    gate: &Meeting,
) -> Result<Vec<u8>, Fail> {
    let alloc = rt.alloc();
    let document = SetupDocument {
        setup: bank(alloc, bodies)?,
        digest: DigestForm::Rows,
    };
    let settings = Settings::new(workers, 2, 8, 65_536)?;
    let mut source = Slow::new(log.as_bytes(), 0);
    let mut out = Narrow::new(alloc, 1000, false);
    run_text(rt, alloc, document, settings, gate, &mut source, &mut out)?;
    Ok(out.taken)
}

/// Logs of two calls; workers; for how many turns the first job waits for the second; what the report begins with, and
/// whether the two meet.
const RUNS: [(&str, usize, u32, &str, bool); 2] = [
    (TWO_BATCHES, 1, 0, "0 commit 70\nbatch 1 ", false),
    (
        READ_AND_INSERT,
        2,
        1_000_000,
        "0 commit 100\n1 commit\nbatch 1 ",
        true,
    ),
];

/// Each transaction passes once, and on two workers two that don't clash are at the gate at the same time.
#[test]
fn transactions_pass_the_gate_on_worker_threads(rt: HostRuntime) -> Result<(), Fail> {
    for (log, workers, turns, replies, meet) in RUNS {
        for (bodies, is_open) in HANDED_OVER {
            let gate = Meeting::new(is_open, (0, 1), turns);
            let report = run_through(&rt, log, bodies, workers, &gate)?;
            assert!(rt;
                report.starts_with(replies.as_bytes()),
                "{workers} {bodies:?}"
            );
            assert_eq!(rt;
                (gate.jobs(), gate.was_seen()),
                (2, meet),
                "{workers} {bodies:?}"
            );
        }
    }
    Ok(())
}
