//! Calls that are run beside jobs that are out. Whether one clashes with them is told by their plans where few places
//! begin at the first unsettled one, and by the lock tree where more do: the answers are the same.

use crate::schedulers::scheduler;
use scheduler::{Event, Scheduler, StepAnswer};
use std::alloc::Global;
use std::process::Abort;
use std::test::Fail;
use test_bank::Call;

const READER: Call<'static> = ("peek", &[1]);

/// How many calls that read an account are out; a call after them; whether it is run beside them. Reads go together; a
/// payment from that account writes it, and an insert writes nothing that they read.
const BESIDE: [(usize, Call<'static>, bool); 12] = [
    (1, ("peek", &[1]), true),
    (8, ("peek", &[1]), true),
    (9, ("peek", &[1]), true),
    (20, ("peek", &[1]), true),
    (1, ("ins", &[4, 7]), true),
    (8, ("ins", &[4, 7]), true),
    (9, ("ins", &[4, 7]), true),
    (20, ("ins", &[4, 7]), true),
    (1, ("pay", &[1, 2, 30]), false),
    (8, ("pay", &[1, 2, 30]), false),
    (9, ("pay", &[1, 2, 30]), false),
    (20, ("pay", &[1, 2, 30]), false),
];

/// A scheduler of readers of an account, which are out, and a call after them.
fn with_readers(
    rt: &impl Abort,
    alloc: Global,
    readers: usize,
    last: Call<'static>,
) -> Result<Scheduler, Fail> {
    let mut calls: Vec<Call<'static>> = Vec::new(alloc);
    let mut events = Vec::new(alloc);
    for number in 0..readers {
        calls.push(READER)?;
        events.push(Event::Admit)?;
        events.push(Event::Lend(number as u64))?;
    }
    calls.push(last)?;
    let mut scheduler = scheduler(alloc, &calls, 0, 65_536)?;
    for answer in &scheduler.play(&events)? {
        assert_eq!(rt; *answer, StepAnswer::Made, "{readers} {}", last.0);
    }
    Ok(scheduler)
}

#[test]
fn calls_are_run_beside_jobs_with_which_they_do_not_clash(rt: HostRuntime) -> Result<(), Fail> {
    for (readers, last, ran) in BESIDE {
        let mut scheduler = with_readers(&rt, rt.alloc(), readers, last)?;
        let wanted = if ran { Some(readers as u64) } else { None };
        assert_eq!(rt; scheduler.run_next()?, wanted, "{readers} {}", last.0);
    }
    Ok(())
}
