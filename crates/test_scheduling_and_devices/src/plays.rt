//! Logs played on a scheduler, against what was worked out by hand.

ghost use Rattle.scheduler.specs.Schedules.{KeepsItsJobs};

use crate::schedulers::scheduler;
use scheduler::{AdmitFault, Event, Scheduler, StepAnswer, lent_jobs_come_back, run_job};
use std::alloc::Global;
use std::test::Fail;
use test_bank::{Call, TWO_PAYS, push_outcome};

/// What is answered to an admission.
type Admitted = Result<u64, AdmitFault>;

/// Calls, the events that are tried in turn, which of them are made (`+`) and refused (`-`), and what has come of the
/// calls.
type Played<'a> = (&'a [Call<'a>], &'a [Event], &'a str, &'a str);

const PAYMENTS: [Event; 16] = [
    Event::Admit,
    Event::Admit,
    Event::Lend(1),
    Event::Run(0),
    Event::Lend(0),
    Event::Settle(0),
    Event::Run(0),
    Event::Lend(1),
    Event::Settle(0),
    Event::Settle(0),
    Event::Lend(1),
    Event::Run(1),
    Event::Settle(1),
    Event::Admit,
    Event::Settle(1),
    Event::Lend(7),
];

const READERS: [Event; 8] = [
    Event::Admit,
    Event::Admit,
    Event::Lend(1),
    Event::Lend(0),
    Event::Run(0),
    Event::Run(1),
    Event::Settle(1),
    Event::Settle(0),
];

/// The queue of the partition is an intention to write, a read of all of it, and an intention to read. The third waits,
/// though it goes with the first.
const QUEUE: [Event; 11] = [
    Event::Admit,
    Event::Admit,
    Event::Admit,
    Event::Lend(1),
    Event::Lend(2),
    Event::Lend(0),
    Event::Lend(2),
    Event::Run(0),
    Event::Settle(0),
    Event::Lend(2),
    Event::Lend(1),
];

const PLAYS: [Played<'static>; 4] = [
    (&TWO_PAYS, &[], "", "open;open;"),
    (
        &TWO_PAYS,
        &PAYMENTS,
        "++--+-+-+-+++---",
        "commit 70;commit 40;",
    ),
    (
        &[("peek", &[1]), ("peek", &[1])],
        &READERS,
        "++++++++",
        "commit 100;commit 100;",
    ),
    (
        &[("ins", &[2, 0]), ("cnt", &[]), ("peek", &[4])],
        &QUEUE,
        "+++--+-++++",
        "abort 2;open;open;",
    ),
];

/// What has come of `count` calls.
fn replies(alloc: Global, scheduler: &Scheduler, count: usize) -> Result<String, Fail> {
    let mut text = String::new(alloc);
    for number in 0..count {
        match scheduler.reply(number as u64) {
            Some(outcome) => push_outcome(&mut text, outcome)?,
            None => text.push_str("open;")?,
        }
    }
    Ok(text)
}

/// Plays events, and says of each what came of it.
fn play(alloc: Global, scheduler: &mut Scheduler, events: &[Event]) -> Result<String, Fail>
    requires { KeepsItsJobs scheduler.old }
    ensures { KeepsItsJobs scheduler.new }
{
    let mut text = String::new(alloc);
    for answer in &scheduler.play(events)? {
        text.push_str(match answer {
            StepAnswer::Made => "+",
            StepAnswer::Refused => "-",
            StepAnswer::NoMemory => "memory",
        })?;
    }
    Ok(text)
}

/// What comes of events, and then of `count` calls.
fn play_out(
    alloc: Global,
    scheduler: &mut Scheduler,
    events: &[Event],
    count: usize,
) -> Result<(String, String), Fail>
    requires { KeepsItsJobs scheduler.old }
{
    let answers = play(alloc, scheduler, events)?;
    let outcomes = replies(alloc, scheduler, count)?;
    Ok((answers, outcomes))
}

/// What comes of events on a new scheduler of calls, and of the calls.
pub(crate) fn played(
    alloc: Global,
    calls: &[Call<'_>],
    events: &[Event],
) -> Result<(String, String), Fail> {
    let mut scheduler = scheduler(alloc, calls, 0, 65_536)?;
    play_out(alloc, &mut scheduler, events, calls.len())
}

#[test]
fn events_are_made_where_they_are_enabled(rt: HostRuntime) -> Result<(), Fail> {
    for (calls, events, answers, outcomes) in PLAYS {
        let (found, left) = played(rt.alloc(), calls, events)?;
        assert_eq!(rt; found.as_str(), answers);
        assert_eq!(rt; left.as_str(), outcomes);
    }
    Ok(())
}

/// The event that a number chooses, after events.
fn chosen_on(
    alloc: Global,
    scheduler: &mut Scheduler,
    events: &[Event],
    number: u64,
) -> Result<Option<Event>, Fail>
    requires { KeepsItsJobs scheduler.old }
{
    let _answers = play(alloc, scheduler, events)?;
    Ok(scheduler.choose(number)?)
}

/// The same on a new scheduler of two readers.
fn chosen(alloc: Global, events: &[Event], number: u64) -> Result<Option<Event>, Fail> {
    let mut scheduler = scheduler(alloc, &[("peek", &[1]), ("peek", &[1])], 0, 65_536)?;
    chosen_on(alloc, &mut scheduler, events, number)
}

/// To admit comes first among the enabled events, and the others come by the numbers of their transactions.
#[test]
fn events_are_chosen_by_their_places(rt: HostRuntime) -> Result<(), Fail> {
    let table: [(&[Event], u64, Event); 6] = [
        (&[], 3, Event::Admit),
        (&[Event::Admit], 2, Event::Admit),
        (&[Event::Admit], 3, Event::Lend(0)),
        (&[Event::Admit, Event::Admit], 2, Event::Lend(0)),
        (&[Event::Admit, Event::Admit], 3, Event::Lend(1)),
        (
            &[Event::Admit, Event::Admit, Event::Lend(0)],
            2,
            Event::Run(0),
        ),
    ];
    for (events, number, want) in table {
        assert_eq!(rt; chosen(rt.alloc(), events, number)?, Some(want));
    }
    Ok(())
}

/// Lends its rows to the next transaction, runs it and settles it: the number of its job, if that is the number of what
/// came back, which was run.
fn settle_next(scheduler: &mut Scheduler) -> Result<Option<u64>, Fail> {
    lent_jobs_come_back();
    let Some(job) = scheduler.lend()? else {
        return Ok(None);
    };
    let number = job.no();
    let done = run_job(job);
    let is_same = done.is_run() && done.no() == number;
    scheduler.settle(done);
    Ok(is_same.then_some(number))
}

/// Admits two transactions and settles each, where there is room for one at a time: what is answered.
fn settle_two(scheduler: &mut Scheduler) -> Result<([Admitted; 4], [Option<u64>; 2]), Fail> {
    let first = scheduler.admit();
    let full = scheduler.admit();
    let one = settle_next(scheduler)?;
    let second = scheduler.admit();
    let two = settle_next(scheduler)?;
    let none = scheduler.admit();
    Ok(([first, full, second, none], [one, two]))
}

/// With room for one request each payment is coarsened to one on the database.
#[test]
fn one_request_is_all_there_is_room_for(rt: HostRuntime) -> Result<(), Fail> {
    let calls: [Call<'_>; 2] = [("pay", &[1, 1, 1]), ("pay", &[2, 2, 1])];
    let mut scheduler = scheduler(rt.alloc(), &calls, 0, 1)?;
    let (admitted, settled) = settle_two(&mut scheduler)?;
    let answers = [
        Ok(0),
        Err(AdmitFault::Full),
        Ok(1),
        Err(AdmitFault::AllAdmitted),
    ];
    assert_eq!(rt; (admitted, settled), (answers, [Some(0), Some(1)]));
    assert_eq!(rt;
        replies(rt.alloc(), &scheduler, 2)?.as_str(),
        "commit 99;commit 99;"
    );
    Ok(())
}
