//! Jobs that are handed over by lanes.

ghost use Rattle.std.specs.Prelude.{◌≡◌};
ghost use Rattle.lanes.specs.Calls.{Claims};

use crate::schedulers::scheduler;
use lanes::{LaneNo, Lanes, SchedulerSeat, WorkerSeat};
use scheduler::{Job, Scheduler, run_job};
use std::alloc::Global;
use std::process::Abort;
use std::test::Fail;

/// The job of the first transaction of a scheduler.
fn lent(scheduler: &mut Scheduler) -> Result<Job, Fail> {
    if scheduler.admit().is_err() {
        return Err(Fail::from("memory"));
    }
    match scheduler.lend() {
        Ok(Some(job)) => Ok(job),
        _ => Err(Fail::from("no job")),
    }
}

/// A job of this number, which a scheduler lent.
fn job(alloc: Global, number: u64) -> Result<Job, Fail> {
    let mut scheduler = scheduler(alloc, &[("peek", &[1])], number, 64)?;
    lent(&mut scheduler)
}

/// A job of this number is put into this lane.
fn put(
    rt: &impl Abort,
    alloc: Global,
    lanes: &Lanes,
    seat: &mut SchedulerSeat,
    number: u64,
    want: LaneNo,
) -> Result<(), Fail>
    requires { seat.old.lanes ≡ lanes.now }
    ensures { seat.new.lanes ≡ lanes.now }
{
    let job = job(alloc, number)?;
    assert!(rt; matches!(lanes.put(seat, job), Ok(lane) if lane == want));
    Ok(())
}

/// The job of this number is claimed at this lane.
fn claimed(rt: &impl Abort, lanes: &Lanes, seat: &mut WorkerSeat, want: LaneNo, number: u64) -> Job
    requires { seat.old.lanes ≡ lanes.now }
    ensures { Claims seat.old want result seat.new }
{
    let Some((lane, job)) = lanes.claim(seat) else {
        panic!(rt; "a job waits")
    };
    assert!(rt; lane == want && job.no() == number);
    job
}

/// Nothing is collected, or the run of the job of this number from this lane.
fn assert_collected(
    rt: &impl Abort,
    lanes: &Lanes,
    scheduler_seat: &mut SchedulerSeat,
    want: Option<(LaneNo, u64)>,
)
    requires { scheduler_seat.old.lanes ≡ lanes.now }
    ensures { scheduler_seat.new.lanes ≡ lanes.now }
{
    match lanes.collect(scheduler_seat) {
        Some((lane, done)) => assert!(rt; want == Some((lane, done.no())) && done.is_run()),
        None => assert!(rt; want.is_none()),
    }
}

/// Two jobs are claimed, and the one that was claimed first is delivered first.
fn deliver_in_order(
    rt: &impl Abort,
    lanes: &Lanes,
    scheduler_seat: &mut SchedulerSeat,
    seat: &mut WorkerSeat,
)
    requires scheduler_seat { scheduler_seat.old.lanes ≡ lanes.now }
    requires seat { seat.old.lanes ≡ lanes.now }
{
    let first = claimed(rt, lanes, seat, 0, 0);
    let second = claimed(rt, lanes, seat, 1, 1);
    lanes.deliver(seat, 0, run_job(first));
    assert_collected(rt, lanes, scheduler_seat, Some((0, 0)));
    lanes.deliver(seat, 1, run_job(second));
    assert_collected(rt, lanes, scheduler_seat, Some((1, 1)));
    assert_collected(rt, lanes, scheduler_seat, None);
}

#[test]
fn a_worker_delivers_in_any_order(rt: HostRuntime) -> Result<(), Fail> {
    let (lanes, mut scheduler_seat) = Lanes::new(rt.alloc(), 3)?;
    let mut seat = lanes.worker_seat(&mut scheduler_seat)?;
    put(&rt, rt.alloc(), &lanes, &mut scheduler_seat, 0, 0)?;
    put(&rt, rt.alloc(), &lanes, &mut scheduler_seat, 1, 1)?;
    deliver_in_order(&rt, &lanes, &mut scheduler_seat, &mut seat);
    Ok(())
}
