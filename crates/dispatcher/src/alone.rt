//! Running the transactions of a batch on one thread, event by event.

ghost use Rattle.std.specs.Prelude.{◌≡◌, ◌+◌, ◌*◌, ◌-◌, ◌≤◌, ℕ, true, false, length, slice_get, IfOk, OnOk, OnErr};
ghost use Rattle.scheduler_core.specs.Events.{step};
ghost use Rattle.scheduler_core.specs.Phases.{is_done, progress, was_run};
ghost use Rattle.scheduler.specs.Schedules.{log_of, phases_of, KeepsItsJobs};
ghost use Rattle.scheduler.specs.Moments.{can_make};
ghost use Rattle.lanes.specs.Seats.{SchedulerSeatOf};
ghost use Rattle.dispatcher.specs.Runs.{AreNumberedFrom, NoneIsOut, StaysSettled};
ghost use Rattle.dispatcher.specs.Dispatched.{AreInLanes, RunsOn, GetsFurther};
ghost use Rattle.dispatcher.specs.Listeners.{AreCounted, IsToldOf};

use crate::listener::{Listener, tell};
use scheduler::{Event, Scheduler, StepAnswer};
use scheduler_core::each_step_goes_on;
use values::NoMemory;

/// Makes an enabled event, and tells the listener of what it settles. If allocation fails nothing has changed.
fn make<L: Listener>(
    scheduler: &mut Scheduler,
    listener: &mut L,
    event: Event,
) -> Result<(), NoMemory>
    requires keeps { KeepsItsJobs scheduler.old }
    requires enabled { can_make scheduler.old event ≡ true }
    requires told { AreCounted scheduler.old (L.account listener.old) }
    ensures work { scheduler.new.work ≡ scheduler.old.work }
    ensures keeps { KeepsItsJobs scheduler.new }
    ensures made { OnOk result (phases_of scheduler.new
        ≡ step scheduler.old.work.first (phases_of scheduler.old) event) }
    ensures err { OnErr result (phases_of scheduler.new ≡ phases_of scheduler.old) }
    ensures told { IsToldOf scheduler.new (L.account listener.old) (L.account listener.new) }
{
    match scheduler.step(event) {
        StepAnswer::Made => {}
        StepAnswer::NoMemory => return Err(NoMemory),
        StepAnswer::Refused => unreachable!(),
    }
    match event {
        Event::Settle(no) => tell(scheduler, no, listener),
        Event::Admit | Event::Lend(_) | Event::Run(_) => {}
    }
    Ok(())
}

/// Makes an enabled event as `make` does, one of at most four steps a transaction; what is settled stays settled.
fn go_on<L: Listener>(
    scheduler: &mut Scheduler,
    listener: &mut L,
    event: Event,
) -> Result<(), NoMemory>
    requires keeps { KeepsItsJobs scheduler.old }
    requires enabled { can_make scheduler.old event ≡ true }
    requires told { AreCounted scheduler.old (L.account listener.old) }
    ensures runs { RunsOn scheduler.old (L.account listener.old) scheduler.new (L.account listener.new) }
    ensures keeps { KeepsItsJobs scheduler.new }
    ensures further { OnOk result (progress (phases_of scheduler.new) ≡ progress (phases_of scheduler.old) + 1) }
    ensures most { progress (phases_of scheduler.new) ≤ 4 * length scheduler.new.work.entries }
{
    // proof: an enabled event brings the state one step on.
    each_step_goes_on();
    let made = make(scheduler, listener, event);
    // proof: what an observer of the scheduler sees.
    scheduler.observe();
    made
}

/// Runs the next transaction on the rows themselves and tells the listener, where it is ready as soon as it is
/// admitted. Whether it did so; where it did not, or allocation fails, nothing has changed.
pub(crate) fn run_next<L: Listener>(
    scheduler: &mut Scheduler,
    listener: &mut L,
) -> Result<bool, NoMemory>
    requires told { AreCounted scheduler.old (L.account listener.old) }
    ensures runs { RunsOn scheduler.old (L.account listener.old) scheduler.new (L.account listener.new) }
    ensures keeps { KeepsItsJobs scheduler.old → KeepsItsJobs scheduler.new }
    ensures lanes { (seat : SchedulerSeatOf) → AreInLanes scheduler.old seat → AreInLanes scheduler.new seat }
    ensures further { IfOk result (λ ran. ran ≡ true → GetsFurther scheduler.old scheduler.new) }
    ensures same { IfOk result (λ ran. ran ≡ false → scheduler.new ≡ scheduler.old) }
{
    let Some(no) = scheduler.run_next()? else {
        return Ok(false);
    };
    tell(scheduler, no, listener);
    Ok(true)
}

/// Runs the next transaction as `run_next` does, where all that are admitted are settled.
fn run_between<L: Listener>(scheduler: &mut Scheduler, listener: &mut L) -> Result<bool, NoMemory>
    requires keeps { KeepsItsJobs scheduler.old }
    requires told { AreCounted scheduler.old (L.account listener.old) }
    ensures runs { RunsOn scheduler.old (L.account listener.old) scheduler.new (L.account listener.new) }
    ensures keeps { KeepsItsJobs scheduler.new }
    ensures further { IfOk result (λ ran. ran ≡ true → GetsFurther scheduler.old scheduler.new) }
    ensures same { IfOk result (λ ran. ran ≡ false → scheduler.new ≡ scheduler.old) }
{
    match scheduler.next_event() {
        Some(Event::Admit) => run_next(scheduler, listener),
        _ => Ok(false),
    }
}

/// Goes on where no choice says how: the next transaction is run on the rows themselves where all that are admitted are
/// settled, and else the least of those that aren't makes its next step. `false` exactly where all is done.
fn step_on<L: Listener>(scheduler: &mut Scheduler, listener: &mut L) -> Result<bool, NoMemory>
    requires keeps { KeepsItsJobs scheduler.old }
    requires told { AreCounted scheduler.old (L.account listener.old) }
    ensures runs { RunsOn scheduler.old (L.account listener.old) scheduler.new (L.account listener.new) }
    ensures keeps { KeepsItsJobs scheduler.new }
    ensures further { IfOk result (λ more. more ≡ true → GetsFurther scheduler.old scheduler.new) }
    ensures most { IfOk result (λ more. more ≡ true →
        progress (phases_of scheduler.new) ≤ 4 * length scheduler.new.work.entries) }
    ensures done { IfOk result (λ more. more ≡ false →
        is_done (log_of scheduler.new.work) (phases_of scheduler.new) ≡ true) }
{
    // proof: an enabled event brings the state one step on.
    each_step_goes_on();
    if run_between(scheduler, listener)? {
        scheduler.observe();
        return Ok(true);
    }
    let Some(event) = scheduler.next_event() else {
        return Ok(false);
    };
    go_on(scheduler, listener, event)?;
    Ok(true)
}

/// Makes the events that choices pick, until all is done or allocation fails.
fn make_chosen<L: Listener>(
    scheduler: &mut Scheduler,
    listener: &mut L,
    choices: &[u64],
) -> Result<(), NoMemory>
    requires keeps { KeepsItsJobs scheduler.old }
    requires told { AreCounted scheduler.old (L.account listener.old) }
    ensures runs { RunsOn scheduler.old (L.account listener.old) scheduler.new (L.account listener.new) }
    ensures keeps { KeepsItsJobs scheduler.new }
{
    for choice in choices {
        let Some(event) = scheduler.choose(*choice)? else {
            return Ok(());
        };
        go_on(scheduler, listener, event)?;
    }
    Ok(())
}

/// Makes the events of the choices, and goes on after the last, until all is done or allocation fails.
fn make_all<L: Listener>(
    scheduler: &mut Scheduler,
    listener: &mut L,
    choices: &[u64],
) -> Result<(), NoMemory>
    requires keeps { KeepsItsJobs scheduler.old }
    requires told { AreCounted scheduler.old (L.account listener.old) }
    ensures runs { RunsOn scheduler.old (L.account listener.old) scheduler.new (L.account listener.new) }
    ensures keeps { KeepsItsJobs scheduler.new }
    ensures done { OnOk result (is_done (log_of scheduler.new.work) (phases_of scheduler.new) ≡ true) }
{
    make_chosen(scheduler, listener, choices)?;
    'steps: loop {
        if !step_on(scheduler, listener)? {
            return Ok(());
        }
    }
}

/// Settles the transaction of a number, if it was run, and tells the listener.
fn settle_run<L: Listener>(scheduler: &mut Scheduler, listener: &mut L, no: u64)
    requires keeps { KeepsItsJobs scheduler.old }
    requires told { AreCounted scheduler.old (L.account listener.old) }
    requires number { scheduler.old.work.first ≤ no }
    ensures runs { RunsOn scheduler.old (L.account listener.old) scheduler.new (L.account listener.new) }
    ensures keeps { KeepsItsJobs scheduler.new }
    ensures this { was_run (slice_get (phases_of scheduler.new) (no - scheduler.new.work.first)) ≡ false }
    ensures others { (place : ℕ) → was_run (slice_get (phases_of scheduler.old) place) ≡ false →
        was_run (slice_get (phases_of scheduler.new) place) ≡ false }
{
    match scheduler.step(Event::Settle(no)) {
        StepAnswer::Made => tell(scheduler, no, listener),
        StepAnswer::Refused => {}
        StepAnswer::NoMemory => unreachable!(),
    }
}

/// Settles what was run, and takes back the rows of what was only lent, of the transactions from a first one on.
fn settle_runs<L: Listener>(scheduler: &mut Scheduler, listener: &mut L, first: u64, count: usize)
    requires keeps { KeepsItsJobs scheduler.old }
    requires numbered { AreNumberedFrom first count scheduler.old }
    requires told { AreCounted scheduler.old (L.account listener.old) }
    ensures runs { RunsOn scheduler.old (L.account listener.old) scheduler.new (L.account listener.new) }
    ensures keeps { KeepsItsJobs scheduler.new }
    ensures none_out { NoneIsOut (phases_of scheduler.new) }
{
    for place in 0..count {
        settle_run(scheduler, listener, first + place as u64);
    }
    scheduler.observe();
    scheduler.settle_held();
}

/// Runs the transactions that are left: each step makes the event that the next choice gives. After the last choice
/// what is admitted goes on to its end, and each later transaction is run on the rows themselves. If allocation fails,
/// what was run is settled, and the rows of what was only lent are taken back. The listener hears of each transaction
/// as it is settled. `first` is the number of the first transaction, and `count` says how many there are.
pub fn run_left<L: Listener>(
    scheduler: &mut Scheduler,
    listener: &mut L,
    choices: &[u64],
    first: u64,
    count: usize,
) -> Result<(), NoMemory>
    requires keeps { KeepsItsJobs scheduler.old }
    requires numbered { AreNumberedFrom first count scheduler.old }
    requires told { AreCounted scheduler.old (L.account listener.old) }
    ensures work { scheduler.new.work ≡ scheduler.old.work }
    ensures settled { StaysSettled (phases_of scheduler.old) (phases_of scheduler.new) }
    ensures none_out { NoneIsOut (phases_of scheduler.new) }
    ensures done { OnOk result (is_done (log_of scheduler.new.work) (phases_of scheduler.new) ≡ true) }
    ensures told { IsToldOf scheduler.new (L.account listener.old) (L.account listener.new) }
{
    let ended = make_all(scheduler, listener, choices);
    if ended.is_err() {
        settle_runs(scheduler, listener, first, count);
    }
    ended
}
