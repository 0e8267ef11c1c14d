//! Laws of the core, as contracts of functions that do nothing.

ghost use Rattle.scheduler_core.specs.Laws.{SerialRunByPlaces, EveryRunIsSerial, EnabledCanBeMade, MachineFollowsSteps, RunOnShownRows, RowsAreSerial, AdmittedAndUnsettledWait, GivenBackCanBeLent, EventsByPlaces, OnePlay, RoomIsKept, NoStuckState, NextEventIsEnabled, EnabledEventsAreListed, FirstChoice, EachStepGoesOn, FourStepsEach};

use coarsen::{clashes_are_either_way, locked_rows_conflict};
use lock_tree::{first_ready, ready_apart, ready_stays};
use meaning::stays_in_footprint;

/// The serial run by places is the serial run: each transaction is run on the rows that the one before it left.
pub fn serial_run_by_places()
    ensures { SerialRunByPlaces }
{}

/// Whatever the order of admitting, lending, running, giving back and settling: each reply that is kept is the serial
/// run's, each job shows as it is lent the rows of the serial run on the row names that its plan locks, no two plans
/// that are out are in conflict, and once all are settled the rows are the serial run's.
pub fn every_run_is_serial()
    ensures { EveryRunIsSerial }
{
    stays_in_footprint();
    locked_rows_conflict();
    clashes_are_either_way();
    ready_apart();
}

/// In every state that such an order reaches, each enabled event can be made.
pub fn enabled_events_can_be_made()
    ensures { EnabledCanBeMade }
{
    stays_in_footprint();
    locked_rows_conflict();
    clashes_are_either_way();
    ready_apart();
}

/// What an event does to rows and jobs, it does to phases as its step says.
pub fn machine_follows_steps()
    ensures { MachineFollowsSteps }
{}

/// A job is run by running its entry on the rows that it shows, as if there were no others.
pub fn run_on_shown_rows_is_run()
    ensures { RunOnShownRows }
{
    stays_in_footprint();
}

/// What holds of the rows at every moment, event by event.
pub fn rows_are_serial()
    ensures { RowsAreSerial }
{
    stays_in_footprint();
    locked_rows_conflict();
    clashes_are_either_way();
    ready_apart();
}

/// How the transactions that wait follow from the phases, event by event, and that each that is out stays ready.
pub fn admitted_and_unsettled_wait()
    ensures { AdmittedAndUnsettledWait }
{
    ready_stays();
}

/// Whatever the order of events, a transaction whose job is given back is ready and not
/// out: its rows can be lent again.
pub fn given_back_can_be_lent()
    ensures { GivenBackCanBeLent }
{
    admitted_and_unsettled_wait();
}

/// The events of a transaction by its place in the log, which its number is counted from the first.
pub fn events_by_places()
    ensures { EventsByPlaces }
{}

/// But for want of memory, a list of events has one list of answers.
pub fn answers_are_determined()
    ensures { OnePlay }
{}

/// The plans of those that are admitted and unsettled never take more room than there is.
pub fn room_is_kept()
    ensures { RoomIsKept }
{}

/// In every state that isn't done some event is enabled, if no plan is larger than the room.
pub fn no_stuck_state()
    ensures { NoStuckState }
{
    first_ready();
}

/// The next step of the transaction with the least number that is admitted and unsettled is enabled, and if there is no
/// such transaction the next one of the log can be admitted, or all is done.
pub fn next_event_is_enabled()
    ensures { NextEventIsEnabled }
{
    first_ready();
}

/// The list of the enabled events has each of them, and no other.
pub fn enabled_events_are_listed()
    ensures { EnabledEventsAreListed }
{
    first_ready();
}

/// Choice 0 is to admit where that is enabled, and else the next event.
pub fn first_choice()
    ensures { FirstChoice }
{
    first_ready();
}

/// Each enabled event brings the state one step further, and what is settled stays settled.
/// Four steps a transaction are the most.
pub fn each_step_goes_on()
    ensures { EachStepGoesOn }
{}

/// From the start to the end there are four steps a transaction, if none is taken back.
pub fn four_steps_each()
    ensures { FourStepsEach }
{}
