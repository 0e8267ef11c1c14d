//! The core of a scheduler: which events are enabled in it, what each does, and that every order of them gives the
//! serial run. The definitions are in `specs/`; here are the types that they speak of, and the laws that follow from
//! them, each as the contract of a function.
//!
//! Proved, by `every_run_is_serial`: whatever the order of admitting, lending, running, giving back and settling, each
//! reply is the serial run's, each job shows as it is lent the rows of the serial run on what its plan locks, no two
//! plans that are out are in conflict, and once all are settled rows and replies are the serial run's.
//!
//! `enabled_events_can_be_made`, `machine_follows_steps`: in each state that is reached so, each enabled event can be
//! made and does what its step says. `given_back_can_be_lent`: a job that is out and not run can be given back, and its
//! transaction is then ready and not out. `no_stuck_state`, `next_event_is_enabled`: in every state that isn't done
//! some event is enabled, and which one. Also `enabled_events_are_listed`, `first_choice`, `each_step_goes_on`,
//! `four_steps_each`, `answers_are_determined` and `room_is_kept`.
#![tactic(auto)]

mod event;
mod laws;
mod phase;

pub use event::{Event, StepAnswer};
pub use laws::{
    admitted_and_unsettled_wait, answers_are_determined, each_step_goes_on,
    enabled_events_are_listed, enabled_events_can_be_made, events_by_places, every_run_is_serial,
    first_choice, four_steps_each, given_back_can_be_lent, machine_follows_steps,
    next_event_is_enabled, no_stuck_state, room_is_kept, rows_are_serial, run_on_shown_rows_is_run,
    serial_run_by_places,
};
pub use phase::Phase;
