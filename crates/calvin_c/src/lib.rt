//! The executor as a static library, for C and for what calls C. `include/calvin.h` declares it.
//!
//! Proved: each call returns, with no panic, and writes nothing but what C passes for it. Each call on a session does
//! to the session that the handle owns what the same call of `session::Session` does, its status is that call's
//! answer, and the session lies where it lay. What is written for C are that call's values, as far as they fit.
//!
//! Tested only, by `scripts/static_library.sh`: examples in C and Rust print and end as the program does, also by
//! single calls and in the tests of the bindings; if every allocation fails from any one on, a run ends with status 3,
//! and with fault 37 where its session is open, has given a beginning of the report, and frees all that it took.
//!
//! Not proved: that a session that is opened is that of its setup, since no clause of a call speaks of what a pointer
//! that it gives leads to; what the line of a fault says; that a session's memory is freed at its end.
//! `include/calvin.h` says what C owes.
#![tactic(auto)]

mod cells;
mod handle;
mod lines;
mod loose;
mod opened;
mod opening;
mod replies;
mod rows;
mod status;
