//! The texts of a report: reply lines, batch and end lines; and the lines of a plan.
//!
//! Proved: reply, batch and end lines are exact; `push_plan`: the lines of a plan are exact.
#![tactic(auto)]

mod lines;
mod plan_lines;

pub use lines::{push_batch_line, push_end_line, push_reply_line};
pub use plan_lines::push_plan;
