//! What is tried of the crates below the engine where the system refuses one allocation: a setup with every kind of
//! statement, a log of 100 calls, and what comes of them.
//!
//! `test_memory_refusals` runs the steps; nothing here is claimed.
#![tactic(auto)]

mod answer;
mod planning;
mod refusal;
mod right;
mod scheduling;
mod stored_bank;
mod sweeping;
mod texts;

pub use answer::Answer;
pub use planning::{try_plan, try_prepare, try_recon};
pub use refusal::Refusal;
pub use right::is_of_log;
pub use scheduling::{try_admit, try_lend_and_run};
pub use stored_bank::{BANK, bank, batch, batch_in, batch_of, log_text};
pub use sweeping::try_lend;
pub use texts::{CALLS, REPORT};
