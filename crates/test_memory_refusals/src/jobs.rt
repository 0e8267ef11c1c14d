//! How many calls are jobs.

use calvin::Gate;
use test_bank::CountingGate;
use test_refusal_steps::Answer;

/// An answer, which is right only if each of `calls` calls has passed the gate once as a job; or none has, where the
/// gate is open, since all are brief. Where something was refused, a job may pass it again, and calls may be run
/// without it.
pub(crate) fn if_jobs(answer: Answer, gate: &CountingGate, calls: u64) -> Answer {
    let jobs = if gate.is_open() { 0 } else { calls };
    match answer {
        Answer::Right => answer.if_right(gate.jobs() == jobs),
        Answer::Refused | Answer::Wrong => answer,
    }
}
