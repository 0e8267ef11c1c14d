//! Tries the calls that may want memory, on a setup with every kind of statement and on a log of 100 calls, on one of
//! 200 in five batches, and on one whose stale calls are tried again, where the system refuses one allocation.
//!
//! Each argument is the name of a step, and may have, after a colon, how many allocations are made and let go before
//! it: the more they are, the earlier in the step is the one that is refused. For each it prints what came of the step,
//! how many allocations were made before it, and how many could be made after it until one was refused, or `none` where
//! none was.
#![tactic(auto)]

mod at_the_gate;
mod batches;
mod executing;
mod jobs;
mod reading;
mod reporting;

use batches::OnBatches;
use batches::StoredLog::{self, FiveBatches, TriedAgain};
use executing::Then::{self, Resume, ResumeAlone};
use std::sync::Wait;
use std::thread::Threads;
use std::{env, io, rt};
use test_refusal_steps::{
    Answer, Refusal, try_admit, try_lend, try_lend_and_run, try_plan, try_prepare, try_recon,
};

/// What is done in a step on several batches: they are executed, and gone on with so, or the report is written.
type Task = Option<Then>;

/// The steps on several batches by their names, of which each has the number of workers and the threshold after its
/// first word: what it begins and ends with, its log, whether the gate is open, and what is done.
const BATCHES: [(&str, &str, StoredLog, bool, Task); 9] = [
    ("batches", "", FiveBatches, false, Some(Resume)),
    (
        "batches",
        "then_alone",
        FiveBatches,
        false,
        Some(ResumeAlone),
    ),
    ("batches", "in_place", FiveBatches, true, Some(Resume)),
    (
        "batches",
        "in_place_then_alone",
        FiveBatches,
        true,
        Some(ResumeAlone),
    ),
    ("report", "", FiveBatches, false, None),
    ("report", "in_place", FiveBatches, true, None),
    ("retries", "", TriedAgain, false, Some(Resume)),
    (
        "retries",
        "then_alone",
        TriedAgain,
        false,
        Some(ResumeAlone),
    ),
    ("report", "of_retries", TriedAgain, false, None),
];

/// What comes of the step on several batches with a name; `None` if there is no such step, or if what it is tried on
/// could not be made.
fn tried_on_batches<R: Threads + Wait + Sync + rt::Files + AllocGlobal>(
    rt: &R,
    refusal: &mut Refusal,
    step: &str,
) -> Option<Answer> {
    let (first, rest) = step.split_once('_')?;
    let (workers, rest) = rest.split_once('_')?;
    let (threshold, last) = rest.split_once('_').unwrap_or((rest, ""));
    let (_, _, stored, is_open, task) = *BATCHES.iter().find(|(begins, ends, _, _, _)| *begins
        == first
        && *ends == last)?;
    let on = OnBatches {
        stored,
        workers: workers.parse::<usize>().ok()?,
        threshold: threshold.parse::<usize>().ok()?,
        is_open,
    };
    match task {
        Some(then) => batches::try_batches(rt, refusal, on, then),
        None => batches::try_report_of_batches(rt, refusal, on),
    }
}

/// The batches whose stale calls are tried again, on one thread.
const RETRIES_ALONE: OnBatches = OnBatches {
    stored: TriedAgain,
    workers: 1,
    threshold: 0,
    is_open: false,
};

/// What comes of the step with a name; `None` where there is no such step, or what it needs could not be made.
fn tried<R: Threads + Wait + Sync + rt::Files + AllocGlobal>(
    rt: &R,
    refusal: &mut Refusal,
    step: &str,
) -> Option<Answer> {
    let alloc = rt.alloc();
    match step {
        "read_setup" => reading::try_setup(rt, refusal, None),
        "read_setup_with_rows" => reading::try_setup(rt, refusal, Some(reading::ROWS)),
        "read_setup_of_retries" => batches::try_setup(rt, refusal, StoredLog::TriedAgain),
        "recon" => try_recon(alloc, refusal),
        "next_batch" => reading::try_log(alloc, refusal),
        "prepare" => try_prepare(alloc, refusal),
        "plan" => try_plan(alloc, refusal),
        "admit" => try_admit(alloc, refusal),
        "lend_and_run" => try_lend_and_run(alloc, refusal),
        "lend_table" => try_lend(alloc, refusal),
        "run_alone" => executing::try_alone(rt, refusal, 0, Resume),
        "run_alone_by_choices" => executing::try_alone(rt, refusal, 1_000, ResumeAlone),
        "execute_1" => executing::try_workers(rt, refusal, 1, Resume),
        "execute_2" => executing::try_workers(rt, refusal, 2, Resume),
        "execute_2_then_alone" => executing::try_workers(rt, refusal, 2, ResumeAlone),
        "gate_before_run" => at_the_gate::try_gate(rt, refusal),
        "resume" => executing::try_resume(rt, refusal, Resume),
        "resume_alone" => executing::try_resume(rt, refusal, ResumeAlone),
        "run_text" => reporting::try_text(rt, refusal),
        "run_alone_of_retries" => batches::try_batches_alone(rt, refusal, RETRIES_ALONE),
        _ => tried_on_batches(rt, refusal, step),
    }
}

fn main(rt: HostRuntime) -> io::Result<()> {
    let alloc = rt.alloc();
    let words: Vec<String> = env::args(&rt)?.collect(alloc)?;
    for word in words.get(1..).unwrap_or(&[]) {
        let text = word.as_str();
        let (step, before) = text.split_once(':').unwrap_or((text, "0"));
        let mut refusal = Refusal::new(alloc, before.parse::<u64>().unwrap_or(0));
        match tried(&rt, &mut refusal, step) {
            Some(answer) => println!(rt; "{step} {answer} {refusal}")?,
            None => println!(rt; "{step} untried {refusal}")?,
        }
    }
    Ok(())
}
