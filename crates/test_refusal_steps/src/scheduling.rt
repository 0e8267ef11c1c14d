//! The scheduler's calls, one by one.

ghost use Rattle.std.specs.Prelude.{◌≡◌, ◌≤◌, IfSome, length};
ghost use Rattle.std.specs.FinMap as map_of;
ghost use Rattle.interp.specs.Over.{AreEntriesOver};

use crate::answer::Answer;
use crate::refusal::Refusal;
use crate::right::is_of_log;
use crate::stored_bank::{bank, batch_in, log_text};
use crate::texts::CALLS;
use catalogue::Catalogue;
use report_text::push_reply_line;
use requests::Procs;
use row_store::{RowStore, all_is_free_with_nothing_lent};
use scheduler::{AdmitFault, Scheduler, lent_jobs_come_back, run_job};
use sequencer::{Entry, prepare};
use setup::Setup;
use std::alloc::Global;
use values::{Key, NoMemory, Row, TableNo};

/// A store of rows, and the entries of the first batch of a log on it.
fn prepared(
    alloc: Global,
    catalogue: &Catalogue,
    procs: &Procs,
    rows: Vec<(TableNo, Key, Row)>,
    log: &str,
) -> Option<(RowStore, Vec<Entry>)>
    requires { procs.now.tables ≡ catalogue.now }
    ensures tables { IfSome result (λ made. made.0.tables ≡ catalogue.now) }
    ensures unlent { IfSome result (λ made. made.0.lent ≡ map_of.empty) }
    ensures over { IfSome result (λ made. AreEntriesOver catalogue.now made.1.items) }
    ensures few { IfSome result (λ made. length made.1.items ≤ 4096) }
{
    let batch = batch_in(alloc, procs, log)?;
    let store = RowStore::new(alloc, catalogue, rows).ok()?;
    all_is_free_with_nothing_lent();
    let entries = prepare(alloc, &batch, catalogue, procs, &store).ok()?;
    if entries.len() > 4096 {
        return None;
    }
    Some((store, entries))
}

/// A scheduler of the first batch of a log, with nothing admitted.
pub fn scheduler_of(alloc: Global, setup: Setup, log: &str) -> Option<Scheduler> {
    let Setup {
        catalogue,
        procs,
        rows,
        retries: _,
    } = setup;
    let (store, entries) = prepared(alloc, &catalogue, &procs, rows, log)?;
    Scheduler::new(alloc, catalogue, store, entries, 0, 64, 65_536).ok()
}

/// A scheduler of the log, with nothing admitted.
fn scheduler(alloc: Global) -> Option<Scheduler> {
    let log = log_text(alloc, "").ok()?;
    scheduler_of(alloc, bank(alloc)?, log.as_str())
}

/// Admits each call of the log. If allocation fails, it is admitted once more.
fn admit_all(scheduler: &mut Scheduler) -> Answer {
    let mut answer = Answer::Right;
    for number in 0..CALLS {
        let mut admitted = scheduler.admit();
        if admitted == Err(AdmitFault::NoMemory) {
            answer = Answer::Refused;
            admitted = scheduler.admit();
        }
        if admitted != Ok(number) {
            return Answer::Wrong;
        }
    }
    answer
}

/// Lends its rows to the next call, runs it and settles it; `None` where no call is ready. If allocation fails, the
/// call comes next again. The allocation that is refused, if it is looked for, is one that is made where rows are lent.
pub fn settle_next(
    scheduler: &mut Scheduler,
    refusal: &mut Refusal,
) -> Result<Option<Answer>, NoMemory> {
    lent_jobs_come_back();
    refusal.approach();
    let lent = scheduler.lend();
    refusal.pass();
    let Some(job) = lent? else {
        return Ok(None);
    };
    let done = run_job(job);
    let answer = if done.is_run() {
        Answer::Right
    } else {
        Answer::Refused
    };
    scheduler.settle(done);
    Ok(Some(answer))
}

/// Settles what is admitted, call by call.
fn settle_all(alloc: Global, scheduler: &mut Scheduler) -> Answer {
    let mut elsewhere = Refusal::elsewhere(alloc);
    let mut answer = Answer::Right;
    for _ in 0..2 * CALLS {
        match settle_next(scheduler, &mut elsewhere) {
            Ok(Some(Answer::Right)) => {}
            Ok(Some(other)) => answer = other,
            Ok(None) => return answer,
            Err(NoMemory) => answer = Answer::Refused,
        }
    }
    Answer::Wrong
}

/// The reply lines that are kept; `None` where one is missing.
fn reply_lines(alloc: Global, scheduler: &Scheduler) -> Option<String> {
    let mut lines = String::new(alloc);
    for number in 0..CALLS {
        let outcome = scheduler.reply(number)?;
        push_reply_line(alloc, &mut lines, number, None, outcome).ok()?;
    }
    Some(lines)
}

/// Whether all calls are settled as they were reckoned.
fn is_settled(alloc: Global, scheduler: Scheduler) -> Option<bool> {
    if !scheduler.is_done() {
        return Some(false);
    }
    let lines = reply_lines(alloc, &scheduler)?;
    let finished = scheduler.into_finished();
    is_of_log(alloc, lines.as_str(), &finished.rows)
}

/// The calls of the log are admitted.
pub fn try_admit(alloc: Global, refusal: &mut Refusal) -> Option<Answer> {
    let mut scheduler = scheduler(alloc)?;
    refusal.approach();
    let answer = admit_all(&mut scheduler);
    refusal.pass();
    if settle_all(alloc, &mut scheduler) != Answer::Right {
        return Some(Answer::Wrong);
    }
    Some(answer.if_right(is_settled(alloc, scheduler)?))
}

/// The calls of the log are lent their rows, run and settled.
pub fn try_lend_and_run(alloc: Global, refusal: &mut Refusal) -> Option<Answer> {
    let mut scheduler = scheduler(alloc)?;
    if admit_all(&mut scheduler) != Answer::Right {
        return None;
    }
    refusal.approach();
    let answer = settle_all(alloc, &mut scheduler);
    refusal.pass();
    Some(answer.if_right(is_settled(alloc, scheduler)?))
}
