//! A call that locks a table of many rows to be written.

use crate::answer::Answer;
use crate::refusal::Refusal;
use crate::scheduling::{scheduler_of, settle_next};
use report_text::push_reply_line;
use row_store::all_is_free_with_nothing_lent;
use row_text::{DigestForm, rows_digest};
use scheduler::Scheduler;
use setup::{Setup, read_setup};
use std::alloc::Global;
use values::{Key, Row, TableNo, Value};

/// The key after the greatest of the table.
const END: i64 = 4_001;

/// A setup without rows: `sweep` changes each row of the table, and then inserts one that is there.
const SETUP: &str = r#"["setup",1,
["catalogue",1,[["acct",2,[["bal","int"]]]]],
["procs",1,[
["sweep",[],["declared",["table","w","acct"]],
 [["for","i",0,1,[["each","x","acct","i",[["put","acct","x","bal",0]]]]],
  ["insert","acct",1,[0]]]]]],
["rows",1,[]]]"#;

/// The log.
const LOG: &str = r#"["call","sweep",[]]"#;

/// The call's reply line.
const REPLY: &str = "0 abort 2\n";

/// The digest of the rows, each of which holds 100, before the call and after it.
const ROWS: &str = "d086a1383e3bee80f2bbd003dac2257cd41337204658e141d3891536f676b99f";

/// The rows of a table, one for each key. They are not read from a text, which takes more allocations than the step has
/// ahead of it.
fn rows_of(alloc: Global, table: TableNo) -> Option<Vec<(TableNo, Key, Row)>> {
    let mut rows = Vec::new(alloc);
    for number in 1..END {
        let mut values = Vec::new(alloc);
        values.push(Value::Int(100)).ok()?;
        rows.push((table, Key::new(number)?, Row::new(values)))
            .ok()?;
    }
    Some(rows)
}

/// The setup, with its rows.
fn setup(alloc: Global) -> Option<Setup> {
    let Setup {
        catalogue,
        procs,
        rows: _,
        retries: _,
    } = read_setup(alloc, SETUP.as_bytes()).ok()?.setup;
    let rows = rows_of(alloc, catalogue.table("acct")?)?;
    Some(Setup {
        catalogue,
        procs,
        rows,
        retries: 0,
    })
}

/// The call's reply line.
fn reply_line(alloc: Global, scheduler: &Scheduler) -> Option<String> {
    let mut line = String::new(alloc);
    push_reply_line(alloc, &mut line, 0, None, scheduler.reply(0)?).ok()?;
    Some(line)
}

/// Whether the call is settled as it should be.
fn is_settled(alloc: Global, scheduler: Scheduler) -> Option<bool> {
    if !scheduler.is_done() {
        return Some(false);
    }
    let line = reply_line(alloc, &scheduler)?;
    all_is_free_with_nothing_lent();
    let rows = scheduler.into_finished().rows;
    let digest = rows_digest(alloc, rows.catalogue(), &rows, DigestForm::Rows).ok()?;
    Some(line.as_str() == REPLY && digest.as_str() == ROWS)
}

/// The call is admitted and lent its table. If allocation fails, it is lent once more.
fn lend(alloc: Global, scheduler: &mut Scheduler, refusal: &mut Refusal) -> Option<Answer> {
    scheduler.admit().ok()?;
    let mut answer = Answer::Right;
    let mut settled = settle_next(scheduler, refusal);
    if settled.is_err() {
        answer = Answer::Refused;
        settled = settle_next(scheduler, &mut Refusal::elsewhere(alloc));
    }
    Some(answer.if_right(settled == Ok(Some(Answer::Right))))
}

/// The call is lent its table, run and settled.
pub fn try_lend(alloc: Global, refusal: &mut Refusal) -> Option<Answer> {
    let mut scheduler = scheduler_of(alloc, setup(alloc)?, LOG)?;
    match lend(alloc, &mut scheduler, refusal)? {
        Answer::Wrong => Some(Answer::Wrong),
        answer => Some(answer.if_right(is_settled(alloc, scheduler)?)),
    }
}
