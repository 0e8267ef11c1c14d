//! Reading: setups and logs.

use crate::executing::runs_on;
use calvin::{LogFaultKind, LogReader, ReadSource, SetupFault, read_setup};
use proclang::Request;
use setup::read_setup_with_rows;
use std::alloc::{AllocError, Global};
use std::sync::Wait;
use test_refusal_steps::{Answer, BANK, Refusal, bank, log_text};
use values::Value;

/// The rows of the bank's setup.
pub(crate) const ROWS: &str =
    r#"["rows",1,[["acct",1,[100]],["acct",2,[100]],["acct",3,[100]],["acct",4,[100]],
["acct",5,[100]],["acct",6,[100]],["note",7,[1,"paid"]],["note",8,[2,""]]]]"#;

/// The setup is read, with its own rows or with those of another text; the log is run on it as it was reckoned.
pub(crate) fn try_setup<R: Wait + AllocGlobal>(
    rt: &R,
    refusal: &mut Refusal,
    rows: Option<&str>,
) -> Option<Answer> {
    let alloc = rt.alloc();
    refusal.approach();
    let read = match rows {
        Some(rows) => read_setup_with_rows(alloc, BANK.as_bytes(), rows.as_bytes()),
        None => read_setup(alloc, BANK.as_bytes()),
    };
    refusal.pass();
    match read {
        Ok(document) => Some(Answer::Right.if_right(runs_on(rt, document.setup)?)),
        Err(fault) => Some(unread(&fault)),
    }
}

/// What the fault of a setup says that has none.
pub(crate) fn unread(fault: &SetupFault) -> Answer {
    Answer::Refused.if_right(fault.is_memory())
}

/// Appends the line of a request.
fn push_request(log: &mut String, request: &Request) -> Result<(), AllocError> {
    let name = request.proc().name();
    write!(log, "[\"call\",\"{name}\",[")?;
    let mut comma = "";
    for value in request.args() {
        log.push_str(comma)?;
        match value {
            Value::Int(number) => write!(log, "{number}")?,
            Value::Text(text) => {
                let text = text.as_str();
                write!(log, "\"{text}\"")?
            }
        }
        comma = ",";
    }
    log.push_str("]]\n")
}

/// Whether these are the requests of the log.
fn are_requests(alloc: Global, requests: &[Request]) -> Option<bool> {
    let mut log = String::new(alloc);
    for request in requests {
        push_request(&mut log, request).ok()?;
    }
    let text = log_text(alloc, "").ok()?;
    Some(log.as_str() == text.as_str())
}

/// The log is read, and its end.
pub(crate) fn try_log(alloc: Global, refusal: &mut Refusal) -> Option<Answer> {
    let setup = bank(alloc)?;
    let log = log_text(alloc, "").ok()?;
    let mut source = ReadSource::new(log.as_bytes());
    let mut reader = LogReader::new(&mut source, 0);
    refusal.approach();
    let read = reader.next_batch(alloc, &setup.procs);
    let further = reader.next_batch(alloc, &setup.procs);
    refusal.pass();
    match (read, further) {
        (Ok(Some(requests)), Ok(None)) => {
            Some(Answer::Right.if_right(are_requests(alloc, &requests)?))
        }
        (Ok(Some(requests)), Err(fault)) => {
            let refused = fault.kind == LogFaultKind::Memory && fault.line == 100;
            Some(Answer::Refused.if_right(refused && are_requests(alloc, &requests)?))
        }
        (Err(fault), Err(again)) => {
            Some(Answer::Refused.if_right(fault.kind == LogFaultKind::Memory && again == fault))
        }
        _ => Some(Answer::Wrong),
    }
}
