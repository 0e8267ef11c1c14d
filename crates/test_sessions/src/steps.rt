//! Steps of a session, and what they tell.

use session::{RowsFault, Session};
use std::alloc::Global;
use std::fmt::{Display, Write};
use std::process::Abort;
use std::test::Fail;
use test_bank::push_outcome;
use values::{Row, Value};

/// What is done with a session.
#[derive(Drop)]
pub(crate) enum Step {
    /// Replies wait from here on.
    Keep,
    /// Bytes of the log are handed over.
    Feed(&'static str),
    /// A line is tested.
    Test(&'static str),
    /// A line is handed over as a call.
    Call(&'static str),
    /// The batch ends.
    Cut,
    /// The log ends.
    End,
    /// Replies that wait are taken, at most that many.
    Replies(usize),
    /// At most that many bytes of the report are taken.
    Report(usize),
    /// A row is looked up.
    Row(&'static str, u64),
    /// The row after a key is looked up, or the table's first.
    Next(&'static str, Option<u64>),
    /// A cursor goes over a table.
    Table(&'static str),
    /// Requests that are carried are counted.
    Carried,
    /// The digest of the rows is taken.
    Digest,
    /// The document of the rows is taken.
    Document,
}

/// What a result tells: its value, or its fault.
fn told<T: Display + Drop, F: Display + Drop>(
    alloc: Global,
    answer: Result<T, F>,
) -> Result<String, Fail> {
    Ok(match answer {
        Ok(value) => format!(in alloc; "{value}")?,
        Err(fault) => format!(in alloc; "{fault}")?,
    })
}

/// What a row tells by its key: the key and the number in the first column.
fn row_told(
    alloc: Global,
    key: u64,
    found: Result<Option<&Row>, RowsFault>,
) -> Result<String, Fail> {
    let row = match found {
        Ok(Some(row)) => row,
        Ok(None) => return Ok(String::from_str(alloc, "none")?),
        Err(fault) => return Ok(format!(in alloc; "{fault}")?),
    };
    Ok(match row.get(0) {
        Some(Value::Int(number)) => format!(in alloc; "{key}: {number};")?,
        _ => String::from_str(alloc, "no number")?,
    })
}

/// What the row after a key tells.
fn next_told(
    alloc: Global,
    session: &Session,
    table: &str,
    after: Option<u64>,
) -> Result<(Option<u64>, String), Fail> {
    Ok(match session.next_row(table, after) {
        Ok(Some((key, row))) => (Some(key), row_told(alloc, key, Ok(Some(row)))?),
        Ok(None) => (None, String::from_str(alloc, "none")?),
        Err(fault) => (None, format!(in alloc; "{fault}")?),
    })
}

/// What the rows of a table tell, one after another.
fn table_told(alloc: Global, session: &Session, table: &str) -> Result<String, Fail> {
    let mut text = String::new(alloc);
    let mut after = None;
    for _ in 0..16 {
        let (key, row) = next_told(alloc, session, table, after)?;
        if key.is_none() {
            return Ok(text);
        }
        text.write_str(row.as_str())?;
        after = key;
    }
    Ok(text)
}

/// What the replies that wait tell, at most that many: of each the numbers of its transaction and of its first attempt,
/// and its outcome.
fn replies_told(alloc: Global, session: &mut Session, most: usize) -> Result<String, Fail> {
    let mut text = String::new(alloc);
    for _ in 0..most {
        let Some(reply) = session.next_reply() else {
            return Ok(text);
        };
        write!(&mut text, "{} of {} ", reply.transaction, reply.first)?;
        push_outcome(&mut text, &reply.outcome)?;
    }
    Ok(text)
}

/// The next bytes of the report, at most that many.
fn report_told(alloc: Global, session: &mut Session, most: usize) -> Result<String, Fail> {
    let mut bytes = vec![in alloc; 0; most]?;
    let count = session.drain(&mut bytes);
    bytes.truncate(count);
    Ok(String::from_str(alloc, str::from_utf8(&bytes)?)?)
}

/// The document of the rows.
fn document_told(alloc: Global, session: &Session) -> Result<String, Fail> {
    match session.rows_document(alloc) {
        Ok(document) => Ok(String::from_str(alloc, str::from_utf8(&document)?)?),
        Err(fault) => Ok(format!(in alloc; "{fault}")?),
    }
}

/// What a step tells.
fn taken(alloc: Global, session: &mut Session, step: &Step) -> Result<String, Fail> {
    match step {
        Step::Keep => {
            session.keep_replies(alloc);
            Ok(String::new(alloc))
        }
        Step::Feed(bytes) => told(alloc, session.feed(alloc, bytes.as_bytes()).map(|()| "ok")),
        Step::Test(line) => told(alloc, session.test(alloc, line.as_bytes()).map(|()| "ok")),
        Step::Call(line) => told(alloc, session.call(alloc, line.as_bytes())),
        Step::Cut => told(alloc, session.cut(alloc).map(|()| "ok")),
        Step::End => told(alloc, session.end(alloc)),
        Step::Replies(most) => replies_told(alloc, session, *most),
        Step::Report(most) => report_told(alloc, session, *most),
        Step::Row(table, key) => row_told(alloc, *key, session.row(table, *key)),
        Step::Next(table, after) => Ok(next_told(alloc, session, table, *after)?.1),
        Step::Table(table) => table_told(alloc, session, table),
        Step::Carried => told(alloc, session.carried()),
        Step::Digest => told(alloc, session.digest()),
        Step::Document => document_told(alloc, session),
    }
}

/// Takes steps in turn: each must tell what is beside it.
pub(crate) fn take_all(
    rt: &impl Abort,
    alloc: Global,
    session: &mut Session,
    steps: &[(Step, &str)],
) -> Result<(), Fail> {
    for (step, wanted) in steps {
        let tells = taken(alloc, session, step)?;
        assert!(rt; tells.as_str() == *wanted, "{tells} in place of {wanted}");
    }
    Ok(())
}
