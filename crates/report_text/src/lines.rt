//! Reply lines, batch lines and end lines.

ghost use Rattle.std.specs.Prelude.{◌≡◌, ◌++◌, OnOk, string_bytes};
ghost use Rattle.report_text.specs.Texts.{reply_line, reply_words, of_words, batch_line, end_line};
ghost use Rattle.meaning.specs.Outcomes.{as_reply};

use meaning::Outcome;
use row_text::push_values;
use std::alloc::{AllocError, Global};

/// Appends what comes after a transaction's number.
#[tactic(auto, unfolding(crate::specs::Texts::reply_words))]
fn push_reply_words(alloc: Global, text: &mut String, outcome: &Outcome) -> Result<(), AllocError>
    ensures { OnOk result (string_bytes text.new ≡ string_bytes text.old ++ reply_words (as_reply outcome.now)) }
{
    match outcome {
        Outcome::Commit(values) => {
            text.push_str(" commit")?;
            push_values(alloc, text, values)
        }
        Outcome::Abort(code) => {
            let number = code.number();
            write!(text, " abort {number}")
        }
        Outcome::Stale => text.push_str(" stale"),
    }
}

/// Appends what comes after a later attempt's number: the number of the request's first attempt. Nothing for a first
/// attempt.
fn push_of_words(text: &mut String, of: Option<u64>) -> Result<(), AllocError>
    ensures { OnOk result (string_bytes text.new ≡ string_bytes text.old ++ of_words of) }
{
    match of {
        None => Ok(()),
        Some(first) => write!(text, " of {first}"),
    }
}

// rule: report.reply, report.later
/// Appends a reply line: the transaction's number, for a later attempt of a request the number of its first attempt,
/// the outcome, and a newline.
#[tactic(auto, unfolding(crate::specs::Texts::reply_line))]
pub fn push_reply_line(
    alloc: Global,
    text: &mut String,
    no: u64,
    of: Option<u64>,
    outcome: &Outcome,
) -> Result<(), AllocError>
    ensures { OnOk result (string_bytes text.new ≡ string_bytes text.old ++ reply_line no of (as_reply outcome.now)) }
{
    write!(text, "{no}")?;
    push_of_words(text, of)?;
    push_reply_words(alloc, text, outcome)?;
    text.push_str("\n")
}

// rule: report.batch
/// Appends a batch line, from the digests of the rows after the batch and of its reply lines.
#[tactic(auto, unfolding(crate::specs::Texts::batch_line))]
pub fn push_batch_line(
    text: &mut String,
    batch: u64,
    rows: &str,
    replies: &str,
) -> Result<(), AllocError>
    ensures { OnOk result (string_bytes text.new ≡ string_bytes text.old ++ batch_line batch rows.now replies.now) }
{
    writeln!(text, "batch {batch} rows {rows} replies {replies}")
}

// rule: report.end
/// Appends the end line, from the number of transactions and the digests of the rows at the end and of all reply lines.
#[tactic(auto, unfolding(crate::specs::Texts::end_line))]
pub fn push_end_line(
    text: &mut String,
    count: u64,
    rows: &str,
    replies: &str,
) -> Result<(), AllocError>
    ensures { OnOk result (string_bytes text.new ≡ string_bytes text.old ++ end_line count rows.now replies.now) }
{
    writeln!(text, "end {count} rows {rows} replies {replies}")
}
