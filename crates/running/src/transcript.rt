//! The report of a run, as it is written.

ghost use Rattle.std.specs.Prelude.{◌≡◌, ◌||◌, List, ℕ, [], None, IfOk, IfErr, IfSome, OnErr, OnOk, string_bytes, false};
ghost use Rattle.std.specs.Io.KnownBytes.{Appends};
ghost use Rattle.sha2.specs.Hashers.{Holds256};
ghost use Rattle.devices.specs.Devices.{AppendsFront};
ghost use Rattle.catalogue.specs.Shapes.{TableShape};
ghost use Rattle.values.specs.Database.{Database};
ghost use Rattle.engine.specs.Engines.{is_busy, tables_of};
ghost use Rattle.row_text.specs.declared.form.DigestForm.{DigestForm as AnyForm};
ghost use Rattle.row_text.specs.Partitions.{digested_text};
ghost use Rattle.row_text.specs.Texts.{digest};
ghost use Rattle.report_text.specs.Texts.{end_line};
ghost use Rattle.meaning.specs.Outcomes.{is_commit};
ghost use Rattle.running.specs.Transcripts.{digest_of_rows, has_commit, said_lines, with_batch_line, write_failed, IsOfMachine};

use batch_log::{LogFaultKind, Sink, write_all};
use engine::{BatchEngine, Reply};
use meaning::Outcome;
use report_text::{push_batch_line, push_end_line, push_reply_line};
use row_text::{DigestForm, digest_of, digest_text};
use sha2::{Digest, Sha256};
use std::alloc::{AllocError, Global};

/// What was reported so far.
#[derive(Drop)]
pub struct Transcript {
    /// The number of the next batch, from 1.
    batch: u64,
    /// All reply lines, by their hasher.
    said: Sha256,
    /// The digest of the rows after the last batch; `None` where no batch was reported, and after an error.
    rows: Option<String>,
    /// Of which text of the rows its digests are.
    form: DigestForm,
}

/// The reply lines of a batch.
fn reply_lines(alloc: Global, replies: &[Reply]) -> Result<String, AllocError>
    ensures { IfOk result (λ lines. string_bytes lines ≡ said_lines replies.now) }
{
    let mut lines = String::new(alloc);
    for reply in replies {
        push_reply_line(alloc, &mut lines, reply.no, reply.of, &reply.outcome)?;
    }
    Ok(lines)
}

fn is_commit(reply: &Reply) -> bool
    ensures { result ≡ is_commit reply.now.outcome }
{
    matches!(reply.outcome, Outcome::Commit(_))
}

/// Whether one of these replies is a commit. A batch without one leaves every row as it was.
fn has_commit(replies: &[Reply]) -> bool
    ensures { result ≡ has_commit replies.now }
{
    replies.iter().any(is_commit)
}

/// The digest that was kept, or else that of the rows of an engine, in that form.
fn kept_or_told<E: BatchEngine>(
    kept: Option<String>,
    engine: &mut E,
    form: DigestForm,
) -> Result<String, AllocError>
    requires idle { is_busy (E.parts engine.old) ≡ false }
    requires kept { IfSome kept (λ text. string_bytes text ≡ digest_of_rows form (E.parts engine.old)) }
    ensures digest { IfOk result (λ text. string_bytes text ≡ digest_of_rows form (E.parts engine.old)) }
    ensures same { engine.new ≡ engine.old }
{
    match kept {
        Some(text) => Ok(text),
        None => engine.rows_digest(form),
    }
}

/// Reply lines, and the batch line after them with the digest of rows.
#[tactic(auto, unfolding(crate::specs::Transcripts::with_batch_line))]
fn batch_text(alloc: Global, batch: u64, rows: &str, lines: &str) -> Result<String, AllocError>
    ensures { (form : AnyForm) (tables : List TableShape) (db : Database) →
        rows.now ≡ digest (digested_text form tables db) →
        IfOk result (λ text. string_bytes text ≡ with_batch_line form batch tables db lines.now) }
{
    let replies = digest_text(alloc, lines.as_bytes())?;
    let mut text = String::from_str(alloc, lines)?;
    push_batch_line(&mut text, batch, rows, &replies)?;
    Ok(text)
}

/// The end line with the digest of the rows, from the reply lines by their hasher.
fn end_text(alloc: Global, count: u64, rows: &str, said: Sha256) -> Result<String, AllocError>
    ensures { (m : List ℕ) → Holds256 said m →
        IfOk result (λ text. string_bytes text ≡ end_line count rows.now (digest m)) }
{
    let replies = digest_of(alloc, said)?;
    let mut text = String::new(alloc);
    push_end_line(&mut text, count, rows, &replies)?;
    Ok(text)
}

/// Writes a text that was made, and tells what failed.
fn write_text<K: Sink>(sink: &mut K, text: &str) -> Result<(), LogFaultKind>
    ensures text { OnOk result (Appends (K.taken sink.old) (K.taken sink.new) text.now) }
    ensures front { AppendsFront (K.taken sink.old) (K.taken sink.new) text.now }
    ensures kind { IfErr result IsOfMachine }
    ensures fails { K.broken sink.new ≡ (K.broken sink.old || write_failed result) }
{
    match write_all(sink, text.as_bytes()) {
        Ok(()) => Ok(()),
        Err(_) => Err(LogFaultKind::Io),
    }
}

impl Transcript {
    ghost use Rattle.running.specs.Batches.{IsWritten, KeepsDigest};
    ghost use Rattle.running.specs.Hashers.{batch_of, form_of, rows_digest_of, said_of};

    /// Nothing was reported. Digests are to be of that text of the rows.
    pub fn new(form: DigestForm) -> Transcript
        ensures batch { batch_of result ≡ 1 }
        ensures said { Holds256 (said_of result) [] }
        ensures rows { rows_digest_of result ≡ None }
        ensures form { form_of result ≡ form }
    {
        Transcript {
            batch: 1,
            said: Sha256::new(),
            rows: None,
            form,
        }
    }

    /// Of which text of the rows its digests are.
    pub fn form(&self) -> DigestForm
        ensures { result ≡ form_of self.now }
    {
        self.form
    }

    // rule: report.replies
    /// Writes the report of a batch, over the rows that it has left. Where no call of it has committed, they are those
    /// that the batch before has left, if there was one: their digest is then the one in its batch line, and is not
    /// made anew. After an error no digest is kept.
    pub fn write_batch<E: BatchEngine, K: Sink>(
        &mut self,
        alloc: Global,
        sink: &mut K,
        engine: &mut E,
        replies: &[Reply],
    ) -> Result<(), LogFaultKind>
        requires idle { is_busy (E.parts engine.old) ≡ false }
        requires kept { has_commit replies.now ≡ false → KeepsDigest (E.parts engine.old) self.old }
        ensures written { OnOk result
            (IsWritten (E.parts engine.old) replies.now self.old self.new (K.taken sink.old) (K.taken sink.new)) }
        ensures front { AppendsFront (K.taken sink.old) (K.taken sink.new)
            (with_batch_line (form_of self.old) (batch_of self.old) (tables_of (E.parts engine.old))
            (E.parts engine.old).rows (said_lines replies.now)) }
        ensures kind { IfErr result IsOfMachine }
        ensures fails { K.broken sink.new ≡ (K.broken sink.old || write_failed result) }
        ensures gone { OnErr result (rows_digest_of self.new ≡ None) }
        ensures same { (engine.new ≡ engine.old) × (form_of self.new ≡ form_of self.old) }
    {
        let kept = self.rows.take();
        let kept = if has_commit(replies) { None } else { kept };
        let Ok(lines) = reply_lines(alloc, replies) else {
            return Err(LogFaultKind::Memory);
        };
        let Ok(rows) = kept_or_told(kept, engine, self.form) else {
            return Err(LogFaultKind::Memory);
        };
        let Ok(text) = batch_text(alloc, self.batch, &rows, &lines) else {
            return Err(LogFaultKind::Memory);
        };
        match write_text(sink, &text) {
            Ok(()) => {}
            Err(kind) => return Err(kind),
        }
        self.said.update(lines.as_bytes());
        self.batch = self.batch.saturating_add(1);
        self.rows = Some(rows);
        Ok(())
    }

    /// Writes the end line, for `count` transactions, over the rows that the last batch left, if there was one: their
    /// digest is then the one in its batch line, and is not made anew.
    pub(crate) fn write_last<E: BatchEngine, K: Sink>(
        self,
        alloc: Global,
        sink: &mut K,
        engine: &mut E,
        count: u64,
    ) -> Result<(), LogFaultKind>
        requires idle { is_busy (E.parts engine.old) ≡ false }
        requires kept { KeepsDigest (E.parts engine.old) self }
        ensures text { (m : List ℕ) → Holds256 (said_of self) m →
            OnOk result (Appends (K.taken sink.old) (K.taken sink.new)
            (end_line count (digest_of_rows (form_of self) (E.parts engine.old)) (digest m))) }
        ensures front { (m : List ℕ) → Holds256 (said_of self) m →
            AppendsFront (K.taken sink.old) (K.taken sink.new)
            (end_line count (digest_of_rows (form_of self) (E.parts engine.old)) (digest m)) }
        ensures kind { IfErr result IsOfMachine }
        ensures fails { K.broken sink.new ≡ (K.broken sink.old || write_failed result) }
        ensures same { engine.new ≡ engine.old }
    {
        let Transcript {
            batch: _,
            said,
            rows: kept,
            form,
        } = self;
        let Ok(rows) = kept_or_told(kept, engine, form) else {
            return Err(LogFaultKind::Memory);
        };
        let Ok(text) = end_text(alloc, count, &rows, said) else {
            return Err(LogFaultKind::Memory);
        };
        write_text(sink, &text)
    }
}
