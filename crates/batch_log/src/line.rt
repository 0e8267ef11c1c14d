//! What a line says.

ghost use Rattle.std.specs.Prelude.{◌≡◌, ℕ, List, map, IfErr, IfOk, is_some, true, false, Some};
ghost use Rattle.json.specs.Lex.{tokens};
ghost use Rattle.serde_json.specs.Data.{Data};
ghost use Rattle.serde_json.specs.Read.{read};
ghost use Rattle.serde_json.specs.View.{view};
ghost use Rattle.catalogue.specs.Said.{values_said};
ghost use Rattle.documents.specs.Reading.{Reads};
ghost use Rattle.requests.specs.ProcLists.{proc_named};
ghost use Rattle.batch_log.specs.Faults.{is_io, is_memory};
ghost use Rattle.batch_log.specs.Lines.{call_said, document_said, line_said, IsOver};
ghost use Rattle.batch_log.specs.Plain.{SpellsPlain};

use crate::fault::LogFaultKind;
use crate::form::{LineForm, line_form};
use crate::plain_line::{PlainLine, plain_line};
use catalogue::read_values;
use json::Scratch;
use requests::{Procs, Request, RequestFault};
use serde_json::Value as Json;
use std::alloc::Global;
use std::str;
use values::Value;

/// What a line of a log says.
#[derive(Drop)]
pub enum LogLine {
    /// One transaction.
    Call(Request),
    /// The batch ends.
    Cut,
}

/// The fault of a call whose values are not had. A name that no procedure has is told before it.
fn unless_unknown(procs: &Procs, name: &str, fault: LogFaultKind) -> LogFaultKind
    ensures known { is_some (proc_named procs.now.procs name.now) ≡ true → result ≡ fault }
    ensures unknown { is_some (proc_named procs.now.procs name.now) ≡ false → result ≡ LogFaultKind.UnknownProc }
{
    if procs.has(name) {
        fault
    } else {
        LogFaultKind::UnknownProc
    }
}

/// The call of the procedure of that name with these values.
fn call_of(procs: &Procs, name: &str, values: Vec<Value>) -> Result<Request, LogFaultKind>
    ensures exact { (ds : List Data) → values_said ds ≡ Some values.items →
        Reads is_memory (λ r. r) result (call_said procs.now.procs name.now ds) }
    ensures tables { IfOk result (λ r. r.proc.tables ≡ procs.now.tables) }
    ensures no_device { IfErr result (λ kind. is_io kind ≡ false) }
{
    match Request::new(procs, name, values) {
        Ok(request) => Ok(request),
        Err(RequestFault::UnknownProc) => Err(LogFaultKind::UnknownProc),
        Err(RequestFault::Args) => Err(LogFaultKind::Args),
        Err(RequestFault::NoMemory) => Err(LogFaultKind::Memory),
    }
}

/// The call of the procedure of that name with the values that the documents say.
fn read_call(
    alloc: Global,
    procs: &Procs,
    name: &str,
    documents: &[Json],
) -> Result<Request, LogFaultKind>
    ensures exact { Reads is_memory (λ r. r) result (call_said procs.now.procs name.now (map view documents.now)) }
    ensures tables { IfOk result (λ r. r.proc.tables ≡ procs.now.tables) }
    ensures no_device { IfErr result (λ kind. is_io kind ≡ false) }
{
    match read_values(alloc, documents) {
        Ok(Some(values)) => call_of(procs, name, values),
        Ok(None) => Err(unless_unknown(procs, name, LogFaultKind::Args)),
        Err(_) => Err(unless_unknown(procs, name, LogFaultKind::Memory)),
    }
}

fn read_document(alloc: Global, procs: &Procs, document: &Json) -> Result<LogLine, LogFaultKind>
    ensures exact { Reads is_memory (λ said. said) result (document_said procs.now.procs (Some (view document.now))) }
    ensures tables { IfOk result (IsOver procs.now.tables) }
    ensures no_device { IfErr result (λ kind. is_io kind ≡ false) }
{
    match line_form(document) {
        Some(LineForm::Call(name, documents)) => {
            Ok(LogLine::Call(read_call(alloc, procs, name, documents)?))
        }
        Some(LineForm::Cut) => Ok(LogLine::Cut),
        None => Err(LogFaultKind::Shape),
    }
}

/// What a line in any form says, by its document.
fn read_json(alloc: Global, procs: &Procs, text: &str) -> Result<LogLine, LogFaultKind>
    ensures exact { Reads is_memory (λ said. said) result (document_said procs.now.procs (read text.now)) }
    ensures tables { IfOk result (IsOver procs.now.tables) }
    ensures no_device { IfErr result (λ kind. is_io kind ≡ false) }
{
    match Json::from_str(alloc, text) {
        Ok(document) => read_document(alloc, procs, &document),
        Err(e) if e.is_memory() => Err(LogFaultKind::Memory),
        Err(_) => Err(LogFaultKind::NotJson),
    }
}

/// What a line in the plain form says to these procedures.
fn plain_said(procs: &Procs, line: PlainLine<'_>) -> Result<LogLine, LogFaultKind>
    ensures exact { (text : List ℕ) → SpellsPlain (tokens text) line.entry →
        Reads is_memory (λ said. said) result (document_said procs.now.procs (read text)) }
    ensures tables { IfOk result (IsOver procs.now.tables) }
    ensures no_device { IfErr result (λ kind. is_io kind ≡ false) }
{
    match line {
        PlainLine::Call(name, values) => Ok(LogLine::Call(call_of(procs, name, values)?)),
        PlainLine::Cut => Ok(LogLine::Cut),
    }
}

/// As `read_log_line`, with the memory for its tokens, which is kept from line to line.
#[tactic(auto, using(crate::proofs::Calls::said_of_text, crate::proofs::Calls::said_of_bytes))]
pub(crate) fn read_line_with(
    alloc: Global,
    procs: &Procs,
    line: &[u8],
    scratch: &mut Scratch,
) -> Result<LogLine, LogFaultKind>
    ensures exact { Reads is_memory (λ said. said) result (line_said procs.now.procs line.now) }
    ensures tables { IfOk result (IsOver procs.now.tables) }
    ensures no_device { IfErr result (λ kind. is_io kind ≡ false) }
{
    let Ok(text) = str::from_utf8(line) else {
        return Err(LogFaultKind::NotJson);
    };
    match plain_line(alloc, text, scratch) {
        Some(plain) => plain_said(procs, plain),
        None => read_json(alloc, procs, text),
    }
}

// rule: log.form
/// What a line says to these procedures, or the first rule that it breaks. The line comes without its newline.
pub fn read_log_line(alloc: Global, procs: &Procs, line: &[u8]) -> Result<LogLine, LogFaultKind>
    ensures exact { Reads is_memory (λ said. said) result (line_said procs.now.procs line.now) }
    ensures tables { IfOk result (IsOver procs.now.tables) }
    ensures no_device { IfErr result (λ kind. is_io kind ≡ false) }
{
    read_line_with(alloc, procs, line, &mut Scratch::new(alloc))
}
