//! Reading setups.

ghost use Rattle.std.specs.Prelude.{◌≡◌, false, map, slice_set, IfErr, IfOk, IfSome, Ok};
ghost use Rattle.serde_json.specs.View.{view};
ghost use Rattle.setup.specs.declared.fault.SetupFault.TheVariants.{NotJson};
ghost use Rattle.setup.specs.Faults.{is_memory};
ghost use Rattle.setup.specs.FirstFault.{BreaksFirst, InDocument};
ghost use Rattle.setup.specs.Readings.{IsReading};
ghost use Rattle.setup.specs.Says.{IsJson, IsNotJson, SaysDocument, SaysSetup};
ghost use Rattle.setup.specs.Setups.{setup_at, setup_said};
ghost use Rattle.setup.specs.WithRows.{with_rows_document, setup_with_rows_said, BreaksFirstWithRows, SaysSetupWithRows};

use crate::by_tokens::setup_by_tokens;
use crate::document::SetupDocument;
use crate::fault::SetupFault;
use crate::form::setup_form;
use crate::rows::read_rows;
use catalogue::Catalogue;
use proclang::read_procs;
use requests::Setup;
use serde_json::Value;
use std::alloc::Global;
use std::str;

fn read_document(alloc: Global, document: &Value) -> Result<SetupDocument, SetupFault>
    ensures { IsReading (SaysDocument (view document.now)) (InDocument (view document.now))
        (setup_at (view document.now)) result }
{
    let form = setup_form(document).ok_or(SetupFault::Shape)?;
    let catalogue = Catalogue::read(alloc, form.catalogue)?;
    let procs = read_procs(alloc, form.procs, &catalogue)?;
    let rows = read_rows(alloc, &catalogue, form.rows)?;
    let setup = Setup {
        catalogue,
        procs,
        rows,
        retries: form.retries,
    };
    Ok(SetupDocument {
        setup,
        digest: form.digest,
    })
}

/// The document that a text is.
fn read_json(alloc: Global, text: &[u8]) -> Result<Value, SetupFault>
    ensures json { IfOk result (λ document. IsJson text.now (view document)) }
    ensures fault { IfErr result (λ e. is_memory e ≡ false → (e ≡ NotJson) × IsNotJson text.now) }
{
    let Ok(text) = str::from_utf8(text) else {
        return Err(SetupFault::NotJson);
    };
    match Value::from_str(alloc, text) {
        Ok(document) => Ok(document),
        Err(e) if e.is_memory() => Err(SetupFault::Memory),
        Err(_) => Err(SetupFault::NotJson),
    }
}

/// The setup that a text says, read without a document of its rows. `None` if the text breaks a rule, or if allocation
/// fails.
fn read_by_tokens(alloc: Global, text: &[u8]) -> Option<SetupDocument>
    ensures { IfSome result (λ s. IsReading (SaysSetup text.now) (BreaksFirst text.now) (setup_said text.now) (Ok s)) }
{
    let Ok(text) = str::from_utf8(text) else {
        return None;
    };
    setup_by_tokens(alloc, text)
}

// rule: json.text
/// What a JSON text says as a setup document, or the first rule that it breaks: of the text, of the document's outer
/// form, of the catalogue, of the procedures, and of the rows, in this order.
pub fn read_setup(alloc: Global, text: &[u8]) -> Result<SetupDocument, SetupFault>
    ensures { IsReading (SaysSetup text.now) (BreaksFirst text.now) (setup_said text.now) result }
{
    if let Some(document) = read_by_tokens(alloc, text) {
        return Ok(document);
    }
    match read_json(alloc, text) {
        Ok(document) => read_document(alloc, &document),
        Err(fault) => Err(fault),
    }
}

/// The document with other rows as its fifth element; a shorter array, or what is no array, is itself.
fn with_rows_document(document: Value, rows: Value) -> Value
    ensures { view result ≡ with_rows_document (view document) (view rows) }
{
    match document {
        Value::Array(elements) => Value::Array(with_rows(elements, rows)),
        other => other,
    }
}

/// The elements with other rows as the fifth.
fn with_rows(elements: Vec<Value>, rows: Value) -> Vec<Value>
    ensures { map view result.items ≡ slice_set (map view elements.items) 4 (view rows) }
{
    let mut elements = elements;
    if elements.len() > 4 {
        elements[4] = rows;
    }
    elements
}

/// What a JSON text says as a setup document whose starting rows another JSON text says, or the first rule that they
/// break: of the setup's text, of the rows' text, and then of the setup document with those rows, as `read_setup` has
/// them. The rows of the setup's own text may be any document.
pub fn read_setup_with_rows(
    alloc: Global,
    text: &[u8],
    rows: &[u8],
) -> Result<SetupDocument, SetupFault>
    ensures { IsReading (SaysSetupWithRows text.now rows.now) (BreaksFirstWithRows text.now rows.now)
        (setup_with_rows_said text.now rows.now) result }
{
    let document = read_json(alloc, text)?;
    let rows = read_json(alloc, rows)?;
    read_document(alloc, &with_rows_document(document, rows))
}
