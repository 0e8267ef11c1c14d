//! Setups that are read from their tokens: no document is made of the rows, which are most of a setup.

ghost use Rattle.std.specs.Prelude.{◌≡◌, ◌∷◌, ◌++◌, List, [], map, IfSome, Some, Ok};
ghost use Rattle.json.specs.Lex.{tokens};
ghost use Rattle.json.specs.Token.{end_array};
ghost use Rattle.serde_json.specs.Data.{Data};
ghost use Rattle.serde_json.specs.View.{view};
ghost use Rattle.value_tokens.specs.Documents.{AreDocuments, IsDocument};
ghost use Rattle.setup.specs.Tokens.{IsReadByTokens};

use crate::document::SetupDocument;
use crate::form::setup_form;
use crate::rows_by_tokens::take_rows;
use catalogue::Catalogue;
use json::{Reader, Scratch, to_vec};
use proclang::read_procs;
use requests::Setup;
use serde_json::Value;
use std::alloc::Global;
use std::str;
use value_tokens::take_begin_array;

/// How deep arrays and objects nest at most in an element of a setup's document.
const DEPTH: usize = 126;

/// Takes a document. It is written as a text, and this is read: the catalogue and the procedures are short.
fn take_document(alloc: Global, reader: &mut Reader<'_>) -> Option<Value>
    ensures { IfSome result (λ document. IsDocument 126 reader.old (view document) reader.new) }
{
    let parsed = json::Value::read(alloc, reader, DEPTH).ok()?;
    let text = to_vec(alloc, &parsed).ok()?;
    let Ok(text) = str::from_utf8(&text) else {
        return None;
    };
    Value::from_str(alloc, text).ok()
}

/// Takes documents up to the bracket that closes their array, which is taken, too, and puts them after others.
fn take_documents(
    alloc: Global,
    reader: &mut Reader<'_>,
    documents: Vec<Value>,
) -> Option<Vec<Value>>
    ensures { IfSome result (λ all. (taken : List Data) × AreDocuments 126 reader.old taken (end_array ∷ reader.new)
        × (map view all.items ≡ map view documents.items ++ taken)) }
{
    let mut documents = documents;
    'documents: while !reader.take_end_array() {
        documents.push(take_document(alloc, reader)?).ok()?;
    }
    Some(documents)
}

/// The setup that a text says. `None` if it breaks a rule, or if allocation fails.
pub(crate) fn setup_by_tokens(alloc: Global, text: &str) -> Option<SetupDocument>
    ensures { IfSome result (IsReadByTokens text.now) }
{
    let mut scratch = Scratch::new(alloc);
    let mut reader = Reader::new(text, &mut scratch).ok()?;
    take_begin_array(&mut reader)?;
    let word = take_document(alloc, &mut reader)?;
    let version = take_document(alloc, &mut reader)?;
    let catalogue_document = take_document(alloc, &mut reader)?;
    let procs_document = take_document(alloc, &mut reader)?;
    let catalogue = Catalogue::read(alloc, &catalogue_document).ok()?;
    let procs = read_procs(alloc, &procs_document, &catalogue).ok()?;
    let rows = take_rows(alloc, &catalogue, &mut reader)?;
    // In the document the rows are null.
    let elements = vec![in alloc;
        word,
        version,
        catalogue_document,
        procs_document,
        Value::Null,
    ]
    .ok()?;
    let document = Value::Array(take_documents(alloc, &mut reader, elements)?);
    if reader.next().is_some() {
        return None;
    }
    let form = setup_form(&document)?;
    let setup = Setup {
        catalogue,
        procs,
        rows,
        retries: form.retries,
    };
    Some(SetupDocument {
        setup,
        digest: form.digest,
    })
}
