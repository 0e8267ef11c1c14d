//! The outer form of a setup's document.

ghost use Rattle.std.specs.Prelude.{◌≡◌, ◌≤◌, option_map, option_and_then, IfSome};
ghost use Rattle.serde_json.specs.View.{view};
ghost use Rattle.documents.specs.Json.{elements, five, six};
ghost use Rattle.setup.specs.Setups.{setup_form, first_parts, second_parts, third_parts, parts_view, form_named, retries_of, seven};

use documents::{elements, five, six};
use row_text::DigestForm;
use serde_json::Value;

/// The parts of a setup's document, before they are read.
#[derive(Clone, Copy)]
pub(crate) struct Parts<'a> {
    /// The document of the catalogue.
    pub catalogue: &'a Value,
    /// The document of the procedures.
    pub procs: &'a Value,
    /// The document of the rows.
    pub rows: &'a Value,
    /// How often a stale request is tried again.
    pub retries: u8,
    /// Of which text of the rows digests are.
    pub digest: DigestForm,
}

/// The parts of a document `["setup", 1, CATALOGUE, PROCEDURES, ROWS]`: nothing is tried again, and digests are of row
/// texts.
fn first_parts<'a>(document: &'a Value) -> Option<Parts<'a>>
    ensures form { option_map parts_view result
        ≡ option_and_then first_parts (option_and_then five (elements (view document.now))) }
    ensures few { IfSome result (λ p. p.retries ≤ 2) }
{
    let (word, version, catalogue, procs, rows) = five(document)?;
    if word.as_str()? == "setup" && version.as_i64()? == 1 {
        Some(Parts {
            catalogue,
            procs,
            rows,
            retries: 0,
            digest: DigestForm::Rows,
        })
    } else {
        None
    }
}

// rule: setup.retries
/// How often a stale request is tried again, `None` of a number that isn't 0, 1 or 2.
fn retries_of(number: i64) -> Option<u8>
    ensures exact { result ≡ retries_of number }
    ensures few { IfSome result (λ retries. retries ≤ 2) }
{
    if number >= 0 && number <= 2 {
        Some(number as u8)
    } else {
        None
    }
}

/// The parts of a document `["setup", 2, CATALOGUE, PROCEDURES, ROWS, RETRIES]`: digests are of row texts.
fn second_parts<'a>(document: &'a Value) -> Option<Parts<'a>>
    ensures form { option_map parts_view result
        ≡ option_and_then second_parts (option_and_then six (elements (view document.now))) }
    ensures few { IfSome result (λ p. p.retries ≤ 2) }
{
    let (word, version, catalogue, procs, rows, number) = six(document)?;
    let word = word.as_str()?;
    let version = version.as_i64()?;
    let retries = retries_of(number.as_i64()?)?;
    if word == "setup" && version == 2 {
        Some(Parts {
            catalogue,
            procs,
            rows,
            retries,
            digest: DigestForm::Rows,
        })
    } else {
        None
    }
}

/// The elements of an array of seven.
fn seven(document: &Value) -> Option<(&Value, &Value, &Value, &Value, &Value, &Value, &Value)>
    ensures { option_map (λ p.
        (view p.0.now, view p.1.now, view p.2.now, view p.3.now, view p.4.now, view p.5.now, view p.6.now))
        result
        ≡ option_and_then seven (elements (view document.now)) }
{
    match elements(document)? {
        [first, second, third, fourth, fifth, sixth, seventh] => Some((
            first, second, third, fourth, fifth, sixth, seventh,
        )),
        _ => None,
    }
}

// rule: setup.digest
/// The text of the rows that has that name, `None` where none has it.
fn form_named(name: &str) -> Option<DigestForm>
    ensures { result ≡ form_named name.now }
{
    if name == "rows" {
        Some(DigestForm::Rows)
    } else if name == "partitions" {
        Some(DigestForm::Partitions)
    } else {
        None
    }
}

/// The parts of a document `["setup", 3, CATALOGUE, PROCEDURES, ROWS, RETRIES, DIGEST]`.
fn third_parts<'a>(document: &'a Value) -> Option<Parts<'a>>
    ensures form { option_map parts_view result
        ≡ option_and_then third_parts (option_and_then seven (elements (view document.now))) }
    ensures few { IfSome result (λ p. p.retries ≤ 2) }
{
    let (word, version, catalogue, procs, rows, number, name) = seven(document)?;
    let word = word.as_str()?;
    let version = version.as_i64()?;
    let retries = retries_of(number.as_i64()?)?;
    let digest = form_named(name.as_str()?)?;
    if word == "setup" && version == 3 {
        Some(Parts {
            catalogue,
            procs,
            rows,
            retries,
            digest,
        })
    } else {
        None
    }
}

// rule: setup.form
/// The parts of a setup's document, of version 1, 2 or 3.
#[tactic(auto, unfolding(crate::specs::Setups::setup_form))]
pub(crate) fn setup_form<'a>(document: &'a Value) -> Option<Parts<'a>>
    ensures form { option_map parts_view result ≡ setup_form (view document.now) }
    ensures few { IfSome result (λ p. p.retries ≤ 2) }
{
    if let Some(parts) = first_parts(document) {
        return Some(parts);
    }
    if let Some(parts) = second_parts(document) {
        return Some(parts);
    }
    third_parts(document)
}
