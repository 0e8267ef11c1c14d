//! One level of a procedure, and of an entry of its footprint, before their parts are read.

ghost use Rattle.std.specs.Prelude.{◌≡◌, option_map, map};
ghost use Rattle.serde_json.specs.View.{view};
ghost use Rattle.proclang_forms.specs.ProcForms.{proc_parts_of, proc_form, footprint_form_view, recon_form, footprint_word, footprint_words, footprint_form, right_of, entry_form_view, row_form, rows_form, part_form, whole_table_form, db_form, entry_word, entry_words, entry_form};

use documents::{elements, four};
use proclang_types::Right;
use serde_json::Value;

/// `[NAME, [PARAMETER ..], FOOTPRINT, BODY]`
#[derive(Clone, Copy)]
pub struct ProcForm<'a> {
    pub name: &'a str,
    pub params: &'a [Value],
    pub footprint: &'a Value,
    pub body: &'a Value,
}

/// The form of a procedure, `None` of a document that has none.
#[tactic(auto, unfolding(crate::specs::ProcForms::proc_form))]
pub fn proc_form(value: &Value) -> Option<ProcForm<'_>>
    ensures { option_map proc_parts_of result ≡ proc_form (view value.now) }
{
    let (name, params, footprint, body) = four(value)?;
    Some(ProcForm {
        name: name.as_str()?,
        params: elements(params)?,
        footprint,
        body,
    })
}

/// One level of a footprint.
#[derive(Clone, Copy)]
pub enum FootprintForm<'a> {
    /// `["declared", ENTRY ..]`
    Declared(&'a [Value]),
    /// `["recon"]`
    Recon,
}

#[tactic(auto, unfolding(crate::specs::ProcForms::recon_form))]
fn recon_form<'a>(parts: &[Value]) -> Option<FootprintForm<'a>>
    ensures { option_map footprint_form_view result ≡ recon_form (map view parts.now) }
{
    match parts {
        [] => Some(FootprintForm::Recon),
        _ => None,
    }
}

#[tactic(auto, unfolding(crate::specs::ProcForms::footprint_word))]
fn footprint_word<'a>(word: &str, parts: &'a [Value]) -> Option<FootprintForm<'a>>
    ensures { option_map footprint_form_view result ≡ footprint_word word.now (map view parts.now) }
{
    match word {
        "declared" => Some(FootprintForm::Declared(parts)),
        "recon" => recon_form(parts),
        _ => None,
    }
}

fn footprint_words(items: &[Value]) -> Option<FootprintForm<'_>>
    ensures { option_map footprint_form_view result ≡ footprint_words (map view items.now) }
{
    let (head, parts) = items.split_first()?;
    footprint_word(head.as_str()?, parts)
}

/// The form of a footprint, `None` of a document that has none.
#[tactic(auto, unfolding(crate::specs::ProcForms::footprint_form))]
pub fn footprint_form(value: &Value) -> Option<FootprintForm<'_>>
    ensures { option_map footprint_form_view result ≡ footprint_form (view value.now) }
{
    footprint_words(elements(value)?)
}

/// One level of an entry of a declared footprint.
#[derive(Clone, Copy)]
pub enum EntryForm<'a> {
    /// `["row", RIGHT, TABLE, KEY]`
    Row(Right, &'a str, &'a Value),
    /// `["rows", RIGHT, TABLE, LOW, HIGH]`
    Rows(Right, &'a str, &'a Value, &'a Value),
    /// `["part", RIGHT, TABLE, PART]`
    Part(Right, &'a str, &'a Value),
    /// `["table", RIGHT, TABLE]`
    Table(Right, &'a str),
    /// `["db", RIGHT]`
    Db(Right),
}

fn right_of(word: &str) -> Option<Right>
    ensures { result ≡ right_of word.now }
{
    match word {
        "r" => Some(Right::Read),
        "w" => Some(Right::Write),
        _ => None,
    }
}

#[tactic(auto, unfolding(crate::specs::ProcForms::row_form))]
fn row_form(parts: &[Value]) -> Option<EntryForm<'_>>
    ensures { option_map entry_form_view result ≡ row_form (map view parts.now) }
{
    match parts {
        [right, table, key] => {
            let right = right_of(right.as_str()?)?;
            Some(EntryForm::Row(right, table.as_str()?, key))
        }
        _ => None,
    }
}

#[tactic(auto, unfolding(crate::specs::ProcForms::rows_form))]
fn rows_form(parts: &[Value]) -> Option<EntryForm<'_>>
    ensures { option_map entry_form_view result ≡ rows_form (map view parts.now) }
{
    match parts {
        [right, table, low, high] => {
            let right = right_of(right.as_str()?)?;
            Some(EntryForm::Rows(right, table.as_str()?, low, high))
        }
        _ => None,
    }
}

#[tactic(auto, unfolding(crate::specs::ProcForms::part_form))]
fn part_form(parts: &[Value]) -> Option<EntryForm<'_>>
    ensures { option_map entry_form_view result ≡ part_form (map view parts.now) }
{
    match parts {
        [right, table, part] => {
            let right = right_of(right.as_str()?)?;
            Some(EntryForm::Part(right, table.as_str()?, part))
        }
        _ => None,
    }
}

#[tactic(auto, unfolding(crate::specs::ProcForms::whole_table_form))]
fn table_form(parts: &[Value]) -> Option<EntryForm<'_>>
    ensures { option_map entry_form_view result ≡ whole_table_form (map view parts.now) }
{
    match parts {
        [right, table] => {
            let right = right_of(right.as_str()?)?;
            Some(EntryForm::Table(right, table.as_str()?))
        }
        _ => None,
    }
}

#[tactic(auto, unfolding(crate::specs::ProcForms::db_form))]
fn db_form<'a>(parts: &[Value]) -> Option<EntryForm<'a>>
    ensures { option_map entry_form_view result ≡ db_form (map view parts.now) }
{
    match parts {
        [right] => Some(EntryForm::Db(right_of(right.as_str()?)?)),
        _ => None,
    }
}

#[tactic(auto, unfolding(crate::specs::ProcForms::entry_word))]
fn entry_word<'a>(word: &str, parts: &'a [Value]) -> Option<EntryForm<'a>>
    ensures { option_map entry_form_view result ≡ entry_word word.now (map view parts.now) }
{
    match word {
        "row" => row_form(parts),
        "rows" => rows_form(parts),
        "part" => part_form(parts),
        "table" => table_form(parts),
        "db" => db_form(parts),
        _ => None,
    }
}

fn entry_words(items: &[Value]) -> Option<EntryForm<'_>>
    ensures { option_map entry_form_view result ≡ entry_words (map view items.now) }
{
    let (head, parts) = items.split_first()?;
    entry_word(head.as_str()?, parts)
}

/// The form of an entry, `None` of a document that has none.
#[tactic(auto, unfolding(crate::specs::ProcForms::entry_form))]
pub fn entry_form(value: &Value) -> Option<EntryForm<'_>>
    ensures { option_map entry_form_view result ≡ entry_form (view value.now) }
{
    entry_words(elements(value)?)
}
