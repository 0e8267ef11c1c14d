//! The forms of a catalogue's JSON document.

ghost use Rattle.std.specs.Prelude.{◌≡◌, Some, option_map, option_and_then, is_some, map};
ghost use Rattle.serde_json.specs.View.{view};
ghost use Rattle.documents.specs.Json.{elements};
ghost use Rattle.catalogue.specs.Reading.{type_of_word, column_form, integers, after_word, split_form, table_form, version_form, catalogue_form};
ghost use Rattle.catalogue.specs.Bounds.{has_bounds, form_said, with_split_said};

use crate::split_form::SplitForm;
use crate::version::Version;
use documents::{elements, pair, text_number_list, triple};
use serde_json::Value;
use values::ColType;

fn type_of_word(word: &str) -> Option<ColType>
    ensures { result ≡ type_of_word word.now }
{
    match word {
        "int" => Some(ColType::Int),
        "text" => Some(ColType::Text),
        _ => None,
    }
}

/// The form `[NAME, TYPE]` of a column or a parameter: a name and its type, `None` where a document has another form.
/// Whether the name obeys the rule of names is not looked at.
#[tactic(auto, unfolding(crate::specs::Reading::column_form))]
pub fn column_form(value: &Value) -> Option<(&str, ColType)>
    ensures { option_map (λ p. (p.0.now, p.1)) result ≡ column_form (view value.now) }
{
    let (name, word) = pair(value)?;
    let name = name.as_str()?;
    let kind = type_of_word(word.as_str()?)?;
    Some((name, kind))
}

/// The version with a number, `None` where there is no such version.
fn version_form(number: i64) -> Option<Version>
    ensures { option_map has_bounds result ≡ version_form number }
{
    match number {
        1 => Some(Version::One),
        2 => Some(Version::Two),
        _ => None,
    }
}

/// Whether each document is a whole number.
fn are_integers(documents: &[Value]) -> bool
    ensures { result ≡ is_some (integers (map view documents.now)) }
{
    for document in documents {
        if !document.is_i64() {
            return false;
        }
    }
    true
}

/// The documents of whole numbers after the word.
fn bounds_form(value: &Value) -> Option<&[Value]>
    ensures { option_map (λ s. integers (map view s.now)) result
        ≡ option_map (λ numbers. Some numbers) (option_and_then after_word (elements (view value.now))) }
{
    let (word, numbers) = elements(value)?.split_first()?;
    if word.as_str()? == "bounds" && are_integers(numbers) {
        Some(numbers)
    } else {
        None
    }
}

/// A number of partitions, or, in version 2, bounds.
#[tactic(auto, unfolding(crate::specs::Reading::split_form))]
fn split_form(version: Version, value: &Value) -> Option<SplitForm<'_>>
    ensures { option_map form_said result
        ≡ option_map (λ split. Some split) (split_form (has_bounds version) (view value.now)) }
{
    if let Some(count) = value.as_i64() {
        return Some(SplitForm::Counted(count));
    }
    match version {
        Version::One => None,
        Version::Two => Some(SplitForm::Bounded(bounds_form(value)?)),
    }
}

/// A name, a split, and columns.
#[tactic(auto, unfolding(crate::specs::Reading::table_form))]
pub(crate) fn table_form(version: Version, value: &Value) -> Option<(&str, SplitForm<'_>, &[Value])>
    ensures { option_map (λ p. (p.0.now, form_said p.1, map view p.2.now)) result
        ≡ option_map with_split_said (table_form (has_bounds version) (view value.now)) }
{
    let (name, split, columns) = triple(value)?;
    let name = name.as_str()?;
    let split = split_form(version, split)?;
    let columns = elements(columns)?;
    Some((name, split, columns))
}

/// The version of a catalogue, and its tables.
#[tactic(auto, unfolding(crate::specs::Reading::catalogue_form))]
pub(crate) fn catalogue_form(value: &Value) -> Option<(Version, &[Value])>
    ensures { option_map (λ f. (has_bounds f.0, map view f.1.now)) result ≡ catalogue_form (view value.now) }
{
    let (head, version, tables) = text_number_list(value)?;
    if head != "catalogue" {
        return None;
    }
    Some((version_form(version)?, tables))
}
