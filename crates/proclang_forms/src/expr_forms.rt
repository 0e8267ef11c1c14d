//! One level of an expression, before its parts are read.

ghost use Rattle.std.specs.Prelude.{◌≡◌, option_map, map};
ghost use Rattle.serde_json.specs.View.{view};
ghost use Rattle.proclang_forms.specs.ExprForms.{form_view, operands_form, literal_form_of, not_form_of, exists_form_of, count_form_of, sum_form_of, call_form, calls_form, expr_form, is_allowed, form_in};

use crate::operator::{Operator, operator_of};
use serde_json::Value;

/// The section of a procedure that an expression is in. A footprint's expressions read no rows.
#[derive(Clone, Copy, Debug, PartialEq, Eq)]
pub enum Section {
    Footprint,
    Body,
}

/// `[OPERATOR, LEFT, RIGHT]`
#[derive(Clone, Copy)]
pub struct BinaryForm<'a> {
    pub operator: Operator,
    pub left: &'a Value,
    pub right: &'a Value,
}

/// `["exists", TABLE, KEY]`
#[derive(Clone, Copy)]
pub struct ExistsForm<'a> {
    pub table: &'a str,
    pub key: &'a Value,
}

/// `["count", TABLE, PART]`
#[derive(Clone, Copy)]
pub struct CountForm<'a> {
    pub table: &'a str,
    /// The partition's number.
    pub number: &'a Value,
}

/// `["sum", TABLE, PART, COLUMN]`
#[derive(Clone, Copy)]
pub struct SumForm<'a> {
    pub table: &'a str,
    /// The partition's number.
    pub number: &'a Value,
    pub column: &'a str,
}

/// One level of an expression.
#[derive(Clone, Copy)]
pub enum ExprForm<'a> {
    /// A whole number in the signed 64-bit range.
    Number(i64),
    /// `["text", TEXT]`
    Literal(&'a str),
    /// A name.
    Variable(&'a str),
    /// `["not", PART]`
    Not(&'a Value),
    Binary(BinaryForm<'a>),
    Exists(ExistsForm<'a>),
    Count(CountForm<'a>),
    Sum(SumForm<'a>),
}

#[tactic(auto, unfolding(crate::specs::ExprForms::literal_form_of))]
fn literal_form(parts: &[Value]) -> Option<ExprForm<'_>>
    ensures { option_map form_view result ≡ literal_form_of (map view parts.now) }
{
    match parts {
        [text] => Some(ExprForm::Literal(text.as_str()?)),
        _ => None,
    }
}

#[tactic(auto, unfolding(crate::specs::ExprForms::not_form_of))]
fn not_form(parts: &[Value]) -> Option<ExprForm<'_>>
    ensures { option_map form_view result ≡ not_form_of (map view parts.now) }
{
    match parts {
        [part] => Some(ExprForm::Not(part)),
        _ => None,
    }
}

#[tactic(auto, unfolding(crate::specs::ExprForms::exists_form_of))]
fn exists_form(parts: &[Value]) -> Option<ExprForm<'_>>
    ensures { option_map form_view result ≡ exists_form_of (map view parts.now) }
{
    match parts {
        [table, key] => Some(ExprForm::Exists(ExistsForm {
            table: table.as_str()?,
            key,
        })),
        _ => None,
    }
}

#[tactic(auto, unfolding(crate::specs::ExprForms::count_form_of))]
fn count_form(parts: &[Value]) -> Option<ExprForm<'_>>
    ensures { option_map form_view result ≡ count_form_of (map view parts.now) }
{
    match parts {
        [table, number] => Some(ExprForm::Count(CountForm {
            table: table.as_str()?,
            number,
        })),
        _ => None,
    }
}

#[tactic(auto, unfolding(crate::specs::ExprForms::sum_form_of))]
fn sum_form(parts: &[Value]) -> Option<ExprForm<'_>>
    ensures { option_map form_view result ≡ sum_form_of (map view parts.now) }
{
    match parts {
        [table, number, column] => Some(ExprForm::Sum(SumForm {
            table: table.as_str()?,
            number,
            column: column.as_str()?,
        })),
        _ => None,
    }
}

#[tactic(auto, unfolding(crate::specs::ExprForms::operands_form))]
fn operands_form<'a>(word: &str, parts: &'a [Value]) -> Option<ExprForm<'a>>
    ensures { option_map form_view result ≡ operands_form word.now (map view parts.now) }
{
    match parts {
        [left, right] => Some(ExprForm::Binary(BinaryForm {
            operator: operator_of(word)?,
            left,
            right,
        })),
        _ => None,
    }
}

#[tactic(auto, unfolding(crate::specs::ExprForms::call_form))]
fn call_form<'a>(word: &str, parts: &'a [Value]) -> Option<ExprForm<'a>>
    ensures { option_map form_view result ≡ call_form word.now (map view parts.now) }
{
    match word {
        "text" => literal_form(parts),
        "not" => not_form(parts),
        "exists" => exists_form(parts),
        "count" => count_form(parts),
        "sum" => sum_form(parts),
        _ => operands_form(word, parts),
    }
}

fn calls_form(items: &[Value]) -> Option<ExprForm<'_>>
    ensures { option_map form_view result ≡ calls_form (map view items.now) }
{
    let (head, parts) = items.split_first()?;
    call_form(head.as_str()?, parts)
}

#[tactic(auto, using(crate::proofs::Arrays::form_of_array))]
fn expr_form(value: &Value) -> Option<ExprForm<'_>>
    ensures { option_map form_view result ≡ expr_form (view value.now) }
{
    match value {
        Value::Number(number) => Some(ExprForm::Number(number.as_i64()?)),
        Value::String(name) => Some(ExprForm::Variable(name.as_str())),
        Value::Array(items) => calls_form(items.as_slice()),
        _ => None,
    }
}

/// Whether an expression of that form may be in a section.
fn is_allowed(section: Section, form: &ExprForm<'_>) -> bool
    ensures { result ≡ is_allowed section (form_view form.now) }
{
    match form {
        ExprForm::Exists(_) | ExprForm::Count(_) | ExprForm::Sum(_) => section == Section::Body,
        _ => true,
    }
}

// rule: footprint.parameters
/// The form of an expression in a section, `None` of a document that has none there.
#[tactic(auto, unfolding(crate::specs::ExprForms::form_in))]
pub fn form_in(section: Section, value: &Value) -> Option<ExprForm<'_>>
    ensures { option_map form_view result ≡ form_in section (view value.now) }
{
    let form = expr_form(value)?;
    if is_allowed(section, &form) {
        Some(form)
    } else {
        None
    }
}
