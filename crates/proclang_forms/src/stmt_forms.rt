//! One level of a statement, before its parts are read.

ghost use Rattle.std.specs.Prelude.{◌≡◌, option_map, map};
ghost use Rattle.serde_json.specs.View.{view};
ghost use Rattle.proclang_forms.specs.StmtForms.{stmt_form_view, let_form, get_form, put_form, insert_form, delete_form, if_form, for_form, each_form, abort_form, word_form, words_form, statement_form};

use documents::elements;
use serde_json::Value;

/// `["let", NAME, VALUE]`
#[derive(Clone, Copy)]
pub struct LetForm<'a> {
    pub variable: &'a str,
    pub value: &'a Value,
}

/// `["get", NAME, TABLE, KEY, COLUMN]`
#[derive(Clone, Copy)]
pub struct GetForm<'a> {
    pub variable: &'a str,
    pub table: &'a str,
    pub key: &'a Value,
    pub column: &'a str,
}

/// `["put", TABLE, KEY, COLUMN, VALUE]`
#[derive(Clone, Copy)]
pub struct PutForm<'a> {
    pub table: &'a str,
    pub key: &'a Value,
    pub column: &'a str,
    pub value: &'a Value,
}

/// `["insert", TABLE, KEY, [VALUE ..]]`
#[derive(Clone, Copy)]
pub struct InsertForm<'a> {
    pub table: &'a str,
    pub key: &'a Value,
    pub values: &'a [Value],
}

/// `["delete", TABLE, KEY]`
#[derive(Clone, Copy)]
pub struct DeleteForm<'a> {
    pub table: &'a str,
    pub key: &'a Value,
}

/// `["if", TEST, [STATEMENT ..], [STATEMENT ..]]`
#[derive(Clone, Copy)]
pub struct IfForm<'a> {
    pub test: &'a Value,
    pub first: &'a Value,
    pub second: &'a Value,
}

/// `["for", NAME, LOW, HIGH, [STATEMENT ..]]`
#[derive(Clone, Copy)]
pub struct ForForm<'a> {
    pub variable: &'a str,
    pub low: &'a Value,
    pub high: &'a Value,
    pub body: &'a Value,
}

/// `["each", NAME, TABLE, PART, [STATEMENT ..]]`
#[derive(Clone, Copy)]
pub struct EachForm<'a> {
    pub variable: &'a str,
    pub table: &'a str,
    /// The partition's number.
    pub number: &'a Value,
    pub body: &'a Value,
}

/// One level of a statement.
#[derive(Clone, Copy)]
pub enum StmtForm<'a> {
    Let(LetForm<'a>),
    Get(GetForm<'a>),
    Put(PutForm<'a>),
    Insert(InsertForm<'a>),
    Delete(DeleteForm<'a>),
    If(IfForm<'a>),
    For(ForForm<'a>),
    Each(EachForm<'a>),
    /// `["abort", CODE]`, with a whole number in the signed 64-bit range.
    Abort(i64),
    /// `["reply", VALUE ..]`
    Reply(&'a [Value]),
}

#[tactic(auto, unfolding(crate::specs::StmtForms::let_form))]
fn let_form(parts: &[Value]) -> Option<StmtForm<'_>>
    ensures { option_map stmt_form_view result ≡ let_form (map view parts.now) }
{
    match parts {
        [variable, value] => Some(StmtForm::Let(LetForm {
            variable: variable.as_str()?,
            value,
        })),
        _ => None,
    }
}

#[tactic(auto, unfolding(crate::specs::StmtForms::get_form))]
fn get_form(parts: &[Value]) -> Option<StmtForm<'_>>
    ensures { option_map stmt_form_view result ≡ get_form (map view parts.now) }
{
    match parts {
        [variable, table, key, column] => Some(StmtForm::Get(GetForm {
            variable: variable.as_str()?,
            table: table.as_str()?,
            key,
            column: column.as_str()?,
        })),
        _ => None,
    }
}

#[tactic(auto, unfolding(crate::specs::StmtForms::put_form))]
fn put_form(parts: &[Value]) -> Option<StmtForm<'_>>
    ensures { option_map stmt_form_view result ≡ put_form (map view parts.now) }
{
    match parts {
        [table, key, column, value] => Some(StmtForm::Put(PutForm {
            table: table.as_str()?,
            key,
            column: column.as_str()?,
            value,
        })),
        _ => None,
    }
}

#[tactic(auto, unfolding(crate::specs::StmtForms::insert_form))]
fn insert_form(parts: &[Value]) -> Option<StmtForm<'_>>
    ensures { option_map stmt_form_view result ≡ insert_form (map view parts.now) }
{
    match parts {
        [table, key, values] => Some(StmtForm::Insert(InsertForm {
            table: table.as_str()?,
            key,
            values: elements(values)?,
        })),
        _ => None,
    }
}

#[tactic(auto, unfolding(crate::specs::StmtForms::delete_form))]
fn delete_form(parts: &[Value]) -> Option<StmtForm<'_>>
    ensures { option_map stmt_form_view result ≡ delete_form (map view parts.now) }
{
    match parts {
        [table, key] => Some(StmtForm::Delete(DeleteForm {
            table: table.as_str()?,
            key,
        })),
        _ => None,
    }
}

#[tactic(auto, unfolding(crate::specs::StmtForms::if_form))]
fn if_form(parts: &[Value]) -> Option<StmtForm<'_>>
    ensures { option_map stmt_form_view result ≡ if_form (map view parts.now) }
{
    match parts {
        [test, first, second] => Some(StmtForm::If(IfForm {
            test,
            first,
            second,
        })),
        _ => None,
    }
}

#[tactic(auto, unfolding(crate::specs::StmtForms::for_form))]
fn for_form(parts: &[Value]) -> Option<StmtForm<'_>>
    ensures { option_map stmt_form_view result ≡ for_form (map view parts.now) }
{
    match parts {
        [variable, low, high, body] => Some(StmtForm::For(ForForm {
            variable: variable.as_str()?,
            low,
            high,
            body,
        })),
        _ => None,
    }
}

#[tactic(auto, unfolding(crate::specs::StmtForms::each_form))]
fn each_form(parts: &[Value]) -> Option<StmtForm<'_>>
    ensures { option_map stmt_form_view result ≡ each_form (map view parts.now) }
{
    match parts {
        [variable, table, number, body] => Some(StmtForm::Each(EachForm {
            variable: variable.as_str()?,
            table: table.as_str()?,
            number,
            body,
        })),
        _ => None,
    }
}

#[tactic(auto, unfolding(crate::specs::StmtForms::abort_form))]
fn abort_form(parts: &[Value]) -> Option<StmtForm<'_>>
    ensures { option_map stmt_form_view result ≡ abort_form (map view parts.now) }
{
    match parts {
        [code] => Some(StmtForm::Abort(code.as_i64()?)),
        _ => None,
    }
}

#[tactic(auto, unfolding(crate::specs::StmtForms::word_form))]
fn word_form<'a>(word: &str, parts: &'a [Value]) -> Option<StmtForm<'a>>
    ensures { option_map stmt_form_view result ≡ word_form word.now (map view parts.now) }
{
    match word {
        "let" => let_form(parts),
        "get" => get_form(parts),
        "put" => put_form(parts),
        "insert" => insert_form(parts),
        "delete" => delete_form(parts),
        "if" => if_form(parts),
        "for" => for_form(parts),
        "each" => each_form(parts),
        "abort" => abort_form(parts),
        "reply" => Some(StmtForm::Reply(parts)),
        _ => None,
    }
}

fn words_form(items: &[Value]) -> Option<StmtForm<'_>>
    ensures { option_map stmt_form_view result ≡ words_form (map view items.now) }
{
    let (head, parts) = items.split_first()?;
    word_form(head.as_str()?, parts)
}

/// The form of a statement, `None` of a document that has none.
#[tactic(auto, unfolding(crate::specs::StmtForms::statement_form))]
pub fn statement_form(value: &Value) -> Option<StmtForm<'_>>
    ensures { option_map stmt_form_view result ≡ statement_form (view value.now) }
{
    words_form(elements(value)?)
}
