//! The form of a line.

ghost use Rattle.std.specs.Prelude.{◌≡◌, option_map, map};
ghost use Rattle.serde_json.specs.View.{view};
ghost use Rattle.batch_log.specs.Forms.{form_view, words_form, items_form, line_form};

use documents::elements;
use serde_json::Value;

/// A line's form, before its procedure and its values are looked at.
#[derive(Clone, Copy)]
pub(crate) enum LineForm<'a> {
    Call(&'a str, &'a [Value]),
    Cut,
}

#[tactic(auto, unfolding(crate::specs::Forms::words_form))]
fn words_form<'a>(word: &str, rest: &'a [Value]) -> Option<LineForm<'a>>
    ensures { option_map form_view result ≡ words_form word.now (map view rest.now) }
{
    match rest {
        [] if word == "cut" => Some(LineForm::Cut),
        [name, values] if word == "call" => {
            Some(LineForm::Call(name.as_str()?, elements(values)?))
        }
        _ => None,
    }
}

fn items_form(items: &[Value]) -> Option<LineForm<'_>>
    ensures { option_map form_view result ≡ items_form (map view items.now) }
{
    let (head, rest) = items.split_first()?;
    words_form(head.as_str()?, rest)
}

/// The form of a line, `None` where it has none.
#[tactic(auto, unfolding(crate::specs::Forms::line_form))]
pub(crate) fn line_form(document: &Value) -> Option<LineForm<'_>>
    ensures { option_map form_view result ≡ line_form (view document.now) }
{
    items_form(elements(document)?)
}
