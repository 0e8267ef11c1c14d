//! The lines of a plan, one for each lock request.

ghost use Rattle.std.specs.Prelude.{◌≡◌, ◌++◌, OnOk, string_bytes};
ghost use Rattle.report_text.specs.PlanTexts.{in_part_text, in_table_text, mode_word, plan_lines, request_line, request_lines, resource_text};

use catalogue::Catalogue;
use coarsen::Plan;
use footprint::{InPart, InTable, Resource};
use modes::Mode;
use row_text::push_table_name;
use std::alloc::AllocError;

#[tactic(auto, unfolding(crate::specs::PlanTexts::mode_word))]
fn mode_word(mode: Mode) -> &'static str
    ensures { result.now ≡ mode_word mode }
{
    match mode {
        Mode::IntentionShared => "IS",
        Mode::IntentionExclusive => "IX",
        Mode::Shared => "S",
        Mode::SharedIntentionExclusive => "SIX",
        Mode::Exclusive => "X",
    }
}

#[tactic(auto, unfolding(crate::specs::PlanTexts::in_part_text))]
fn push_in_part(text: &mut String, below: InPart) -> Result<(), AllocError>
    ensures { OnOk result (string_bytes text.new ≡ string_bytes text.old ++ in_part_text below) }
{
    match below {
        InPart::WholePart => Ok(()),
        InPart::Row(key) => write!(text, "/{key}"),
    }
}

#[tactic(auto, unfolding(crate::specs::PlanTexts::in_table_text))]
fn push_in_table(text: &mut String, below: InTable) -> Result<(), AllocError>
    ensures { OnOk result (string_bytes text.new ≡ string_bytes text.old ++ in_table_text below) }
{
    match below {
        InTable::WholeTable => Ok(()),
        InTable::Part(part, below) => {
            write!(text, "/{part}")?;
            push_in_part(text, below)
        }
    }
}

#[tactic(auto, unfolding(crate::specs::PlanTexts::resource_text))]
fn push_resource(
    text: &mut String,
    catalogue: &Catalogue,
    resource: Resource,
) -> Result<(), AllocError>
    ensures { OnOk result (string_bytes text.new ≡ string_bytes text.old ++ resource_text catalogue.now resource) }
{
    match resource {
        Resource::Db => text.push_str("db"),
        Resource::Table(table, below) => {
            push_table_name(text, catalogue, table)?;
            push_in_table(text, below)
        }
    }
}

#[tactic(auto, unfolding(crate::specs::PlanTexts::request_line))]
fn push_request(
    text: &mut String,
    catalogue: &Catalogue,
    no: u64,
    request: (Resource, Mode),
) -> Result<(), AllocError>
    ensures { OnOk result (string_bytes text.new ≡ string_bytes text.old ++ request_line catalogue.now no request) }
{
    let (resource, mode) = request;
    let word = mode_word(mode);
    write!(text, "{no} {word} ")?;
    push_resource(text, catalogue, resource)?;
    text.push_str("\n")
}

fn push_requests(
    text: &mut String,
    catalogue: &Catalogue,
    no: u64,
    requests: &[(Resource, Mode)],
) -> Result<(), AllocError>
    ensures { OnOk result (string_bytes text.new ≡ string_bytes text.old
        ++ request_lines catalogue.now no requests.now) }
{
    for request in requests {
        push_request(text, catalogue, no, *request)?;
    }
    Ok(())
}

/// Appends the lines of a transaction's plan: `NO MODE RESOURCE` for each request in tree order, with the names of the
/// catalogue's tables, or `NO none` for a plan without requests.
#[tactic(auto, unfolding(crate::specs::PlanTexts::plan_lines))]
pub fn push_plan(
    text: &mut String,
    catalogue: &Catalogue,
    no: u64,
    plan: &Plan,
) -> Result<(), AllocError>
    ensures { OnOk result (string_bytes text.new ≡ string_bytes text.old ++ plan_lines catalogue.now no plan.now) }
{
    let requests = plan.requests();
    if requests.is_empty() {
        writeln!(text, "{no} none")
    } else {
        push_requests(text, catalogue, no, requests)
    }
}
