//! The footprints of calls, declared and found, and the plans for them.

ghost use Rattle.std.specs.Prelude.{◌≡◌};
ghost use Rattle.interp.specs.Touched.{ShowsEachName};

use crate::answer::Answer;
use crate::refusal::Refusal;
use crate::right::has_digest;
use crate::stored_bank::{bank, batch_with};
use crate::texts::{FOUND_CALL, PLANS};
use catalogue::Catalogue;
use coarsen::Plan;
use footprint::Footprint;
use interp::{RowView, recon};
use report_text::push_plan;
use requests::{Procs, Request};
use row_store::{RowStore, all_is_free_with_nothing_lent};
use sequencer::{Entry, prepare};
use setup::Setup;
use std::alloc::Global;
use values::{Key, Row, TableNo, Text, Value};

/// The entries of the log's calls and of one whose footprint is found, on these rows. If allocation fails, they are
/// made again.
fn entries_on(
    alloc: Global,
    refusal: &mut Refusal,
    catalogue: &Catalogue,
    procs: &Procs,
    rows: Vec<(TableNo, Key, Row)>,
) -> Option<(Answer, Vec<Entry>)>
    requires { procs.now.tables ≡ catalogue.now }
{
    let batch = batch_with(alloc, procs, FOUND_CALL)?;
    let store = RowStore::new(alloc, catalogue, rows).ok()?;
    all_is_free_with_nothing_lent();
    let mut answer = Answer::Right;
    refusal.approach();
    let mut made = prepare(alloc, &batch, catalogue, procs, &store);
    if made.is_err() {
        answer = Answer::Refused;
        made = prepare(alloc, &batch, catalogue, procs, &store);
    }
    refusal.pass();
    Some((answer, made.ok()?))
}

/// The same on the starting rows, and the catalogue.
fn entries_of_bank(
    alloc: Global,
    refusal: &mut Refusal,
) -> Option<(Answer, Catalogue, Vec<Entry>)> {
    let Setup {
        catalogue,
        procs,
        rows,
        retries: _,
    } = bank(alloc)?;
    let (answer, entries) = entries_on(alloc, refusal, &catalogue, &procs, rows)?;
    Some((answer, catalogue, entries))
}

/// Appends the plan for the footprint of each entry. If allocation fails, it is made again.
fn plan_all(alloc: Global, entries: &[Entry], plans: &mut Vec<Plan>) -> Answer {
    let mut answer = Answer::Right;
    for entry in entries {
        let Some(footprint) = entry.footprint() else {
            return Answer::Wrong;
        };
        let mut made = Plan::new(alloc, footprint, 64, 65_536);
        if made.is_err() {
            answer = Answer::Refused;
            made = Plan::new(alloc, footprint, 64, 65_536);
        }
        let Ok(plan) = made else {
            return Answer::Wrong;
        };
        if plans.push(plan).is_err() {
            return Answer::Wrong;
        }
    }
    answer
}

/// The footprint that reconnaissance finds for a request. If allocation fails, it is found again.
fn found_for<V: RowView>(
    alloc: Global,
    catalogue: &Catalogue,
    request: &Request,
    view: &V,
) -> Option<(Answer, Footprint)>
    requires tables { request.now.proc.tables ≡ catalogue.now }
    requires view { V.tables view.now ≡ catalogue.now }
    requires shows { ShowsEachName (V.shows view.now) }
{
    if let Ok(footprint) = recon(alloc, catalogue, request.proc(), request.args(), view) {
        return Some((Answer::Right, footprint));
    }
    let footprint = recon(alloc, catalogue, request.proc(), request.args(), view).ok()?;
    Some((Answer::Refused, footprint))
}

/// The footprint that reconnaissance finds for the call that has its footprint found, on these rows.
fn found_on(
    alloc: Global,
    refusal: &mut Refusal,
    catalogue: &Catalogue,
    procs: &Procs,
    rows: Vec<(TableNo, Key, Row)>,
) -> Option<(Answer, Footprint)>
    requires { procs.now.tables ≡ catalogue.now }
{
    let text = Value::Text(Text::new(alloc, "x").ok()?);
    let request = Request::new(procs, "renew", vec![in alloc; text].ok()?).ok()?;
    let store = RowStore::new(alloc, catalogue, rows).ok()?;
    all_is_free_with_nothing_lent();
    refusal.approach();
    let found = found_for(alloc, catalogue, &request, &store);
    refusal.pass();
    found
}

/// The same on the starting rows.
fn found_of_bank(alloc: Global, refusal: &mut Refusal) -> Option<(Answer, Footprint)> {
    let Setup {
        catalogue,
        procs,
        rows,
        retries: _,
    } = bank(alloc)?;
    found_on(alloc, refusal, &catalogue, &procs, rows)
}

/// Whether these are the plans of the calls.
fn are_plans(alloc: Global, catalogue: &Catalogue, plans: &[Plan]) -> Option<bool> {
    let mut text = String::new(alloc);
    let mut number = 0u64;
    for plan in plans {
        push_plan(&mut text, catalogue, number, plan).ok()?;
        number = number.saturating_add(1);
    }
    has_digest(alloc, text.as_str(), PLANS)
}

/// The footprint of each call. Where it is another, so is its plan.
pub fn try_prepare(alloc: Global, refusal: &mut Refusal) -> Option<Answer> {
    let (answer, catalogue, entries) = entries_of_bank(alloc, refusal)?;
    let mut plans = Vec::new(alloc);
    if plan_all(alloc, &entries, &mut plans) != Answer::Right {
        return None;
    }
    Some(answer.if_right(are_plans(alloc, &catalogue, &plans)?))
}

/// The plan for the footprint of each call.
pub fn try_plan(alloc: Global, refusal: &mut Refusal) -> Option<Answer> {
    let mut elsewhere = Refusal::elsewhere(alloc);
    let (_, catalogue, entries) = entries_of_bank(alloc, &mut elsewhere)?;
    let mut plans = Vec::with_capacity(alloc, entries.len()).ok()?;
    refusal.approach();
    let answer = plan_all(alloc, &entries, &mut plans);
    refusal.pass();
    Some(answer.if_right(are_plans(alloc, &catalogue, &plans)?))
}

/// The place of the call whose footprint is found, between the halves of the log.
const FOUND: usize = 50;

/// The footprint that reconnaissance finds. Its plan is among those of the calls.
pub fn try_recon(alloc: Global, refusal: &mut Refusal) -> Option<Answer> {
    let (answer, footprint) = found_of_bank(alloc, refusal)?;
    let plan = Plan::new(alloc, &footprint, 64, 65_536).ok()?;
    let mut elsewhere = Refusal::elsewhere(alloc);
    let (_, catalogue, entries) = entries_of_bank(alloc, &mut elsewhere)?;
    let mut plans = Vec::new(alloc);
    if plan_all(alloc, &entries, &mut plans) != Answer::Right {
        return None;
    }
    *plans.get_mut(FOUND)? = plan;
    Some(answer.if_right(are_plans(alloc, &catalogue, &plans)?))
}
