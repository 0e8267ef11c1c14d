//! Running a body.

ghost use Rattle.std.specs.Prelude.{◌≡◌, false, [], IfOk, OnOk};
ghost use Rattle.std.specs.List.{All};
ghost use Rattle.proclang_types.specs.Views.{stmts_view};
ghost use Rattle.meaning.specs.Entries.{nothing, end_of, run_of};
ghost use Rattle.meaning.specs.Outcomes.{as_reply, is_commit};
ghost use Rattle.meaning.specs.Reconnaissance.{HasKey, greatest_rights};
ghost use Rattle.workspace.specs.Overlay.{applied};
ghost use Rattle.workspace.specs.Coverage.{rule_of, OnlyCovered};
ghost use Rattle.interp.specs.Endings.{outcome_of};

use crate::block::block;
use crate::effect::Effect;
use footprint::Footprint;
use meaning::{Ending, Outcome};
use proclang_types::Stmt;
use std::alloc::Global;
use std::collections::BTreeMap;
use values::{NoMemory, Value};
use workspace::{RowView, Shown, Stop, Workspace};

/// The outcome of a run that ended before the body's end.
fn outcome_of(ending: Ending) -> Outcome
    ensures { result ≡ outcome_of ending }
{
    match ending {
        Ending::Abort(code) => Outcome::Abort(code),
        Ending::Stale => Outcome::Stale,
    }
}

/// Runs a body on the rows that it is shown, of which it asks for no other than the permit covers.
pub(crate) fn run_body<V: RowView>(
    alloc: Global,
    shown: &Shown<'_, V>,
    arguments: &[Value],
    body: &Vec<Stmt>,
) -> Result<Effect, NoMemory>
    ensures gives { IfOk result (λ effect.
        run_of nothing (rule_of shown.now.permit) (stmts_view body.now.items) arguments.now (V.rows shown.now.view.now)
        ≡ (as_reply effect.outcome, applied effect.writes.entries (V.rows shown.now.view.now))) }
    ensures covered { IfOk result (λ effect. OnlyCovered shown.now.permit effect.writes.entries) }
    ensures unchanged { IfOk result (λ effect. is_commit effect.outcome ≡ false → effect.writes.entries ≡ []) }
{
    let mut space = Workspace::new(alloc, arguments)?;
    match block(alloc, shown, &mut space, body) {
        Ok(()) => Ok(Effect {
            outcome: Outcome::Commit(space.reply),
            writes: space.writes,
        }),
        Err(Stop::Memory) => Err(NoMemory),
        Err(Stop::End(ending)) => Ok(Effect {
            outcome: outcome_of(ending),
            writes: BTreeMap::new(alloc),
        }),
    }
}

/// Runs a body on the rows that it is shown, and gives the footprint of the accesses that it recorded, up to its end,
/// however it ended.
pub(crate) fn find_footprint<V: RowView>(
    alloc: Global,
    shown: &Shown<'_, V>,
    arguments: &[Value],
    body: &Vec<Stmt>,
) -> Result<Footprint, NoMemory>
    ensures found { IfOk result (λ footprint.
        footprint ≡ greatest_rights (end_of nothing (rule_of shown.now.permit)
        (stmts_view body.now.items) arguments.now (V.rows shown.now.view.now)).1.accesses) }
    ensures keys { OnOk result (All (λ access. HasKey access.0)
        (end_of nothing (rule_of shown.now.permit)
        (stmts_view body.now.items) arguments.now (V.rows shown.now.view.now)).1.accesses) }
{
    let mut space = Workspace::new(alloc, arguments)?;
    match block(alloc, shown, &mut space, body) {
        Err(Stop::Memory) => Err(NoMemory),
        Ok(()) | Err(Stop::End(_)) => space.accesses.footprint(alloc),
    }
}
