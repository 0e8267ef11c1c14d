//! Reading the footprint that a procedure declares.

ghost use Rattle.std.specs.Prelude.{map};
ghost use Rattle.serde_json.specs.View.{view};
ghost use Rattle.documents.specs.Reading.{Reads};
ghost use Rattle.proclang_types.specs.Views.{int_view, entry_view, footprint_view};
ghost use Rattle.proclang_expressions.specs.Paths.{places};
ghost use Rattle.proclang_expressions.specs.Faults.{is_memory};
ghost use Rattle.proclang_forms.specs.ProcForms.{row_parts, rows_parts, part_parts, entry_form_view, footprint_form_view};
ghost use Rattle.proclang.specs.Procs.{int_at, entry_of, entry_at, each_entry, footprint_from, footprint_at};

use catalogue::Catalogue;
use proclang_expressions::{
    DEEPEST, ExprContext, FaultKind, Path, ProcFault, Scope, as_int, at_most, fault_at, read_expr,
    read_table,
};
use proclang_forms::{EntryForm, FootprintForm, Section, entry_form, footprint_form};
use proclang_types::{FootprintEntry, IntExpr, ProcFootprint, Right};
use serde_json::Value;
use std::alloc::Global;

/// An expression of type Int over the parameters, which reads no rows.
#[tactic(auto, unfolding(crate::specs::Procs::int_at))]
fn read_int(
    alloc: Global,
    catalogue: &Catalogue,
    scope: &Scope,
    path: &Path<'_>,
    value: &Value,
) -> Result<IntExpr, ProcFault>
    ensures { Reads is_memory int_view result (int_at catalogue.now (places path.now) scope.now (view value.now)) }
{
    let context = ExprContext {
        section: Section::Footprint,
        catalogue,
        scope,
        room: DEEPEST,
    };
    let expr = read_expr(alloc, context, path, value)?;
    as_int(alloc, path, expr)
}

/// An entry for the row of a key.
#[tactic(auto, unfolding(crate::specs::Procs::entry_of))]
fn read_row(
    alloc: Global,
    catalogue: &Catalogue,
    scope: &Scope,
    path: &Path<'_>,
    right: Right,
    table: &str,
    key: &Value,
) -> Result<FootprintEntry, ProcFault>
    ensures { Reads is_memory entry_view result (entry_of catalogue.now (places path.now) scope.now
        (row_parts right table.now (view key.now))) }
{
    let table = read_table(alloc, &Path::Element(&*path, 2), catalogue, table)?;
    let key = read_int(alloc, catalogue, scope, &Path::Element(&*path, 3), key)?;
    Ok(FootprintEntry::Row { right, table, key })
}

/// An entry for the rows of the keys from one to another.
#[tactic(auto, unfolding(crate::specs::Procs::entry_of))]
fn read_rows(
    alloc: Global,
    catalogue: &Catalogue,
    scope: &Scope,
    path: &Path<'_>,
    right: Right,
    table: &str,
    low: &Value,
    high: &Value,
) -> Result<FootprintEntry, ProcFault>
    ensures { Reads is_memory entry_view result (entry_of catalogue.now (places path.now) scope.now
        (rows_parts right table.now (view low.now) (view high.now))) }
{
    let table = read_table(alloc, &Path::Element(&*path, 2), catalogue, table)?;
    let low = read_int(alloc, catalogue, scope, &Path::Element(&*path, 3), low)?;
    let high = read_int(alloc, catalogue, scope, &Path::Element(&*path, 4), high)?;
    Ok(FootprintEntry::Rows {
        right,
        table,
        low,
        high,
    })
}

/// An entry for the rows of a partition.
#[tactic(auto, unfolding(crate::specs::Procs::entry_of))]
fn read_part(
    alloc: Global,
    catalogue: &Catalogue,
    scope: &Scope,
    path: &Path<'_>,
    right: Right,
    table: &str,
    part: &Value,
) -> Result<FootprintEntry, ProcFault>
    ensures { Reads is_memory entry_view result (entry_of catalogue.now (places path.now) scope.now
        (part_parts right table.now (view part.now))) }
{
    let table = read_table(alloc, &Path::Element(&*path, 2), catalogue, table)?;
    let part = read_int(alloc, catalogue, scope, &Path::Element(&*path, 3), part)?;
    Ok(FootprintEntry::Part { right, table, part })
}

#[tactic(auto, unfolding(crate::specs::Procs::entry_of))]
fn read_parts(
    alloc: Global,
    catalogue: &Catalogue,
    scope: &Scope,
    path: &Path<'_>,
    form: EntryForm<'_>,
) -> Result<FootprintEntry, ProcFault>
    ensures { Reads is_memory entry_view result (entry_of catalogue.now (places path.now) scope.now
        (entry_form_view form.entry)) }
{
    match form {
        EntryForm::Row(right, table, key) => {
            read_row(alloc, catalogue, scope, path, right, table, key)
        }
        EntryForm::Rows(right, table, low, high) => {
            read_rows(alloc, catalogue, scope, path, right, table, low, high)
        }
        EntryForm::Part(right, table, part) => {
            read_part(alloc, catalogue, scope, path, right, table, part)
        }
        EntryForm::Table(right, table) => {
            let table = read_table(alloc, &Path::Element(&*path, 2), catalogue, table)?;
            Ok(FootprintEntry::Table { right, table })
        }
        EntryForm::Db(right) => Ok(FootprintEntry::Db { right }),
    }
}

#[tactic(auto, unfolding(crate::specs::Procs::entry_at))]
fn read_entry(
    alloc: Global,
    catalogue: &Catalogue,
    scope: &Scope,
    path: &Path<'_>,
    value: &Value,
) -> Result<FootprintEntry, ProcFault>
    ensures { Reads is_memory entry_view result (entry_at catalogue.now scope.now (places path.now) (view value.now)) }
{
    let Some(form) = entry_form(value) else {
        return Err(fault_at(alloc, FaultKind::Shape, path));
    };
    read_parts(alloc, catalogue, scope, path, form)
}

fn read_each(
    alloc: Global,
    catalogue: &Catalogue,
    scope: &Scope,
    path: &Path<'_>,
    values: &[Value],
) -> Result<Vec<FootprintEntry>, ProcFault>
    ensures { Reads is_memory (λ v. map entry_view v.items) result
        (each_entry catalogue.now (places path.now) scope.now (map view values.now)) }
{
    let mut entries = Vec::new(alloc);
    for (index, value) in values.iter().enumerate() {
        let place = Path::Element(&*path, index + 1);
        entries.push(read_entry(alloc, catalogue, scope, &place, value)?)?;
    }
    Ok(entries)
}

#[tactic(auto, unfolding(crate::specs::Procs::footprint_from))]
fn read_footprint_parts(
    alloc: Global,
    catalogue: &Catalogue,
    scope: &Scope,
    path: &Path<'_>,
    form: FootprintForm<'_>,
) -> Result<ProcFootprint, ProcFault>
    ensures { Reads is_memory footprint_view result (footprint_from catalogue.now (places path.now) scope.now
        (footprint_form_view form.entry)) }
{
    match form {
        FootprintForm::Declared(values) => {
            at_most(alloc, path, 256, values)?;
            let entries = read_each(alloc, catalogue, scope, path, values)?;
            Ok(ProcFootprint::Declared(entries))
        }
        FootprintForm::Recon => Ok(ProcFootprint::Recon),
    }
}

/// The footprint that the document says, of a procedure whose parameters are seen.
#[tactic(auto, unfolding(crate::specs::Procs::footprint_at))]
pub(crate) fn read_footprint(
    alloc: Global,
    catalogue: &Catalogue,
    scope: &Scope,
    path: &Path<'_>,
    value: &Value,
) -> Result<ProcFootprint, ProcFault>
    ensures { Reads is_memory footprint_view result
        (footprint_at catalogue.now (places path.now) scope.now (view value.now)) }
{
    let Some(form) = footprint_form(value) else {
        return Err(fault_at(alloc, FaultKind::Shape, path));
    };
    read_footprint_parts(alloc, catalogue, scope, path, form)
}
