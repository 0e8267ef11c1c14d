//! How many parts there may be.

ghost use Rattle.std.specs.Prelude.{◌≡◌, ◌<◌, ◌==◌, OnOk, length, map};
ghost use Rattle.serde_json.specs.View.{view};
ghost use Rattle.documents.specs.Reading.{Reads, rule};
ghost use Rattle.proclang_expressions.specs.Paths.{places};
ghost use Rattle.proclang_expressions.specs.Faults.{is_memory};
ghost use Rattle.proclang_expressions.specs.declared.fault.FaultKind.TheVariants.{Shape};
ghost use Rattle.proclang_expressions.specs.declared.fault.ProcFault.TheVariants.{At};
ghost use Rattle.proclang_expressions.specs.Values.{kinds_in};
ghost use Rattle.proclang_expressions.specs.Walk.{at_most};

use crate::fault::{FaultKind, ProcFault, fault_at};
use crate::path::Path;
use catalogue::Catalogue;
use serde_json::Value;
use std::alloc::Global;
use values::TableNo;

/// No more parts than `most`.
pub fn at_most(
    alloc: Global,
    path: &Path<'_>,
    most: usize,
    values: &[Value],
) -> Result<(), ProcFault>
    ensures { Reads is_memory (λ x. x) result (at_most (places path.now) most (map view values.now)) }
{
    if values.len() > most {
        return Err(fault_at(alloc, FaultKind::Limit, path));
    }
    Ok(())
}

/// As many parts as the table has columns.
#[tactic(auto, using(crate::proofs::Columns::count_of_kinds))]
pub fn as_many(
    alloc: Global,
    path: &Path<'_>,
    catalogue: &Catalogue,
    table: TableNo,
    values: &[Value],
) -> Result<(), ProcFault>
    requires { table < length catalogue.now }
    ensures exact { Reads is_memory (λ x. x) result
        (rule (length values.now == length (kinds_in catalogue.now table)) (At Shape (places path.now))) }
    ensures many { OnOk result (length values.now ≡ length (kinds_in catalogue.now table)) }
{
    if values.len() != catalogue.columns_len(table) {
        return Err(fault_at(alloc, FaultKind::Shape, path));
    }
    Ok(())
}
