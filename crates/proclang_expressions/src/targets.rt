//! Variables that get a value, and the variables of loops.

ghost use Rattle.documents.specs.Reading.{Reads};
ghost use Rattle.proclang_expressions.specs.Paths.{places};
ghost use Rattle.proclang_expressions.specs.Faults.{is_memory};
ghost use Rattle.proclang_expressions.specs.Targets.{target_at, bound, loop_name_at};

use crate::fault::{FaultKind, ProcFault, fault_at};
use crate::names::check_name;
use crate::path::Path;
use crate::scope::{Declaration, Found, Scope};
use std::alloc::Global;
use values::ColType;

// rule: variable.fixed
/// The variable that is to get a value, `None` where it is a new one.
pub fn read_target(
    alloc: Global,
    path: &Path<'_>,
    scope: &Scope,
    name: &str,
) -> Result<Option<Found>, ProcFault>
    ensures { Reads is_memory (λ v. v) result (target_at (places path.now) scope.now name.now) }
{
    let Some(variable) = scope.find(name) else {
        check_name(alloc, path, name)?;
        return Ok(None);
    };
    if variable.declaration != Declaration::Statement {
        return Err(fault_at(alloc, FaultKind::DuplicateName, path));
    }
    Ok(Some(variable))
}

// rule: variable.changed
/// The place of the variable that gets a value of that type, which is declared where it is a new one.
pub fn bind(
    alloc: Global,
    path: &Path<'_>,
    scope: &mut Scope,
    name: &str,
    kind: ColType,
    target: Option<Found>,
) -> Result<usize, ProcFault>
    ensures { Reads is_memory (λ place.
        (place, scope.new)) result (bound (places path.now) scope.old name.now kind target) }
{
    let Some(variable) = target else {
        let place = scope.len();
        let name = String::from_str(alloc, name)?;
        scope.declare(name, kind, Declaration::Statement)?;
        return Ok(place);
    };
    if variable.kind != kind {
        return Err(fault_at(alloc, FaultKind::TypeMismatch, path));
    }
    Ok(variable.place)
}

// rule: variable.loop
/// The name of a loop's variable is a new one.
pub fn read_loop_name(
    alloc: Global,
    path: &Path<'_>,
    scope: &Scope,
    name: &str,
) -> Result<(), ProcFault>
    ensures { Reads is_memory (λ x. x) result (loop_name_at (places path.now) scope.now name.now) }
{
    if scope.find(name).is_some() {
        return Err(fault_at(alloc, FaultKind::DuplicateName, path));
    }
    check_name(alloc, path, name)
}
