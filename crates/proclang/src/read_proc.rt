//! Reading a procedure.

ghost use Rattle.std.specs.Prelude.{◌≡◌, IfOk, map};
ghost use Rattle.serde_json.specs.View.{view};
ghost use Rattle.documents.specs.Reading.{Reads};
ghost use Rattle.catalogue.specs.Reading.{is_used};
ghost use Rattle.proclang_types.specs.Procedures.{proc_syntax};
ghost use Rattle.proclang_expressions.specs.Paths.{places};
ghost use Rattle.proclang_expressions.specs.Faults.{is_memory};
ghost use Rattle.proclang_forms.specs.ProcForms.{proc_parts_of};
ghost use Rattle.proclang.specs.Procs.{parts_view, parts_at, proc_at};

use crate::read_block::read_block;
use crate::read_footprint::read_footprint;
use crate::read_params::read_params;
use catalogue::Catalogue;
use proclang_expressions::{DEEPEST, FaultKind, Path, ProcFault, Scope, check_name, fault_at};
use proclang_forms::{ProcForm, proc_form};
use proclang_types::{Param, Proc, ProcFootprint, Stmt};
use requests::Procs;
use serde_json::Value;
use std::alloc::Global;

/// What follows a procedure's name.
#[derive(Drop)]
pub(crate) struct Parts {
    params: Vec<Param>,
    footprint: ProcFootprint,
    body: Vec<Stmt>,
}

#[tactic(auto, unfolding(crate::specs::Procs::parts_at))]
fn read_parts(
    alloc: Global,
    catalogue: &Catalogue,
    path: &Path<'_>,
    form: ProcForm<'_>,
) -> Result<Parts, ProcFault>
    ensures { Reads is_memory parts_view result (parts_at catalogue.now (places path.now) (proc_parts_of form.entry)) }
{
    let params = read_params(alloc, &Path::Element(&*path, 1), form.params)?;
    let mut scope = Scope::of_params(alloc, &params)?;
    let footprint_path = Path::Element(&*path, 2);
    let footprint = read_footprint(alloc, catalogue, &scope, &footprint_path, form.footprint)?;
    let body_path = Path::Element(&*path, 3);
    let body = read_block(alloc, catalogue, &mut scope, DEEPEST, &body_path, form.body)?;
    Ok(Parts {
        params,
        footprint,
        body,
    })
}

/// Whether an earlier procedure has that name.
fn has_proc(earlier: &Procs, name: &str) -> bool
    ensures { result ≡ is_used (λ p. p.name) name.now (map proc_syntax earlier.now.procs) }
{
    earlier.has(name)
}

/// A procedure, after those before it.
#[tactic(auto, unfolding(crate::specs::Procs::proc_at))]
pub(crate) fn read_proc(
    alloc: Global,
    catalogue: &Catalogue,
    path: &Path<'_>,
    earlier: &Procs,
    value: &Value,
) -> Result<Proc, ProcFault>
    ensures exact { Reads is_memory proc_syntax result
        (proc_at catalogue.now (places path.now) (map proc_syntax earlier.now.procs) (view value.now)) }
    ensures tables { IfOk result (λ p. p.tables ≡ catalogue.now) }
{
    let Some(form) = proc_form(value) else {
        return Err(fault_at(alloc, FaultKind::Shape, path));
    };
    let name_path = Path::Element(&*path, 0);
    check_name(alloc, &name_path, form.name)?;
    if has_proc(earlier, form.name) {
        return Err(fault_at(alloc, FaultKind::DuplicateName, &name_path));
    }
    let parts = read_parts(alloc, catalogue, path, form)?;
    let name = String::from_str(alloc, form.name)?;
    let Parts {
        params,
        footprint,
        body,
    } = parts;
    let proc = Proc::new(alloc, catalogue, name, params, footprint, body)?;
    Ok(proc)
}
