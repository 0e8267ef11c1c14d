//! Reading the parameters of a procedure.

ghost use Rattle.std.specs.Prelude.{◌≡◌, string_bytes, map};
ghost use Rattle.std.specs.Str.{bytes_eq};
ghost use Rattle.std.specs.List.{list_any};
ghost use Rattle.serde_json.specs.View.{view};
ghost use Rattle.documents.specs.Reading.{Reads};
ghost use Rattle.proclang_types.specs.Procedures.{param_shape};
ghost use Rattle.proclang_expressions.specs.Paths.{places};
ghost use Rattle.proclang_expressions.specs.Faults.{is_memory};
ghost use Rattle.proclang.specs.Procs.{param_at, each_param, params_at};

use catalogue::column_form;
use proclang_expressions::{FaultKind, Path, ProcFault, at_most, check_name, fault_at};
use proclang_types::Param;
use serde_json::Value;
use std::alloc::Global;

fn has_name(params: &[Param], name: &str) -> bool
    ensures { result ≡ list_any (λ p. bytes_eq name.now (string_bytes p.name)) params.now }
{
    params.iter().any(|param| name == param.name.as_str())
}

/// A parameter, after those before it.
#[tactic(auto, using(crate::proofs::Params::used_among), unfolding(crate::specs::Procs::param_at))]
fn read_param(
    alloc: Global,
    path: &Path<'_>,
    earlier: &[Param],
    value: &Value,
) -> Result<Param, ProcFault>
    ensures { Reads is_memory param_shape result (param_at (places path.now) (map param_shape earlier.now)
        (view value.now)) }
{
    let Some((name, kind)) = column_form(value) else {
        return Err(fault_at(alloc, FaultKind::Shape, path));
    };
    let name_path = Path::Element(&*path, 0);
    check_name(alloc, &name_path, name)?;
    if has_name(earlier, name) {
        return Err(fault_at(alloc, FaultKind::DuplicateName, &name_path));
    }
    let name = String::from_str(alloc, name)?;
    Ok(Param { name, kind })
}

fn read_each(alloc: Global, path: &Path<'_>, values: &[Value]) -> Result<Vec<Param>, ProcFault>
    ensures { Reads is_memory (λ v.
        map param_shape v.items) result (each_param (places path.now) (map view values.now)) }
{
    let mut params = Vec::new(alloc);
    for (index, value) in values.iter().enumerate() {
        let param = read_param(alloc, &Path::Element(&*path, index), &params, value)?;
        params.push(param)?;
    }
    Ok(params)
}

/// The parameters, in order.
#[tactic(auto, unfolding(crate::specs::Procs::params_at))]
pub(crate) fn read_params(
    alloc: Global,
    path: &Path<'_>,
    values: &[Value],
) -> Result<Vec<Param>, ProcFault>
    ensures { Reads is_memory (λ v.
        map param_shape v.items) result (params_at (places path.now) (map view values.now)) }
{
    at_most(alloc, path, 16, values)?;
    read_each(alloc, path, values)
}
