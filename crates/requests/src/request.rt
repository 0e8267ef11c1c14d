//! Calls of procedures.

ghost use Rattle.std.specs.Prelude.{◌≡◌, ◌↔◌, Some, None, Err, IfOk, IsSomeAnd, IsOkUnless, IsTrue, map};
ghost use Rattle.std.specs.List.{list_all, zip};
ghost use Rattle.catalogue.specs.Schemas.{HaveSameSchema};
ghost use Rattle.proclang_types.specs.Procedures.{param_shape};
ghost use Rattle.requests.specs.Requests.{fits, AreArgs};

use crate::procs::Procs;
use catalogue::Catalogue;
use proclang_types::{Param, Proc};
use std::alloc::AllocError;
use std::marker::Model;
use thiserror::Error;
use values::{ColType, Value};

/// Why a call is refused.
#[derive(Clone, Copy, Debug, PartialEq, Eq, Error)]
pub enum RequestFault {
    /// No procedure has that name.
    #[error("unknown procedure")]
    UnknownProc,
    /// There are more or fewer values than parameters, or one has another type than its parameter or is a text of more
    /// than 64 bytes.
    #[error("wrong arguments")]
    Args,
    /// The system refused memory.
    #[error("out of memory")]
    NoMemory,
}

/// Whether a parameter of that type takes the value.
fn fits(kind: ColType, value: &Value) -> bool
    ensures { result ≡ fits kind value.now }
{
    match value {
        Value::Int(_) => kind == ColType::Int,
        Value::Text(text) => kind == ColType::Text && text.as_str().len() <= 64,
    }
}

fn all_fit(params: &[Param], args: &[Value]) -> bool
    ensures { result ≡ list_all (λ p. fits p.0.kind p.1) (zip params.now args.now) }
{
    params
        .iter()
        .zip(args)
        .all(|(param, arg)| fits(param.kind, arg))
}

/// Whether the values are one a parameter, each of the parameter's type.
fn are_args(params: &[Param], args: &[Value]) -> bool
    ensures { IsTrue result ↔ AreArgs (map param_shape params.now) args.now }
{
    params.len() == args.len() && all_fit(params, args)
}

/// A call: a procedure, and one value for each of its parameters, of the parameter's type. It shares its procedure with
/// the procedures that it was made from, and with its clones.
#[derive(Drop)]
pub struct Request {
    proc: Proc,
    args: Vec<Value>,
}

impl Model for Request {
    ghost use Rattle.std.specs.Coded.{codes};
    ghost use Rattle.proclang_types.specs.contracts.expression.IntExpr as int_expr;
    ghost use Rattle.proclang_types.specs.contracts.statement.Stmt as stmt;
    ghost use Rattle.proclang_types.specs.contracts.statement.ProcFootprint as proc_footprint;
    ghost use Rattle.requests.specs.Requests.{AreArgs, Call};

    ghost Value = { Call };

    ghost coded = { Prim.hlevel (codes, int_expr.the_row.coded, stmt.the_row.coded, proc_footprint.the_row.coded) };

    ghost view = { λ r. record { proc = r.proc; args = r.args.items } };

    ghost invariant = { λ r. AreArgs r.proc.params r.args.items };
}

impl Request {
    ghost use Rattle.requests.specs.ProcLists.{proc_named};

    // rule: log.values
    /// The call of the procedure of that name with these values.
    pub fn new(procs: &Procs, name: &str, args: Vec<Value>) -> Result<Request, RequestFault>
        ensures ok { IfOk result (λ r. (proc_named procs.now.procs name.now ≡ Some r.proc) × (r.args ≡ args.items)) }
        // It is over the tables that the procedures are over.
        ensures tables { IfOk result (λ r. r.proc.tables ≡ procs.now.tables) }
        ensures unknown { (result ≡ Err RequestFault.UnknownProc) ↔ (proc_named procs.now.procs name.now ≡ None) }
        ensures args { (result ≡ Err RequestFault.Args) ↔ IsSomeAnd (proc_named procs.now.procs name.now) (λ p.
            ¬ AreArgs p.params args.items) }
        // A right call is refused for want of memory alone.
        ensures right { IsSomeAnd (proc_named procs.now.procs name.now) (λ p. AreArgs p.params args.items) →
            IsOkUnless result RequestFault.NoMemory }
    {
        let Some(proc) = procs.find(name) else {
            return Err(RequestFault::UnknownProc);
        };
        if !are_args(proc.params(), &args) {
            return Err(RequestFault::Args);
        }
        match proc.clone() {
            Ok(proc) => Ok(Request { proc, args }),
            Err(_) => Err(RequestFault::NoMemory),
        }
    }

    /// The procedure.
    pub fn proc(&self) -> &Proc
        ensures { result.now ≡ self.now.proc }
    {
        &self.proc
    }

    /// The request over another catalogue with the same tables and columns in the same order: a request that was made
    /// before tables were split anew goes on so. It takes no memory.
    pub fn over(self, catalogue: Catalogue) -> Request
        requires { HaveSameSchema self.proc.tables catalogue }
        ensures { result ≡ record self { proc = record self.proc { tables = catalogue } } }
    {
        let Request { proc, args } = self;
        Request {
            proc: proc.over(catalogue),
            args,
        }
    }

    /// The values, in the order of the parameters.
    pub fn args(&self) -> &[Value]
        ensures same { result.now ≡ self.now.args }
        ensures fit { AreArgs self.now.proc.params result.now }
    {
        self.args.as_slice()
    }
}

impl Clone for Request {
    ghost is_clone = { λ request copy. copy ≡ request };

    fn clone(&self) -> Result<Request, AllocError> {
        let proc = self.proc.clone()?;
        let args = self.args.clone()?;
        Ok(Request { proc, args })
    }
}
