//! Procedures.

ghost use Rattle.std.specs.Prelude.{◌≡◌, map, string_bytes, IfOk};
ghost use Rattle.catalogue.specs.Schemas.{HaveSameSchema};
ghost use Rattle.proclang_types.specs.Procedures.{proc_syntax, param_shape, ProcParts};
ghost use Rattle.proclang_types.specs.Typing.{ProcFits};

use crate::cost::Cost;
use crate::statement::{ProcFootprint, Stmt};
use catalogue::Catalogue;
use std::alloc::{AllocError, Global};
use std::marker::Model;
use std::sync::Arc;
use values::{ColType, NoMemory};

/// A parameter of a procedure.
#[derive(Debug, Drop)]
pub struct Param {
    pub name: String,
    pub kind: ColType,
}

/// What a procedure has beside its tables.
#[derive(Drop)]
struct Parts {
    name: String,
    params: Vec<Param>,
    footprint: ProcFootprint,
    body: Vec<Stmt>,
    /// What a call costs, reckoned from the two above.
    cost: Cost,
}

/// A procedure over the tables of a catalogue: its name, its parameters, how the footprint of its calls is known, and
/// its body. Its footprint and its body are well typed and well scoped: each variable, table and column that they name
/// is there and has the type that is asked for. It is a handle, and its clones share all that it has.
#[derive(Drop)]
pub struct Proc {
    catalogue: Catalogue,
    parts: Arc<Parts>,
}

impl Model for Proc {
    ghost use Rattle.std.specs.Arc.{arc_value};
    ghost use Rattle.proclang_types.specs.Procedures.{ProcParts, proc_parts, proc_syntax};
    ghost use Rattle.proclang_types.specs.Typing.{ProcFits};
    ghost use Rattle.proclang_types.specs.contracts.expression.IntExpr as int_expr;
    ghost use Rattle.proclang_types.specs.contracts.statement.Stmt as stmt;
    ghost use Rattle.proclang_types.specs.contracts.statement.ProcFootprint as proc_footprint;
    ghost use Rattle.std.specs.Coded.{codes};

    ghost Value = { ProcParts };

    ghost coded = { Prim.hlevel (codes, int_expr.the_row.coded, stmt.the_row.coded, proc_footprint.the_row.coded) };

    ghost view = { λ p. proc_parts p.catalogue (arc_value p.parts) };

    ghost invariant = { λ p. ProcFits p.catalogue (proc_syntax (proc_parts p.catalogue (arc_value p.parts))) };
}

impl Clone for Proc {
    ghost is_clone = { λ proc copy. copy ≡ proc };

    fn clone(&self) -> Result<Proc, AllocError> {
        let catalogue = self.catalogue.clone()?;
        let parts = self.parts.clone()?;
        Ok(Proc { catalogue, parts })
    }
}

impl Proc {
    ghost use Rattle.proclang_types.specs.Syntax.{is_recon};

    /// The procedure with these parts.
    pub fn new(
        alloc: Global,
        catalogue: &Catalogue,
        name: String,
        params: Vec<Param>,
        footprint: ProcFootprint,
        body: Vec<Stmt>,
    ) -> Result<Proc, NoMemory>
        requires { ProcFits catalogue.now
            (proc_syntax (record {
              tables = catalogue.now;
              name = string_bytes name;
              params = map param_shape
                  params.items;
              footprint = footprint;
              body = body.items;
            })) }
        ensures { IfOk result (λ proc.
            proc ≡ record {
              tables = catalogue.now;
              name = string_bytes name;
              params = map param_shape
                  params.items;
              footprint = footprint;
              body = body.items;
            }) }
    {
        let cost = Cost::of(&footprint, &body);
        let parts = Parts {
            name,
            params,
            footprint,
            body,
            cost,
        };
        let parts = Arc::new(alloc, parts)?;
        let catalogue = catalogue.clone()?;
        Ok(Proc { catalogue, parts })
    }

    /// The procedure over another catalogue with the same tables and columns in the same order: what it says depends on
    /// no split.
    pub fn over(self, catalogue: Catalogue) -> Proc
        requires { HaveSameSchema self.tables catalogue }
        ensures { result ≡ record self { tables = catalogue } }
    {
        Proc {
            catalogue,
            parts: self.parts,
        }
    }

    /// The procedure's name.
    pub fn name(&self) -> &str
        ensures { result.now ≡ self.now.name }
    {
        self.parts.name.as_str()
    }

    /// The parameters, in order: they are the first variables of the body.
    pub fn params(&self) -> &[Param]
        ensures { map param_shape result.now ≡ self.now.params }
    {
        self.parts.params.as_slice()
    }

    /// How the footprint of a call is known.
    pub fn footprint(&self) -> &ProcFootprint
        ensures same { result.now ≡ self.now.footprint }
        ensures fits { ProcFits self.now.tables (proc_syntax self.now) }
    {
        &self.parts.footprint
    }

    /// Whether reconnaissance finds the footprint of each call.
    pub fn is_recon(&self) -> bool
        ensures { result ≡ is_recon (proc_syntax self.now).footprint }
    {
        matches!(self.parts.footprint, ProcFootprint::Recon)
    }

    /// The statements of the body, in order.
    pub fn body(&self) -> &Vec<Stmt>
        ensures same { result.now.items ≡ self.now.body }
        ensures fits { ProcFits self.now.tables (proc_syntax self.now) }
    {
        &self.parts.body
    }

    /// What a call costs at most, for whoever decides where to run it. Nothing is proved of it.
    pub fn cost(&self) -> Cost {
        self.parts.cost
    }
}
