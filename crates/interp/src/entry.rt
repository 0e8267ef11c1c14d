//! What is run.

ghost use Rattle.std.specs.Prelude.{◌≡◌, IfOk, option_copied};
ghost use Rattle.meaning.specs.Entries.{footprint_of};

use footprint::{AbortCode, Footprint};
use requests::Request;
use std::alloc::{AllocError, Global};
use std::marker::Model;
use std::sync::Arc;
use values::NoMemory;

/// What an entry may touch.
#[derive(Drop)]
pub enum Footing {
    /// The footprint that its procedure declares.
    Declared(Footprint),
    /// The abort of the first fault in its procedure's declaration. It may touch nothing.
    Faulting(AbortCode),
    /// A footprint that reconnaissance found.
    Found(Footprint),
}

/// A request and its footing.
#[derive(Drop)]
struct Parts {
    request: Request,
    footing: Footing,
}

/// A request with its footing, ready to run. It is a handle, and its clones share both.
#[derive(Drop)]
pub struct Entry {
    parts: Arc<Parts>,
}

impl Model for Entry {
    ghost use Rattle.std.specs.Arc.{arc_value};
    ghost use Rattle.std.specs.Coded.{codes};
    ghost use Rattle.proclang_types.specs.contracts.expression.IntExpr as int_expr;
    ghost use Rattle.proclang_types.specs.contracts.statement.Stmt as stmt;
    ghost use Rattle.footprint.specs.contracts.footprint.Footprint as touched;
    ghost use Rattle.interp.specs.Entries.{EntryParts};

    ghost Value = { EntryParts };

    ghost coded = { Prim.hlevel (codes, int_expr.the_row.coded, stmt.the_row.coded, touched.the_row.coded) };

    ghost view = { λ e. record { request = (arc_value e.parts).request; footing = (arc_value e.parts).footing } };
}

impl Clone for Entry {
    ghost is_clone = { λ entry copy. copy ≡ entry };

    fn clone(&self) -> Result<Entry, AllocError> {
        let parts = self.parts.clone()?;
        Ok(Entry { parts })
    }
}

impl Entry {
    ghost use Rattle.proclang_types.specs.Procedures.{proc_syntax};
    ghost use Rattle.meaning.specs.Fitting.{IsCallOf};
    ghost use Rattle.interp.specs.Entries.{entry_shape, footing_shape};

    /// The request with that footing.
    pub fn new(alloc: Global, request: Request, footing: Footing) -> Result<Entry, NoMemory>
        ensures { IfOk result (λ entry. entry ≡ record { request = request; footing = footing }) }
    {
        let parts = Arc::new(alloc, Parts { request, footing })?;
        Ok(Entry { parts })
    }

    /// The request.
    pub fn request(&self) -> &Request
        ensures { result.now ≡ self.now.request }
    {
        &self.parts.request
    }

    /// The footing.
    pub fn footing(&self) -> &Footing
        ensures { result.now ≡ self.now.footing }
    {
        &self.parts.footing
    }

    /// The footprint, declared or found; `None` exactly where the declaration faults.
    pub fn footprint(&self) -> Option<&Footprint>
        ensures { option_copied result ≡ footprint_of (footing_shape self.now.footing) }
    {
        match self.footing() {
            Footing::Declared(footprint) | Footing::Found(footprint) => Some(footprint),
            Footing::Faulting(_) => None,
        }
    }

    /// It is a call of its procedure, which fits its tables, and its arguments fit the parameters.
    pub(crate) fn is_call(&self)
        ensures { IsCallOf (proc_syntax self.now.request.proc) (entry_shape self.now) }
    {
        // proof: the parts of the request, and what is known of them.
        let request = self.request();
        let _body = request.proc().body();
        let _args = request.args();
    }
}
