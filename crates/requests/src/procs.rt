//! Procedures by name.

ghost use Rattle.std.specs.Prelude.{◌≡◌, ◌∷◌, ◌++◌, [], true, None, OnOk, OnErr, IfOk, IfSome, is_some, length, option_map};
ghost use Rattle.values.specs.Names.{is_name};
ghost use Rattle.catalogue.specs.Schemas.{HaveSameSchema};
ghost use Rattle.requests.specs.ProcLists.{AreKeyed, procs_over, proc_named, procs_of};

use catalogue::Catalogue;
use indexmap::IndexMap;
use proclang_types::Proc;
use std::alloc::Global;
use std::marker::Model;
use std::snapshot::Snapshot;
use values::NoMemory;

/// Procedures over the tables of a catalogue, by their names and in declared order. Each is well typed, its name obeys
/// the rule of names, and no two have the same.
#[derive(Drop)]
pub struct Procs {
    catalogue: Snapshot<Catalogue>,
    procs: IndexMap<String, Proc>,
}

impl Model for Procs {
    ghost use Rattle.std.specs.Coded.{codes};
    ghost use Rattle.proclang_types.specs.contracts.expression.IntExpr as int_expr;
    ghost use Rattle.proclang_types.specs.contracts.statement.Stmt as stmt;
    ghost use Rattle.proclang_types.specs.contracts.statement.ProcFootprint as proc_footprint;
    ghost use Rattle.requests.specs.ProcLists.{ProcsParts, IsProcMap, procs_of};

    ghost Value = { ProcsParts };

    ghost coded = { Prim.hlevel (codes, int_expr.the_row.coded, stmt.the_row.coded, proc_footprint.the_row.coded) };

    ghost view = { λ p. record { tables = p.catalogue.value; procs = procs_of p.procs.entries } };

    ghost invariant = { λ p. IsProcMap p.catalogue.value p.procs.entries };
}

fn find_proc<'a>(procs: &'a IndexMap<String, Proc>, name: &str) -> Option<&'a Proc>
    requires { AreKeyed procs.now.entries }
    ensures { option_map (λ p. p.now) result ≡ proc_named (procs_of procs.now.entries) name.now }
{
    procs.get(name)
}

fn push_proc(alloc: Global, procs: &mut IndexMap<String, Proc>, proc: Proc) -> Result<(), NoMemory>
    requires keyed { AreKeyed procs.old.entries }
    requires fresh { proc_named (procs_of procs.old.entries) proc.name ≡ None }
    ensures pushed { OnOk result (procs_of procs.new.entries ≡ procs_of procs.old.entries ++ proc ∷ []) }
    ensures keyed { OnOk result (AreKeyed procs.new.entries) }
    ensures same { OnErr result (procs.new.entries ≡ procs.old.entries) }
{
    let name = String::from_str(alloc, proc.name())?;
    procs.insert(name, proc)?;
    Ok(())
}

impl Procs {
    /// No procedures, over the tables of a catalogue.
    pub fn new(alloc: Global, catalogue: &Catalogue) -> Procs
        ensures { result ≡ record { tables = catalogue.now; procs = [] } }
    {
        Procs {
            catalogue: Snapshot::of(catalogue),
            procs: IndexMap::new(alloc),
        }
    }

    /// Appends a procedure over these tables, whose name obeys the rule of names and is new. If allocation fails,
    /// nothing changes.
    pub fn push(&mut self, alloc: Global, proc: Proc) -> Result<(), NoMemory>
        requires tables { proc.tables ≡ self.old.tables }
        requires name { is_name proc.name ≡ true }
        requires fresh { proc_named self.old.procs proc.name ≡ None }
        ensures pushed { OnOk result (self.new ≡ record {
          tables = self.old.tables;
          procs = self.old.procs ++ proc
              ∷ [];
        }) }
        ensures same { OnErr result (self.new ≡ self.old) }
    {
        push_proc(alloc, &mut self.procs, proc)
    }

    /// The same procedures over another catalogue with the same tables and columns in the same order.
    #[tactic(auto, using(crate::proofs::Moving::next_fresh))]
    pub fn rebuild(&self, alloc: Global, catalogue: &Catalogue) -> Result<Procs, NoMemory>
        requires { HaveSameSchema self.now.tables catalogue.now }
        ensures { IfOk result (λ procs. procs ≡ procs_over catalogue.now self.now) }
    {
        let mut procs = Procs::new(alloc, catalogue);
        for proc in self.procs.values() {
            let moved = proc.clone()?.over(catalogue.clone()?);
            procs.push(alloc, moved)?;
        }
        Ok(procs)
    }

    /// How many procedures there are, 0 to 256 of a setup.
    pub fn len(&self) -> usize
        ensures { result ≡ length self.now.procs }
    {
        self.procs.len()
    }

    /// Whether a procedure has that name.
    pub fn has(&self, name: &str) -> bool
        ensures { result ≡ is_some (proc_named self.now.procs name.now) }
    {
        self.find(name).is_some()
    }

    /// The procedure of that name, `None` exactly where none has it.
    pub(crate) fn find(&self, name: &str) -> Option<&Proc>
        ensures found { option_map (λ p. p.now) result ≡ proc_named self.now.procs name.now }
        ensures tables { IfSome result (λ p. p.now.tables ≡ self.now.tables) }
    {
        find_proc(&self.procs, name)
    }
}
