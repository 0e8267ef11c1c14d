//! The procedures of a setup.

ghost use Rattle.std.specs.Prelude.{◌≡◌, ◌⊎◌, List, Some, Ok, map, IfOk, IfErr, OnOk, IsOkUnless, []};
ghost use Rattle.serde_json.specs.View.{view};
ghost use Rattle.documents.specs.FirstFault.{first};
ghost use Rattle.documents.specs.Reading.{Reads};
ghost use Rattle.proclang_types.specs.Procedures.{proc_syntax};
ghost use Rattle.proclang_types.specs.Syntax.{ProcSyntax};
ghost use Rattle.proclang.specs.BrokenProcs.{procedures_faults};
ghost use Rattle.proclang.specs.Says.{SaysProcs};
ghost use Rattle.proclang_expressions.specs.declared.fault.ProcFault.TheVariants.{Memory};
ghost use Rattle.proclang_expressions.specs.Paths.{places};
ghost use Rattle.proclang_expressions.specs.Faults.{is_memory};
ghost use Rattle.proclang.specs.Procs.{each_proc, procs_at};
ghost use Rattle.requests.specs.ProcLists.{AreOver, AreProcs};

use crate::read_proc::read_proc;
use catalogue::Catalogue;
use documents::versioned_list;
use proclang_expressions::{FaultKind, Path, ProcFault, at_most, fault_at};
use requests::Procs;
use serde_json::Value;
use std::alloc::Global;

fn read_each(
    alloc: Global,
    catalogue: &Catalogue,
    path: &Path<'_>,
    values: &[Value],
) -> Result<Procs, ProcFault>
    ensures exact { Reads is_memory (λ p. map proc_syntax p.procs) result
        (each_proc catalogue.now (places path.now) (map view values.now)) }
    ensures tables { IfOk result (λ p. p.tables ≡ catalogue.now) }
    ensures over { IfOk result (λ p. AreOver catalogue.now p.procs) }
{
    let mut procs = Procs::new(alloc, catalogue);
    for (index, value) in values.iter().enumerate() {
        let path = Path::Element(&*path, index);
        let proc = read_proc(alloc, catalogue, &path, &procs, value)?;
        procs.push(alloc, proc)?;
    }
    Ok(procs)
}

#[tactic(auto, unfolding(crate::specs::Procs::procs_at))]
fn read_document(alloc: Global, document: &Value, catalogue: &Catalogue) -> Result<Procs, ProcFault>
    ensures tables { IfOk result (λ p. p.tables ≡ catalogue.now) }
    ensures sound { IfOk result (λ p. AreProcs p.tables p.procs) }
    ensures exact { Reads is_memory (λ p. map proc_syntax p.procs) result (procs_at catalogue.now (view document.now)) }
{
    let Some(values) = versioned_list("procs", document) else {
        return Err(fault_at(alloc, FaultKind::Shape, &Path::Document));
    };
    let path = Path::Element(&Path::Document, 2);
    at_most(alloc, &path, 256, values)?;
    let procs = read_each(alloc, catalogue, &path, values)?;
    Ok(procs)
}

// rule: procedure.form
/// The procedures of a document `["procs", 1, [PROC ..]]` over the tables of a catalogue, or the first rule that the
/// document breaks, with the path to where it does.
pub fn read_procs(
    alloc: Global,
    document: &Value,
    catalogue: &Catalogue,
) -> Result<Procs, ProcFault>
    // What is read is over the catalogue's tables, with names that obey the rule and that differ.
    ensures tables { IfOk result (λ p. p.tables ≡ catalogue.now) }
    ensures sound { IfOk result (λ p. AreProcs p.tables p.procs) }
    // What is read is what the document says.
    ensures found { IfOk result (λ p. SaysProcs catalogue.now (view document.now) (map proc_syntax p.procs)) }
    // Procedures that the document says are what is read, unless memory runs out.
    ensures only { (ps : List ProcSyntax) → SaysProcs catalogue.now (view document.now) ps →
        Reads is_memory (λ p. map proc_syntax p.procs) result (Ok ps) }
    // The fault is the first rule that the document breaks, with its path.
    ensures first { IfErr result (λ e. (e ≡ Memory) ⊎
        (first (procedures_faults catalogue.now (view document.now)) ≡ Some e)) }
    // A document that is read breaks no rule, and one that breaks none is read, unless memory runs out.
    ensures unbroken { OnOk result (procedures_faults catalogue.now (view document.now) ≡ []) }
    ensures none { procedures_faults catalogue.now (view document.now) ≡ [] → IsOkUnless result Memory }
    ensures exact { Reads is_memory (λ p. map proc_syntax p.procs) result (procs_at catalogue.now (view document.now)) }
{
    match read_document(alloc, document, catalogue) {
        Ok(procs) => Ok(procs),
        Err(fault) => Err(fault),
    }
}
