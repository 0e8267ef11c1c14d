//! Declared footprints.

ghost use Rattle.std.specs.Prelude.{◌≡◌, false, pos, IfOk, map, slice_get};
ghost use Rattle.std.specs.List.{AllByRecursion};
ghost use Rattle.proclang_types.specs.Views.{int_view, entry_view};
ghost use Rattle.proclang_types.specs.Procedures.{proc_syntax};
ghost use Rattle.proclang_types.specs.Syntax.{declared_entries, is_recon};
ghost use Rattle.footprint.specs.Declaration.{declared_number, number_or, grants_of, declared_footprint};
ghost use Rattle.footprint.specs.Grants.{GrantsAs, IsGrantOf};
ghost use Rattle.footprint.specs.Tables.{HasTable};
ghost use Rattle.footprint.specs.OfCatalogue.{IsFootprintOf};
ghost use Rattle.footprint.specs.Stops.{EvaluatesTo};

use crate::abort_code::AbortCode;
use crate::arithmetic::compute;
use crate::footprint::Footprint;
use crate::grant::Grant;
use crate::resource::{InPart, InTable, Resource};
use catalogue::Catalogue;
use proclang_types::{FootprintEntry, IntExpr, Proc, ProcFootprint};
use std::alloc::Global;
use values::{Key, NoMemory, RowName, Value};

/// Why a declaration ended early.
enum DeclarationFault {
    Memory,
    Abort(AbortCode),
}

impl From<NoMemory> for DeclarationFault {
    ghost use Rattle.footprint.specs.declared.declare.DeclarationFault.TheVariants.{Memory};

    ghost from_gives = { λ _ stop. stop ≡ Memory };

    fn from(_: NoMemory) -> DeclarationFault {
        DeclarationFault::Memory
    }
}

impl From<AbortCode> for DeclarationFault {
    ghost use Rattle.footprint.specs.declared.declare.DeclarationFault.TheVariants.{Abort};

    ghost from_gives = { λ code stop. stop ≡ Abort code };

    fn from(code: AbortCode) -> DeclarationFault {
        DeclarationFault::Abort(code)
    }
}

/// The number of a variable; 0 for one that is not there or is a text.
fn int_at(arguments: &[Value], place: usize) -> i64
    ensures { result ≡ number_or (pos 0) (slice_get arguments.now place) }
{
    match arguments.get(place) {
        Some(Value::Int(number)) => *number,
        Some(Value::Text(_)) => 0,
        None => 0,
    }
}

/// The value of an expression over the parameters, or the abort of its first fault. No entry of a procedure asks for a
/// count or a sum; 0 for one.
fn int_value(arguments: &[Value], expression: &IntExpr) -> Result<i64, AbortCode>
    ensures { result ≡ declared_number (pos 0) arguments.now (int_view expression.now) }
{
    match expression {
        IntExpr::Number(number) => Ok(*number),
        IntExpr::Variable(place) => Ok(int_at(arguments, *place)),
        IntExpr::Binary(operator, left, right) => {
            let left = int_value(arguments, left)?;
            let right = int_value(arguments, right)?;
            compute(*operator, left, right)
        }
        IntExpr::Count { .. } | IntExpr::Sum { .. } => Ok(0),
    }
}

/// What an entry adds, or the abort of its first fault.
fn grant_of(
    catalogue: &Catalogue,
    arguments: &[Value],
    entry: &FootprintEntry,
) -> Result<Grant, AbortCode>
    requires { HasTable catalogue.now (entry_view entry.now) }
    ensures exact { GrantsAs catalogue.now result
        (grants_of (pos 0) catalogue.now arguments.now (entry_view entry.now)) }
    ensures of_catalogue { IfOk result (λ grant. IsGrantOf catalogue.now grant) }
{
    match entry {
        FootprintEntry::Row { right, table, key } => {
            let number = int_value(arguments, key)?;
            let key = Key::new(number).ok_or(AbortCode::BadKey)?;
            let resource = Resource::row(catalogue, RowName::new(*table, key));
            Ok(Grant::on_one(*right, resource))
        }
        FootprintEntry::Rows {
            right,
            table,
            low,
            high,
        } => {
            let low = int_value(arguments, low)?;
            let high = int_value(arguments, high)?;
            let first = Key::new(low).ok_or(AbortCode::BadKey)?;
            Ok(Grant::on_rows(*right, *table, first, high))
        }
        FootprintEntry::Part { right, table, part } => {
            let number = int_value(arguments, part)?;
            let part = catalogue.part(*table, number).ok_or(AbortCode::BadPart)?;
            let resource = Resource::Table(*table, InTable::Part(part, InPart::WholePart));
            Ok(Grant::on_one(*right, resource))
        }
        FootprintEntry::Table { right, table } => {
            let resource = Resource::Table(*table, InTable::WholeTable);
            Ok(Grant::on_one(*right, resource))
        }
        FootprintEntry::Db { right } => Ok(Grant::on_one(*right, Resource::Db)),
    }
}

/// The footprint of the entries, in order.
#[tactic(auto, using(crate::proofs::OfCatalogue::nothing_of_catalogue))]
fn with_entries(
    alloc: Global,
    catalogue: &Catalogue,
    arguments: &[Value],
    entries: &Vec<FootprintEntry>,
) -> Result<Footprint, DeclarationFault>
    requires { AllByRecursion (HasTable catalogue.now) (map entry_view entries.now.items) }
    ensures exact { EvaluatesTo result
        (declared_footprint catalogue.now arguments.now (map entry_view entries.now.items)) }
    ensures of_catalogue { IfOk result (λ footprint. IsFootprintOf catalogue.now footprint) }
{
    let mut footprint = Footprint::new(alloc);
    let mut count = 0;
    for entry in entries {
        let grant = grant_of(catalogue, arguments, entry)?;
        count += grant.size();
        if count > 65_536 {
            return Err(DeclarationFault::Abort(AbortCode::TooLong));
        }
        grant.add_to(catalogue, &mut footprint)?;
    }
    Ok(footprint)
}

// rule: footprint.row, footprint.table, footprint.db, footprint.order, footprint.numbers
/// The footprint that a procedure declares for these arguments, or the abort of the first fault: entries are evaluated
/// in order, a result outside the signed 64-bit range is an overflow, a negative key a bad key, a number that is no
/// partition of its table a bad partition, and more than 65,536 resources, repeats included, are too long. How many an
/// entry adds is found before any of them is listed.
pub fn declared(
    alloc: Global,
    catalogue: &Catalogue,
    proc: &Proc,
    arguments: &[Value],
) -> Result<Result<Footprint, AbortCode>, NoMemory>
    requires tables { proc.now.tables ≡ catalogue.now }
    // The procedure declares its footprint.
    requires declares { is_recon (proc_syntax proc.now).footprint ≡ false }
    ensures exact { IfOk result (λ declared.
        declared ≡ declared_footprint catalogue.now arguments.now (declared_entries (proc_syntax proc.now).footprint)) }
    // Each resource that it gives a right on is of the catalogue.
    ensures of_catalogue { IfOk result (λ declared.
        IfOk declared (λ footprint. IsFootprintOf catalogue.now footprint)) }
{
    let ProcFootprint::Declared(entries) = proc.footprint() else {
        unreachable!()
    };
    match with_entries(alloc, catalogue, arguments, entries) {
        Ok(footprint) => Ok(Ok(footprint)),
        Err(DeclarationFault::Abort(code)) => Ok(Err(code)),
        Err(DeclarationFault::Memory) => Err(NoMemory),
    }
}
