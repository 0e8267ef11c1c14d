//! Accesses of rows.
#![tactic(auto, unfolding(meaning::specs::Runs::and_then))]

ghost use Rattle.std.specs.Prelude.{◌≡◌, true, IfOk, OnOk, is_some, option_copied};
ghost use Rattle.std.specs.FinMap as map;
ghost use Rattle.catalogue.specs.Places.{partition_numbered};
ghost use Rattle.values.specs.Database.{Database};
ghost use Rattle.proclang_types.specs.declared.right.Right.TheVariants.{Read};
ghost use Rattle.meaning.specs.Runs.{State, tested_key, accessed, part_accessed, present};
ghost use Rattle.workspace.specs.Overlay.{applied};
ghost use Rattle.workspace.specs.Coverage.{rule_of, permits, permits_part};
ghost use Rattle.workspace.specs.States.{state_at};
ghost use Rattle.workspace.specs.Answers.{Gives};

use crate::permit::{Permit, row_resource};
use crate::shown::Shown;
use crate::stop::Stop;
use crate::view::RowView;
use crate::workspace::Workspace;
use catalogue::Catalogue;
use footprint::{AbortCode, InPart, InTable, Resource, Right};
use meaning::Ending;
use values::{Key, Row, RowName, TableNo};

/// The key of a number, or the end of the run.
fn tested_key(number: i64) -> Result<Key, Stop>
    ensures { (state : State) → Gives (λ key. key) state result (tested_key number state) }
{
    match Key::new(number) {
        Some(key) => Ok(key),
        None => Err(Stop::End(Ending::Abort(AbortCode::BadKey))),
    }
}

// rule: grant.row, order.key
/// The name of the row with the key of that number. The run ends with abort 5 where the number is negative, and else as
/// the permit says where it doesn't cover that right to the row. The only other error is that allocation failed.
#[tactic(auto, unfolding(meaning::specs::Runs::and_then), using(crate::proofs::Covered::permits_read))]
pub fn access(
    permit: &Permit,
    space: &mut Workspace,
    right: Right,
    table: TableNo,
    number: i64,
) -> Result<RowName, Stop>
    ensures name { (db : Database) →
        Gives (λ name. name) (state_at db space.new) result
        (accessed (rule_of permit.now) right table number (state_at db space.old)) }
    ensures right { IfOk result (λ name. permits permit.now name right ≡ true) }
    ensures read { IfOk result (λ name. permits permit.now name Read ≡ true) }
    ensures writes { OnOk result (space.new.writes ≡ space.old.writes) }
{
    let key = tested_key(number)?;
    let name = RowName::new(table, key);
    permit.pass(space, row_resource(permit.catalogue, &name), right)?;
    Ok(name)
}

/// The partition with a number, `None` exactly where the table has none with that number.
fn part_numbered(catalogue: &Catalogue, table: TableNo, number: i64) -> Option<u32>
    ensures { result ≡ partition_numbered catalogue.now table number }
{
    if table.place() < catalogue.len() {
        catalogue.part(table, number)
    } else {
        None
    }
}

// rule: grant.part
/// The partition with a number. The run ends with abort 6 where the table has none of that number, and else as the
/// permit says where it doesn't cover reading the partition. The only other error is that allocation failed.
pub fn access_part(
    permit: &Permit,
    space: &mut Workspace,
    table: TableNo,
    number: i64,
) -> Result<u32, Stop>
    ensures part { (db : Database) →
        Gives (λ part. part) (state_at db space.new) result
        (part_accessed (rule_of permit.now) table number (state_at db space.old)) }
    ensures read { IfOk result (λ part. permits_part permit.now table part ≡ true) }
    ensures writes { OnOk result (space.new.writes ≡ space.old.writes) }
{
    let Some(part) = part_numbered(permit.catalogue, table, number) else {
        return Err(Stop::End(Ending::Abort(AbortCode::BadPart)));
    };
    let resource = Resource::Table(table, InTable::Part(part, InPart::WholePart));
    permit.pass(space, resource, Right::Read)?;
    Ok(part)
}

/// The row with a name, after the own writes; `None` exactly where there is none.
#[tactic(auto, using(crate::proofs::Writes::get_applied))]
pub(crate) fn row_seen<'a, V: RowView>(
    shown: &'a Shown<'_, V>,
    space: &'a Workspace,
    name: &RowName,
) -> Option<&'a Row>
    requires covered { permits shown.now.permit name.now Read ≡ true }
    ensures { option_copied result ≡ map.get (applied space.now.writes.entries (V.rows shown.now.view.now)) name.now }
{
    match space.writes.get(name) {
        Some(write) => write.as_ref(),
        None => shown.view.row(name.table, name.key),
    }
}

// rule: order.presence
/// The row with a name, after the own writes. The only error is the end of the run where there is none: abort 1.
pub fn present_row<'a, V: RowView>(
    shown: &'a Shown<'_, V>,
    space: &'a Workspace,
    name: &RowName,
) -> Result<&'a Row, Stop>
    requires covered { permits shown.now.permit name.now Read ≡ true }
    ensures { Gives (λ row.
        row.now) (state_at (V.rows shown.now.view.now) space.now) result
        (present (map.get (applied space.now.writes.entries (V.rows shown.now.view.now)) name.now)
        (state_at (V.rows shown.now.view.now) space.now)) }
{
    match row_seen(shown, space, name) {
        Some(row) => Ok(row),
        None => Err(Stop::End(Ending::Abort(AbortCode::NoRow))),
    }
}

// rule: expression.exists
/// Whether the row with a name is there, after the own writes.
pub fn is_there<V: RowView>(shown: &Shown<'_, V>, space: &Workspace, name: &RowName) -> bool
    requires covered { permits shown.now.permit name.now Read ≡ true }
    ensures { result ≡ is_some (map.get (applied space.now.writes.entries (V.rows shown.now.view.now)) name.now) }
{
    row_seen(shown, space, name).is_some()
}
