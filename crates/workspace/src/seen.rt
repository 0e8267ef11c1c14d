//! The rows of a partition, after the own writes.

ghost use Rattle.std.specs.Prelude.{◌≡◌, true, IfOk};
ghost use Rattle.workspace.specs.Overlay.{applied};
ghost use Rattle.workspace.specs.Coverage.{permits_part};
ghost use Rattle.workspace.specs.Scan.{referred, rows_in_part};

use crate::rows::row_seen;
use crate::shown::Shown;
use crate::view::RowView;
use crate::walk::Walk;
use crate::workspace::Workspace;
use std::alloc::Global;
use values::{Key, NoMemory, Row, RowName, TableNo};

/// The rows of a partition as the view has them, with their keys, ascending.
#[tactic(auto, using(crate::proofs::Untouched::shows_part))]
fn rows_shown<'a, V: RowView>(
    alloc: Global,
    shown: &'a Shown<'_, V>,
    table: TableNo,
    part: u32,
) -> Result<Vec<(Key, &'a Row)>, NoMemory>
    requires covered { permits_part shown.now.permit table part ≡ true }
    ensures { IfOk result (λ rows. referred rows.items
        ≡ rows_in_part shown.now.permit.catalogue.now table part (V.rows shown.now.view.now)) }
{
    let mut rows = Vec::new(alloc);
    match shown.view.push_rows(table, part, &mut rows) {
        Ok(()) => Ok(rows),
        Err(_) => Err(NoMemory),
    }
}

/// The rows of a partition that a walk over the view's rows and the own ones comes to, with their keys, ascending.
#[tactic(auto, using(crate::proofs::Counts::count_on, crate::proofs::Untouched::next_covered))]
fn rows_on_walk<'a, V: RowView>(
    alloc: Global,
    shown: &'a Shown<'_, V>,
    space: &'a Workspace,
    table: TableNo,
    part: u32,
) -> Result<Vec<(Key, &'a Row)>, NoMemory>
    requires covered { permits_part shown.now.permit table part ≡ true }
    ensures { IfOk result (λ rows. referred rows.items ≡ rows_in_part shown.now.permit.catalogue.now table part
        (applied space.now.writes.entries (V.rows shown.now.view.now))) }
{
    let mut rows = Vec::new(alloc);
    let mut walk = Walk::start(shown, space, table, part);
    while let Some(key) = walk.next(shown, space, table, part) {
        let name = RowName::new(table, key);
        let Some(row) = row_seen(shown, space, &name) else {
            unreachable!()
        };
        if rows.push((key, row)).is_err() {
            return Err(NoMemory);
        }
    }
    Ok(rows)
}

/// The rows of a partition, after the own writes, with their keys, ascending. Where nothing was written, they are the
/// view's.
pub(crate) fn rows_in<'a, V: RowView>(
    alloc: Global,
    shown: &'a Shown<'_, V>,
    space: &'a Workspace,
    table: TableNo,
    part: u32,
) -> Result<Vec<(Key, &'a Row)>, NoMemory>
    requires covered { permits_part shown.now.permit table part ≡ true }
    ensures { IfOk result (λ rows. referred rows.items ≡ rows_in_part shown.now.permit.catalogue.now table part
        (applied space.now.writes.entries (V.rows shown.now.view.now))) }
{
    if space.writes.is_empty() {
        rows_shown(alloc, shown, table, part)
    } else {
        rows_on_walk(alloc, shown, space, table, part)
    }
}
