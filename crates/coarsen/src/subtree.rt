//! Subtrees of the tree of resources.

ghost use Rattle.std.specs.Prelude.{◌≡◌};
ghost use Rattle.coarsen.specs.Subtrees.{holds, holds_in_table, holds_in_part};

use footprint::{InPart, InTable, Resource};

/// Whether the second resource is the first or is under it.
pub(crate) fn holds(above: &Resource, resource: &Resource) -> bool
    ensures { result ≡ holds above.now resource.now }
{
    match (above, resource) {
        (Resource::Db, _) => true,
        (Resource::Table(..), Resource::Db) => false,
        (Resource::Table(table, above), Resource::Table(other, within)) => {
            table == other && holds_in_table(*above, *within)
        }
    }
}

/// The same within a table.
fn holds_in_table(above: InTable, within: InTable) -> bool
    ensures { result ≡ holds_in_table above within }
{
    match (above, within) {
        (InTable::WholeTable, _) => true,
        (InTable::Part(..), InTable::WholeTable) => false,
        (InTable::Part(part, above), InTable::Part(other, within)) => {
            part == other && holds_in_part(above, within)
        }
    }
}

/// The same within a partition.
fn holds_in_part(above: InPart, within: InPart) -> bool
    ensures { result ≡ holds_in_part above within }
{
    match (above, within) {
        (InPart::WholePart, _) => true,
        (InPart::Row(_), InPart::WholePart) => false,
        (InPart::Row(key), InPart::Row(other)) => key == other,
    }
}
