//! Levels of the tree at which entries are counted.

ghost use Rattle.std.specs.Prelude.{◌≡◌};
ghost use Rattle.coarsen.specs.Coarsening.{parent_at};

use footprint::{InPart, InTable, Resource};

/// Whose entries are replaced by one on their parent: rows or whole partitions.
#[derive(Clone, Copy, Debug, PartialEq, Eq)]
pub enum Level {
    Rows,
    Partitions,
}

impl Level {
    /// The parent of a resource of the level, `None` of any other resource.
    pub fn parent(self, resource: &Resource) -> Option<Resource>
        ensures { result ≡ parent_at self resource.now }
    {
        match (self, resource) {
            (Level::Rows, Resource::Table(_, InTable::Part(_, InPart::Row(_)))) => {
                resource.parent()
            }
            (Level::Partitions, Resource::Table(_, InTable::Part(_, InPart::WholePart))) => {
                resource.parent()
            }
            _ => None,
        }
    }
}
