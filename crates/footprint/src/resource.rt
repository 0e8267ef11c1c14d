//! The tree of resources: the database, its tables, their partitions, their rows.

use catalogue::Catalogue;
use values::{RowName, TableNo};

/// What is in a partition: the whole of it, or the row with a key, whether or not such a row is there.
#[derive(Clone, Copy, Debug, PartialEq, Eq, PartialOrd, Ord, Hash)]
pub enum InPart {
    WholePart,
    Row(u64),
}

/// What is in a table: the whole of it, or something in one of its partitions.
#[derive(Clone, Copy, Debug, PartialEq, Eq, PartialOrd, Ord, Hash)]
pub enum InTable {
    WholeTable,
    Part(u32, InPart),
}

/// A resource: the database, a table, a partition or a row. The order is tree order: a parent before its children,
/// tables in declared order, partitions and keys ascending. (A lock hierarchy as Gray's, 1975, of these four levels.)
#[derive(Clone, Copy, Debug, PartialEq, Eq, PartialOrd, Ord, Hash)]
pub enum Resource {
    Db,
    Table(TableNo, InTable),
}

impl Resource {
    ghost use Rattle.std.specs.Prelude.{◌≡◌, ◌<◌, length};
    ghost use Rattle.footprint.specs.Tree.{parent_of, row_resource};
    ghost use Rattle.footprint.specs.OfCatalogue.{IsResourceOf};

    /// The resource of a row name.
    pub fn row(catalogue: &Catalogue, name: RowName) -> Resource
        requires { name.table < length catalogue.now }
        ensures exact { result ≡ row_resource catalogue.now name }
        ensures of_catalogue { IsResourceOf catalogue.now result }
    {
        let part = catalogue.part_of(name.table, name.key);
        Resource::Table(
            name.table,
            InTable::Part(part, InPart::Row(name.key.number())),
        )
    }

    /// The parent in the tree, `None` of the database alone.
    pub fn parent(&self) -> Option<Resource>
        ensures { result ≡ parent_of self.now }
    {
        match *self {
            Resource::Db => None,
            Resource::Table(_, InTable::WholeTable) => Some(Resource::Db),
            Resource::Table(table, InTable::Part(_, InPart::WholePart)) => {
                Some(Resource::Table(table, InTable::WholeTable))
            }
            Resource::Table(table, InTable::Part(part, InPart::Row(_))) => {
                Some(Resource::Table(table, InTable::Part(part, InPart::WholePart)))
            }
        }
    }
}
