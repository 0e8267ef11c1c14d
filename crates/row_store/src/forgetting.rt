//! Forgets digests that are kept, before rows are written. It takes no memory.

ghost use Rattle.std.specs.Prelude.{◌≡◌, [], Some, IfSome};
ghost use Rattle.shelves.specs.Places.{is_same_shelf, among};
ghost use Rattle.row_store.specs.declared.held.Holdings.TheVariants.{Shelves};
ghost use Rattle.row_store.specs.Forgetting.{AreForgotten, gives_on, has_listed, has_name, has_write};

use crate::held::{HeldShelves, Holdings};
use catalogue::Catalogue;
use footprint::{InPart, InTable, Resource};
use row_text::KeptDigests;
use shelves::{NamedRow, shelf_of};
use std::collections::BTreeMap;
use values::{Row, RowName};

/// Forgets the digest of the partition of a shelf.
fn forget_shelf(kept: &mut KeptDigests, shelf: &Resource)
    ensures { AreForgotten (is_same_shelf shelf.now) kept.old kept.new }
{
    if let Resource::Table(table, InTable::Part(part, InPart::WholePart)) = *shelf {
        kept.forget(table, part);
    }
}

/// Forgets the digests of the partitions of shelves.
fn forget_shelves(kept: &mut KeptDigests, shelves: &[Resource])
    ensures { AreForgotten (among shelves.now) kept.old kept.new }
{
    for shelf in shelves {
        forget_shelf(kept, shelf);
    }
}

/// Forgets the digests of the partitions of names.
fn forget_names(catalogue: &Catalogue, kept: &mut KeptDigests, names: &[RowName])
    ensures { AreForgotten (has_name catalogue.now names.now) kept.old kept.new }
{
    for name in names {
        forget_shelf(kept, &shelf_of(catalogue, *name));
    }
}

/// Forgets the digests of the partitions of the rows of a list.
fn forget_listed(catalogue: &Catalogue, kept: &mut KeptDigests, rows: &[NamedRow])
    ensures { AreForgotten (has_listed catalogue.now rows.now) kept.old kept.new }
{
    for entry in rows {
        forget_shelf(kept, &shelf_of(catalogue, entry.name));
    }
}

/// Forgets the digests of the partitions of shelves, and of those of names, that are given back.
fn forget_held(catalogue: &Catalogue, kept: &mut KeptDigests, held: &HeldShelves)
    ensures { AreForgotten (gives_on catalogue.now (Shelves held.now)) kept.old kept.new }
{
    forget_shelves(kept, &held.written_shelves);
    forget_names(catalogue, kept, &held.written_names);
}

/// Forgets the digests of the partitions of which a loan gives rows back.
pub(crate) fn forget_given(catalogue: &Catalogue, kept: &mut KeptDigests, held: &Holdings)
    ensures { AreForgotten (gives_on catalogue.now held.now) kept.old kept.new }
{
    if kept.is_empty() {
        return;
    }
    match held {
        Holdings::Rows(held) => forget_listed(catalogue, kept, &held.written),
        Holdings::Shelves(held) => forget_held(catalogue, kept, held),
    }
}

/// Forgets the digests of the partitions of writes.
fn forget_writes(
    catalogue: &Catalogue,
    kept: &mut KeptDigests,
    writes: &BTreeMap<RowName, Option<Row>>,
)
    ensures { AreForgotten (has_write catalogue.now writes.now.entries) kept.old kept.new }
{
    for (name, _) in writes {
        forget_shelf(kept, &shelf_of(catalogue, *name));
    }
}

/// Forgets the digests of the partitions in which writes are made.
pub(crate) fn forget_written(
    catalogue: &Catalogue,
    kept: &mut KeptDigests,
    writes: &BTreeMap<RowName, Option<Row>>,
)
    ensures { AreForgotten (has_write catalogue.now writes.now.entries) kept.old kept.new }
{
    if !kept.is_empty() {
        forget_writes(catalogue, kept, writes);
    }
}

/// Keeps the digest of the row text where there are no writes to make, and forgets it where there are some.
pub(crate) fn keep_unless_written(
    kept: &mut Option<String>,
    writes: &BTreeMap<RowName, Option<Row>>,
)
    ensures { IfSome kept.new (λ digest. (kept.old ≡ Some digest) × (writes.now.entries ≡ [])) }
{
    if !writes.is_empty() {
        *kept = None;
    }
}
