//! What an entry of a declaration adds.

ghost use Rattle.std.specs.Prelude.{◌≡◌, ◌<◌, ◌≤◌, ◌+◌, ◌^◌, OnOk, length};
ghost use Rattle.footprint.specs.Declaration.{keys_from, keys_up_to, on_rows};
ghost use Rattle.footprint.specs.Grants.{granted, size_of, IsGrantOf};
ghost use Rattle.footprint.specs.OfCatalogue.{IsFootprintOf};
ghost use Rattle.footprint.specs.Rights.{with_rights};

use crate::footprint::Footprint;
use crate::resource::Resource;
use catalogue::Catalogue;
use proclang_types::Right;
use values::{Key, NoMemory, RowName, TableNo};

/// A right on a resource, or on the names of a number of rows of a table, whose keys follow each other from the first
/// on.
#[derive(Drop)]
pub(crate) enum Grant {
    OnOne {
        right: Right,
        resource: Resource,
    },
    OnRows {
        right: Right,
        table: TableNo,
        first: Key,
        count: u64,
    },
}

impl Grant {
    // rule: footprint.part
    /// The right on one resource.
    pub(crate) fn on_one(right: Right, resource: Resource) -> Grant
        ensures { result ≡ Grant.OnOne right resource }
    {
        Grant::OnOne { right, resource }
    }

    // rule: footprint.rows, footprint.high
    /// The right on the name of the row with each key from the first to a number, both included.
    pub(crate) fn on_rows(right: Right, table: TableNo, first: Key, last: i64) -> Grant
        ensures exact { result ≡ Grant.OnRows right table first (keys_up_to first last) }
        ensures room { first + keys_up_to first last ≤ 2 ^ 63 }
    {
        let count = keys_up_to(first, last);
        Grant::OnRows {
            right,
            table,
            first,
            count,
        }
    }

    // rule: footprint.limit
    /// On how many resources the right is.
    pub(crate) fn size(&self) -> u64
        ensures { result ≡ size_of self.now }
    {
        match self {
            Grant::OnOne { .. } => 1,
            Grant::OnRows { count, .. } => *count,
        }
    }

    /// Adds the right on each of the resources.
    pub(crate) fn add_to(
        self,
        catalogue: &Catalogue,
        footprint: &mut Footprint,
    ) -> Result<(), NoMemory>
        requires { IsGrantOf catalogue.now self }
        ensures added { OnOk result (footprint.new ≡ with_rights footprint.old (granted catalogue.now self)) }
        ensures of_catalogue { IsFootprintOf catalogue.now footprint.old →
            OnOk result (IsFootprintOf catalogue.now footprint.new) }
    {
        match self {
            Grant::OnOne { right, resource } => footprint.add(resource, right),
            Grant::OnRows {
                right,
                table,
                first,
                count,
            } => add_rows(catalogue, footprint, right, table, first, count),
        }
    }
}

/// How many keys there are from one to a number, both included: none where the number is less.
fn keys_up_to(first: Key, last: i64) -> u64
    ensures exact { result ≡ keys_up_to first last }
    ensures room { first + result ≤ 2 ^ 63 }
{
    match Key::new(last) {
        Some(last) => (last.number() + 1).saturating_sub(first.number()),
        None => 0,
    }
}

/// The key that is a distance above another.
fn key_above(first: Key, distance: u64) -> Key
    requires { first + distance < 2 ^ 63 }
    ensures { result ≡ first + distance }
{
    match Key::new((first.number() + distance) as i64) {
        Some(key) => key,
        None => unreachable!(),
    }
}

/// Adds a right on the names of a number of rows, from a key on.
fn add_rows(
    catalogue: &Catalogue,
    footprint: &mut Footprint,
    right: Right,
    table: TableNo,
    first: Key,
    count: u64,
) -> Result<(), NoMemory>
    requires table { table < length catalogue.now }
    requires room { first + count ≤ 2 ^ 63 }
    ensures added { OnOk result (footprint.new ≡
        with_rights footprint.old (on_rows catalogue.now right table (keys_from count first))) }
    ensures of_catalogue { IsFootprintOf catalogue.now footprint.old →
        OnOk result (IsFootprintOf catalogue.now footprint.new) }
{
    for distance in 0..count {
        let key = key_above(first, distance);
        footprint.add(Resource::row(catalogue, RowName::new(table, key)), right)?;
    }
    Ok(())
}
