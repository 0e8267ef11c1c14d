//! Footprints.

ghost use Rattle.std.specs.Prelude.{◌≡◌, OnOk, OnErr};
ghost use Rattle.std.specs.FinMap as map;
ghost use Rattle.footprint.specs.Rights.{covers, with_right, is_at_least, greater};

use crate::resource::Resource;
use crate::storage::Storage;
use proclang_types::Right;
use std::alloc::Global;
use std::marker::Model;
use values::NoMemory;

/// A footprint: resources and the rights on them. Contracts see a finite map.
#[derive(Drop)]
pub struct Footprint {
    pub(crate) rights: Storage,
}

impl Model for Footprint {
    ghost use Rattle.std.specs.FinMap.{code};
    ghost use Rattle.footprint.specs.Rights.{FootprintOf};
    ghost use Rattle.footprint.specs.InOrder.{footprint_of, listed, IsInOrder};
    ghost use Rattle.footprint.specs.contracts.resource.Resource as resource;
    ghost use Rattle.proclang_types.specs.contracts.right.Right as right;

    ghost Value = { FootprintOf };

    ghost coded = { code resource.the_row.coded right.the_row.coded };

    ghost view = { λ f. footprint_of (listed f.rights) };

    ghost invariant = { λ f. IsInOrder f.rights };
}

impl Footprint {
    /// The footprint that covers nothing.
    pub fn new(alloc: Global) -> Footprint
        ensures { result ≡ map.empty }
    {
        Footprint {
            rights: Storage::new(alloc),
        }
    }

    /// The right on a resource itself, `None` where it has none.
    pub fn get(&self, resource: &Resource) -> Option<Right>
        ensures { result ≡ map.get self.now resource.now }
    {
        self.rights.get(resource)
    }

    // rule: footprint.greatest
    /// Adds a right on a resource. Of two rights on one resource the greater counts.
    pub fn add(&mut self, resource: Resource, right: Right) -> Result<(), NoMemory>
        ensures added { OnOk result (self.new ≡ with_right self.old resource right) }
        ensures err { OnErr result (self.new ≡ self.old) }
    {
        let right = greater(self.get(&resource), right);
        self.rights.insert(resource, right)?;
        Ok(())
    }

    /// Whether the resource or an ancestor of it has at least that right.
    pub fn covers(&self, resource: &Resource, right: Right) -> bool
        ensures { result ≡ covers self.now resource.now right }
    {
        if is_at_least(right, self.get(resource)) {
            return true;
        }
        match resource.parent() {
            Some(parent) => self.covers(&parent, right),
            None => false,
        }
    }
}

/// Whether the second right is at least the first.
fn is_at_least(wanted: Right, given: Option<Right>) -> bool
    ensures { result ≡ is_at_least wanted given }
{
    match (wanted, given) {
        (_, None) => false,
        (Right::Read, Some(_)) => true,
        (Right::Write, Some(right)) => right == Right::Write,
    }
}

/// The greater of a right that may be there and another.
fn greater(given: Option<Right>, right: Right) -> Right
    ensures { result ≡ greater given right }
{
    match given {
        Some(Right::Write) => Right::Write,
        Some(Right::Read) | None => right,
    }
}
