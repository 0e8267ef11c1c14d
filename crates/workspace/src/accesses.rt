//! The accesses that a run makes, in a record.

ghost use Rattle.std.specs.Prelude.{◌≡◌, [], ◌∷◌, ◌++◌, OnOk, OnErr, IfOk};
ghost use Rattle.std.specs.List.{All};
ghost use Rattle.meaning.specs.Reconnaissance.{HasKey, greatest_rights};

use footprint::{Footprint, Resource, Right};
use meaning::access_adds_its_right;
use std::alloc::Global;
use std::marker::Model;
use values::NoMemory;

/// The accesses that a run recorded, in their order: each with its resource and its right.
#[derive(Drop)]
pub struct Accesses {
    list: Vec<(Resource, Right)>,
}

impl Model for Accesses {
    ghost use Rattle.std.specs.Prelude.{List};
    ghost use Rattle.std.specs.List.{All};
    ghost use Rattle.std.specs.Coded.{codes};
    ghost use Rattle.meaning.specs.Runs.{Access};
    ghost use Rattle.meaning.specs.Reconnaissance.{HasKey};
    ghost use Rattle.footprint.specs.contracts.resource.Resource as resource;
    ghost use Rattle.proclang_types.specs.contracts.right.Right as right;

    ghost Value = { List Access };

    ghost coded = { Prim.hlevel (codes, resource.the_row.coded, right.the_row.coded) };

    ghost view = { λ a. a.list.items };

    ghost invariant = { λ a. All (λ access. HasKey access.0) a.list.items };
}

impl Accesses {
    /// No access.
    pub(crate) fn new(alloc: Global) -> Accesses
        ensures { result ≡ [] }
    {
        Accesses {
            list: Vec::new(alloc),
        }
    }

    /// Records one more access, after the others. The key of a row is less than 2^63.
    pub(crate) fn add(&mut self, resource: Resource, right: Right) -> Result<(), NoMemory>
        requires { HasKey resource }
        ensures added { OnOk result (self.new ≡ self.old ++ (resource, right) ∷ []) }
        ensures err { OnErr result (self.new ≡ self.old) }
    {
        self.list.push((resource, right))?;
        Ok(())
    }

    /// The footprint of the accesses: each resource accessed, with the greatest right with which it was.
    pub fn footprint(&self, alloc: Global) -> Result<Footprint, NoMemory>
        ensures found { IfOk result (λ footprint. footprint ≡ greatest_rights self.now) }
        ensures keys { All (λ access. HasKey access.0) self.now }
    {
        // proof: an access adds its right to the footprint of those before it.
        access_adds_its_right();
        let mut footprint = Footprint::new(alloc);
        for (resource, right) in &self.list {
            footprint.add(*resource, *right)?;
        }
        Ok(footprint)
    }
}
