//! How a footprint keeps its rights.

ghost use Rattle.std.specs.Prelude.{◌≡◌, [], IfOk, OnOk, OnErr};
ghost use Rattle.std.specs.FinMap.{get, insert};
ghost use Rattle.footprint.specs.InOrder.{footprint_of, listed, IsInOrder};

use crate::resource::Resource;
use crate::tree_order::search;
use proclang_types::Right;
use std::alloc::Global;
use std::collections::BTreeMap;
use values::NoMemory;

/// How many resources a list has at most; if there are more, a tree has them. A node of a tree takes 624 bytes,
/// whatever is in it, and a list of up to four resources 192. At 16 resources a tree has three nodes.
const FEW: usize = 16;

/// Rights on resources: of few a list in tree order, of many a tree.
#[derive(Drop)]
pub(crate) enum Storage {
    List(Vec<(Resource, Right)>),
    Tree(BTreeMap<Resource, Right>),
}

/// A tree of what is in a list.
fn tree_of(
    alloc: Global,
    entries: &[(Resource, Right)],
) -> Result<BTreeMap<Resource, Right>, NoMemory>
    ensures { IfOk result (λ tree. footprint_of tree.entries ≡ footprint_of entries.now) }
{
    match entries.split_first() {
        None => Ok(BTreeMap::new(alloc)),
        Some((first, others)) => {
            let mut tree = tree_of(alloc, others)?;
            tree.insert(first.0, first.1)?;
            Ok(tree)
        }
    }
}

impl Storage {
    /// No rights.
    pub(crate) fn new(alloc: Global) -> Storage
        ensures none { listed result ≡ [] }
        ensures in_order { IsInOrder result }
    {
        Storage::List(Vec::new(alloc))
    }

    /// The right on a resource itself.
    pub(crate) fn get(&self, resource: &Resource) -> Option<Right>
        requires { IsInOrder self.now }
        ensures { result ≡ get (footprint_of (listed self.now)) resource.now }
    {
        match self {
            Storage::List(entries) => match search(entries, resource) {
                Ok(place) => Some(entries[place].1),
                Err(_) => None,
            },
            Storage::Tree(entries) => entries.get(resource).copied(),
        }
    }

    /// Puts a right on a resource in place of what is there.
    pub(crate) fn insert(&mut self, resource: Resource, right: Right) -> Result<(), NoMemory>
        requires { IsInOrder self.old }
        ensures inserted { OnOk result (footprint_of (listed self.new)
            ≡ insert (footprint_of (listed self.old)) resource right) }
        ensures err { OnErr result (footprint_of (listed self.new) ≡ footprint_of (listed self.old)) }
        ensures in_order { IsInOrder self.new }
    {
        match self {
            Storage::List(entries) => match search(entries, &resource) {
                Ok(place) => entries[place] = (resource, right),
                Err(_) if entries.len() >= FEW => {
                    let mut tree = tree_of(*entries.allocator(), entries)?;
                    tree.insert(resource, right)?;
                    *self = Storage::Tree(tree);
                }
                Err(place) => entries.insert(place, (resource, right))?,
            },
            Storage::Tree(entries) => {
                entries.insert(resource, right)?;
            }
        }
        Ok(())
    }
}
