//! Going through a footprint.

ghost use Rattle.std.specs.Prelude.{◌≡◌, ◌<◌, ◌^◌, length};
ghost use Rattle.std.specs.FinMap as map;
ghost use Rattle.std.specs.Iterator.{at_most};
ghost use Rattle.std.specs.Map.Iter.{TakesFirst, deref_pair};
ghost use Rattle.footprint.specs.InOrder.{footprint_of, listed, IsInOrder};
ghost use Rattle.footprint.specs.Left.{left_of};

use crate::footprint::Footprint;
use crate::resource::Resource;
use crate::storage::Storage;
use proclang_types::Right;
use std::collections::btree_map;
use std::marker::Model;

/// What is left of a list or of a tree.
#[derive(Drop)]
enum Left<'a> {
    OfList(&'a [(Resource, Right)]),
    OfTree(btree_map::Iter<'a, Resource, Right>),
}

/// The resources of a footprint and the rights on them, in tree order. Contracts see the list of those that are left.
#[derive(Drop)]
pub struct Iter<'a> {
    left: Left<'a>,
}

impl<'a> Model for Iter<'a> {
    ghost use Rattle.std.specs.Prelude.{List};
    ghost use Rattle.footprint.specs.declared.resource.Resource.{Resource as AnyResource};
    ghost use Rattle.proclang_types.specs.declared.right.Right.{Right as AnyRight};
    ghost use Rattle.footprint.specs.Left.{left_of};

    ghost Value = { List (AnyResource × AnyRight) };

    ghost view = { λ e. left_of e.left };
}

impl<'a> Iterator for Iter<'a> {
    type Item = (&'a Resource, &'a Right);

    ghost next_gives = { TakesFirst deref_pair };

    ghost remaining = { λ s. at_most (length s) };

    fn next(&mut self) -> Option<(&'a Resource, &'a Right)> {
        match &mut self.left {
            Left::OfList(entries) => {
                let (first, others) = entries.split_first()?;
                *entries = others;
                Some((&first.0, &first.1))
            }
            Left::OfTree(entries) => entries.next(),
        }
    }

    fn size_hint(&self) -> (usize, Option<usize>) {
        let len = self.len();
        (len, Some(len))
    }
}

impl<'a> ExactSizeIterator for Iter<'a> {
    fn len(&self) -> usize {
        match &self.left {
            Left::OfList(entries) => entries.len(),
            Left::OfTree(entries) => entries.len(),
        }
    }
}

/// All that is in a list or in a tree.
fn all_of(storage: &Storage) -> Left<'_>
    requires { IsInOrder storage.now }
    ensures { left_of result ≡ map.entries (footprint_of (listed storage.now)) }
{
    match storage {
        Storage::List(entries) => Left::OfList(entries),
        Storage::Tree(entries) => Left::OfTree(entries.iter()),
    }
}

impl Footprint {
    /// The resources and the rights on them, in tree order.
    pub fn iter(&self) -> Iter<'_>
        ensures entries { result ≡ map.entries self.now }
        ensures fits { length result < 2 ^ 64 }
    {
        Iter {
            left: all_of(&self.rights),
        }
    }
}
