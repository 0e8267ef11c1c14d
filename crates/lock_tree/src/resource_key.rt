//! Resources as keys of a hash map.

ghost use Rattle.std.specs.Prelude.{◌≡◌};
ghost use Rattle.std.specs.Hash as fed;
ghost use Rattle.lock_tree.specs.Keys.{resource_eq, partly_equal, equal_resources, word_in_table, word, alike_words};

use footprint::{InPart, InTable, Resource};
use std::hash::{Hash, Hasher};
use std::marker::Model;

/// A resource as a key, which is hashed as one word and not level by level. Contracts see the resource.
#[derive(Clone, Copy)]
pub(crate) struct ResourceKey {
    pub(crate) resource: Resource,
}

impl Model for ResourceKey {
    ghost use Rattle.footprint.specs.declared.resource.Resource.{Resource as AnyResource};

    ghost Value = { AnyResource };

    ghost view = { λ key. key.resource };

    ghost inverse = { λ resource. record { resource = resource } };
}

/// What the words of a table, of partitions and of rows have beside their numbers.
const TABLE: u64 = 1 << 38;

const PART: u64 = 2 << 38;

const ROW: u64 = 3 << 38;

/// The word of what is in a table.
#[inline(always)]
fn word_in_table(within: InTable) -> u64
    ensures { result ≡ word_in_table within }
{
    match within {
        InTable::WholeTable => TABLE,
        InTable::Part(part, InPart::WholePart) => PART ^ part as u64,
        InTable::Part(_, InPart::Row(key)) => ROW ^ key,
    }
}

/// The word that a resource is hashed as. Resources of one word are found more slowly, and none is taken for another.
#[inline(always)]
fn word(resource: Resource) -> u64
    ensures { result ≡ word resource }
{
    match resource {
        Resource::Db => 0,
        Resource::Table(table, within) => (table.place() as u64) << 40 ^ word_in_table(within),
    }
}

impl PartialEq for ResourceKey {
    ghost eq = { resource_eq };

    ghost laws = { partly_equal };

    fn eq(&self, other: &ResourceKey) -> bool {
        self.resource == other.resource
    }
}

impl Eq for ResourceKey {
    ghost laws = { equal_resources };
}

impl Hash for ResourceKey {
    ghost hash_input = { λ resource. fed.u64 (word resource) };

    ghost respects_eq = { alike_words };

    fn hash<H: Hasher>(&self, state: &mut H) {
        state.write_u64(word(self.resource));
    }
}
