//! How a table's keys are split over its partitions.

ghost use Rattle.std.specs.Prelude.{◌≡◌, ◌<◌, nat_le, count_by, length, slice_index};
ghost use Rattle.catalogue.specs.Shapes.{split_shape, partitions, part_with, is_end_with};
ghost use Rattle.catalogue.specs.Rules.{IsSplit, AreRising};

use values::Key;

/// How a table's keys are split over its partitions.
#[derive(Drop)]
pub(crate) enum Split {
    /// Over a number of partitions, 1 to 1,024, by the remainder of the key.
    Remainder(u32),
    /// At these bounds, at most 1,023 of them, each above 0 and above the one before. Below the first bound is
    /// partition 0, and each bound is the least key of the next partition.
    Bounds(Vec<Key>),
}

impl Split {
    /// How many partitions there are.
    pub(crate) fn partitions(&self) -> u32
        requires { IsSplit (split_shape self.now) }
        ensures { result ≡ partitions (split_shape self.now) }
    {
        match self {
            Split::Remainder(count) => *count,
            Split::Bounds(bounds) => bounds.len() as u32 + 1,
        }
    }

    // rule: split.bounds
    /// The partition with a key.
    pub(crate) fn part_of(&self, key: Key) -> u32
        requires { IsSplit (split_shape self.now) }
        ensures { result ≡ part_with (split_shape self.now) key }
    {
        match self {
            Split::Remainder(count) => (key.number() % u64::from(*count)) as u32,
            Split::Bounds(bounds) => bounds_passed(bounds, key.number()) as u32,
        }
    }

    /// Whether a partition ends with a key, at a bound.
    #[tactic(auto, using(crate::proofs::Splits::next_is))]
    pub(crate) fn ends_partition(&self, key: Key) -> bool
        requires { IsSplit (split_shape self.now) }
        ensures { result ≡ is_end_with (split_shape self.now) key }
    {
        match self {
            Split::Remainder(_) => false,
            Split::Bounds(bounds) => {
                let number = key.number();
                bounds_passed(bounds, number) < bounds_passed(bounds, number + 1)
            }
        }
    }
}

/// How many bounds are at most a number, where they ascend.
///
/// Three bounds quarter what is left, and how many of them are at most the number says in which quarter to go on. That
/// is a sum and no branch: keys come in any order, so a processor would guess half of the branches wrong, which takes
/// longer than the search.
fn bounds_passed(bounds: &[Key], number: u64) -> usize
    requires { AreRising 0 bounds.now }
    ensures { result ≡ count_by (λ bound. nat_le bound number) bounds.now }
{
    let mut passed = 0;
    let mut left = bounds.len();
    while left > 2 {
        let step = (left + 1) / 4;
        let first = is_passed(bounds, passed + step - 1, number);
        let second = is_passed(bounds, passed + 2 * step - 1, number);
        let third = is_passed(bounds, passed + 3 * step - 1, number);
        passed += step * (usize::from(first) + usize::from(second) + usize::from(third));
        left -= 3 * step;
    }
    passed + passed_of(&bounds[passed..passed + left], number)
}

/// Whether the bound at a place is at most a number.
fn is_passed(bounds: &[Key], place: usize, number: u64) -> bool
    requires { place < length bounds.now }
    ensures { result ≡ nat_le (slice_index bounds.now place) number }
{
    bounds[place].number() <= number
}

/// How many bounds are at most a number, each looked at.
fn passed_of(bounds: &[Key], number: u64) -> usize
    ensures { result ≡ count_by (λ bound. nat_le bound number) bounds.now }
{
    let mut passed = 0;
    for bound in bounds {
        passed += usize::from(bound.number() <= number);
    }
    passed
}
