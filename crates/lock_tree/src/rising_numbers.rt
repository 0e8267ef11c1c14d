//! Rising numbers.

ghost use Rattle.std.specs.Prelude.{◌≡◌, ◌≤◌, true, false, length, slice_get};
ghost use Rattle.std.specs.VecDeque.{deque_capacity};
ghost use Rattle.lock_tree.specs.Open.{places_before, placed, AreRising};

use std::collections::VecDeque;

/// How many of the numbers are less.
fn places_before(numbers: &VecDeque<u64>, no: u64) -> usize
    requires { AreRising numbers.now.items }
    ensures exact { result ≡ places_before no numbers.now.items }
    ensures within { result ≤ length numbers.now.items }
{
    numbers.partition_point(|other| *other < no)
}

/// Takes a number out of rising ones.
pub(crate) fn take_out(numbers: &mut VecDeque<u64>, no: u64)
    requires { AreRising numbers.old.items }
    ensures items { numbers.new.items ≡ placed no false numbers.old.items }
    ensures capacity { deque_capacity numbers.new ≡ deque_capacity numbers.old }
{
    let place = places_before(numbers, no);
    if place < numbers.len() && numbers[place] == no {
        numbers.remove(place);
    }
}

/// Puts a number among rising ones. There is room for it.
pub(crate) fn put(numbers: &mut VecDeque<u64>, no: u64)
    requires rising { AreRising numbers.old.items }
    requires room { length (placed no true numbers.old.items) ≤ deque_capacity numbers.old }
    ensures items { numbers.new.items ≡ placed no true numbers.old.items }
    ensures capacity { deque_capacity numbers.old ≤ deque_capacity numbers.new }
{
    let place = places_before(numbers, no);
    if place < numbers.len() && numbers[place] == no {
        return;
    }
    let _ = numbers.insert(place, no);
}

/// The least of rising numbers, `None` where there is none.
pub(crate) fn least(numbers: &VecDeque<u64>) -> Option<u64>
    ensures { result ≡ slice_get numbers.now.items 0 }
{
    numbers.front().copied()
}
