//! The transactions that are enqueued and not released, by their numbers.

ghost use Rattle.std.specs.Prelude.{◌≡◌, ◌∷◌, [], ◌++◌, ◌≤◌, ◌<◌, true, length, IfSome, IfNone, OnOk, OnErr, if◌then◌else◌, false, None, Some, ℕ, slice_set, slice_index_or, remove};
ghost use Rattle.std.specs.VecDeque.{deque_len, deque_capacity};
ghost use Rattle.lock_tree.specs.Entered.{Enqueued as AnyEnqueued};
ghost use Rattle.lock_tree.specs.Enqueues.{AreBelow};
ghost use Rattle.lock_tree.specs.Placing.{place_numbered};
ghost use Rattle.lock_tree.specs.Views.{all_waiting, enqueued};
ghost use Rattle.lock_tree.specs.Open.{is_open, placed, AreRising};

use crate::enqueued::Enqueued;
use crate::rising_numbers::{put, take_out};
use std::alloc::Global;
use std::collections::{BTreeMap, VecDeque};
use values::NoMemory;

/// The transactions, each under its number, and the numbers of the open ones: those that are ready and not marked.
#[derive(Drop)]
pub(crate) struct Transactions {
    pub(crate) entries: BTreeMap<u64, Enqueued>,
    pub(crate) open: VecDeque<u64>,
}

/// Notes whether a transaction is open.
fn record_open(numbers: &mut VecDeque<u64>, entry: &Enqueued, no: u64)
    requires owner { entry.now.no ≡ no }
    requires rising { AreRising numbers.old.items }
    requires room { is_open entry.now ≡ true →
        length (placed entry.now.no true numbers.old.items) ≤ deque_capacity numbers.old }
    ensures items { numbers.new.items ≡ placed entry.now.no (is_open entry.now) numbers.old.items }
    ensures capacity { deque_capacity numbers.old ≤ deque_capacity numbers.new }
{
    if entry.is_open() {
        put(numbers, no);
    } else {
        take_out(numbers, no);
    }
}

/// Notes whether a transaction that comes after the others is open.
pub(crate) fn push_open(numbers: &mut VecDeque<u64>, entry: &Enqueued, no: u64)
    requires owner { entry.now.no ≡ no }
    requires room { deque_len numbers.old < deque_capacity numbers.old }
    ensures items { numbers.new.items ≡ numbers.old.items ++ (if is_open entry.now then entry.now.no ∷ [] else []) }
    ensures capacity { deque_capacity numbers.new ≡ deque_capacity numbers.old }
{
    if entry.is_open() {
        numbers.push_back_reserved(no);
    }
}

impl Transactions {
    ghost use Rattle.lock_tree.specs.Indexed.{IsIndexed, HasPlace, IsFound};

    /// No transaction.
    pub(crate) fn new(alloc: Global) -> Transactions
        ensures indexed { IsIndexed result }
        ensures entries { enqueued result ≡ [] }
    {
        Transactions {
            entries: BTreeMap::new(alloc),
            open: VecDeque::new(alloc),
        }
    }

    /// Makes room for one more number among the open ones.
    pub(crate) fn make_place(&mut self) -> Result<(), NoMemory>
        requires { IsIndexed self.old }
        ensures indexed { IsIndexed self.new }
        ensures same { enqueued self.new ≡ enqueued self.old }
        ensures place { OnOk result (HasPlace self.new) }
    {
        let missing = self.entries.len() + 1 - self.open.len();
        self.open.reserve(missing)?;
        Ok(())
    }

    /// The transaction with a number, `None` exactly where none has it.
    pub(crate) fn get(&self, no: u64) -> Option<&Enqueued>
        requires { IsIndexed self.now }
        ensures found { IfSome result (λ entry. IsFound (enqueued self.now) no entry.now) }
        ensures none { IfNone result (place_numbered no (all_waiting (enqueued self.now)) ≡ None) }
    {
        self.entries.get(&no)
    }

    /// Puts a transaction that is not ready after the others. There is room for it among the open ones.
    pub(crate) fn push(&mut self, no: u64, entry: Enqueued) -> Result<(), NoMemory>
        requires owner { entry.no ≡ no }
        requires indexed { IsIndexed self.old }
        requires place { HasPlace self.old }
        requires waits { is_open entry ≡ false }
        requires below { AreBelow entry.no (all_waiting (enqueued self.old)) }
        ensures indexed { IsIndexed self.new }
        ensures entries { OnOk result (enqueued self.new ≡ enqueued self.old ++ entry ∷ []) }
        ensures err { OnErr result (enqueued self.new ≡ enqueued self.old) }
    {
        self.entries.insert(no, entry)?;
        Ok(())
    }

    /// Marks the transaction with a number, or takes its mark off.
    pub(crate) fn set_mark(&mut self, no: u64, mark: bool)
        requires { IsIndexed self.old }
        ensures indexed { IsIndexed self.new }
        ensures there { (place : ℕ) (d : AnyEnqueued) →
            place_numbered no (all_waiting (enqueued self.old)) ≡ Some place →
            enqueued self.new
            ≡ slice_set (enqueued self.old) place
            (record (slice_index_or (enqueued self.old) place d) { marked = mark }) }
        ensures none { place_numbered no (all_waiting (enqueued self.old)) ≡ None →
            enqueued self.new ≡ enqueued self.old }
    {
        if let Some(entry) = self.entries.get_mut(&no) {
            entry.set_mark(mark);
            record_open(&mut self.open, entry, no);
        }
    }

    /// Notes whether the transaction with a number is ready.
    pub(crate) fn set_ready(&mut self, no: u64, ready: bool)
        requires { IsIndexed self.old }
        ensures indexed { IsIndexed self.new }
        ensures there { (place : ℕ) (d : AnyEnqueued) →
            place_numbered no (all_waiting (enqueued self.old)) ≡ Some place →
            enqueued self.new
            ≡ slice_set (enqueued self.old) place
            (record (slice_index_or (enqueued self.old) place d) { ready = ready }) }
        ensures none { place_numbered no (all_waiting (enqueued self.old)) ≡ None →
            enqueued self.new ≡ enqueued self.old }
    {
        if let Some(entry) = self.entries.get_mut(&no) {
            entry.set_ready(ready);
            record_open(&mut self.open, entry, no);
        }
    }

    /// Takes out the transaction with a number, `None` exactly where none has it.
    pub(crate) fn remove(&mut self, no: u64) -> Option<Enqueued>
        requires { IsIndexed self.old }
        ensures indexed { IsIndexed self.new }
        ensures found { IfSome result (IsFound (enqueued self.old) no) }
        ensures entries { (place : ℕ) → place_numbered no (all_waiting (enqueued self.old)) ≡ Some place →
            enqueued self.new ≡ remove (enqueued self.old) place }
        ensures none { IfNone result ((place_numbered no (all_waiting (enqueued self.old)) ≡ None)
            × (enqueued self.new ≡ enqueued self.old)) }
    {
        let entry = self.entries.remove(&no)?;
        take_out(&mut self.open, no);
        Some(entry)
    }
}
