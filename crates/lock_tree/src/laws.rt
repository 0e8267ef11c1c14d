//! Laws of queues and of readiness, as contracts of functions that do nothing.

ghost use Rattle.lock_tree.specs.Laws.{GrantsLongestFront, ReadyApart, FirstReady, ReadyBeside, ReadyStays};

/// What is granted of a queue is its longest front whose members are pairwise compatible.
pub fn granted_is_longest_front()
    ensures { GrantsLongestFront }
{}

/// A transaction that is ready clashes with none that was enqueued before it and is not released.
pub fn ready_apart()
    ensures { ReadyApart }
{}

/// The transaction that was enqueued before all others is ready.
pub fn first_ready()
    ensures { FirstReady }
{}

/// If all that wait are ready, a transaction that is put last, and clashes with none of them, is ready.
pub fn ready_beside()
    ensures { ReadyBeside }
{}

/// A transaction that is ready stays ready until it is released.
pub fn ready_stays()
    ensures { ReadyStays }
{}
