//! Laws of a request that comes back.

ghost use Rattle.std.specs.Prelude.{◌≡◌, ◌+◌, ◌≤◌, ◌∷◌, [], ℕ, List, length, true, false};
ghost use Rattle.crossbeam_queue.specs.Fifo.{Held};
ghost use Rattle.batch_items.specs.declared.item.Item.{Item};
ghost use Rattle.intake.specs.Histories.{history, spare_for, view};
ghost use Rattle.intake.specs.Rule.{IsAccounted};

/// The one client of an intake gets a request back only where it has submitted as many as the queue takes. One that
/// draws as well gets it back exactly where the queue is full: it has submitted what was drawn, and as many more as the
/// queue takes.
pub fn refused_client_knows_the_queue<Q>()
    ensures alone { (sent : List Q) (capacity : ℕ) →
        Held capacity (IsAccounted (view (history 1 sent ∷ spare_for 1 1) false [])) → capacity ≤ length sent }
    ensures drawing { (sent : List Q) (drawn : List (Item Q)) (capacity : ℕ) →
        Held capacity (IsAccounted (view (history 1 sent ∷ spare_for 1 1) true drawn)) →
        length sent ≡ length drawn + capacity }
{}
