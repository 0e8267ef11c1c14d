//! Laws of what is published.

ghost use Rattle.std.specs.Prelude.{◌≡◌, List, [], length, not, Some, true};
ghost use Rattle.std.specs.List.{list_all};
ghost use Rattle.meaning.specs.Entries.{Reply};
ghost use Rattle.progress.specs.Tallies.{AddsUp};
ghost use Rattle.scheduler_core.specs.declared.phase.Phase.{Phase};
ghost use Rattle.scheduler_core.specs.Phases.{is_settled};
ghost use Rattle.dispatcher.specs.Tallies.{settled_among, tally_of};

/// Each transaction of a tally has committed, has aborted or is stale, and is counted once.
#[tactic(auto, using(crate::proofs::Counting::tally_adds_up))]
pub fn tallies_add_up()
    ensures { (replies : List Reply) → AddsUp (tally_of replies) }
{}

/// Of a batch whose transactions are all settled every reply is counted, and of one in which none is settled no reply
/// is.
#[tactic(auto, using(crate::proofs::Counting::all_among, crate::proofs::Counting::none_among))]
pub fn settled_transactions_are_counted()
    ensures all { (phases : List Phase) (replies : List Reply) → length phases ≡ length replies →
        list_all (λ p. is_settled (Some p)) phases ≡ true → settled_among phases replies ≡ replies }
    ensures none { (phases : List Phase) (replies : List Reply) →
        list_all (λ p. not (is_settled (Some p))) phases ≡ true → settled_among phases replies ≡ [] }
{}
