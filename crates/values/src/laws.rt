//! Laws of the definitions, as contracts of functions that do nothing.

ghost use Rattle.values.specs.NameOrder.{NamesStandInOrder};

/// Row names are ordered by table, as declared, and those of a table by ascending key.
#[tactic(auto, using(crate::proofs::NameOrder::names_stand_in_order))]
pub fn names_stand_in_order()
    ensures { NamesStandInOrder }
{}
