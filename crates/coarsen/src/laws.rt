//! Laws of the definitions, as contracts of functions that do nothing.

ghost use Rattle.coarsen.specs.Laws.{HoldsDescendants, DropsCovered, ReplacesMany, CoversWithoutExcess, PlansAreExact, PlanIsOne, PlansServe, ClashEitherWay, LockedRowsConflict, FootprintsAreOf};

/// The subtree of a resource is the resource and what has it as an ancestor.
pub fn subtrees_are_of_ancestors()
    ensures { HoldsDescendants }
{}

/// What the first step of coarsening, and the fourth, leave of each entry.
pub fn covered_entries_go()
    ensures { DropsCovered }
{}

/// What the second step and the third leave on each resource.
pub fn many_entries_become_one()
    ensures { ReplacesMany }
{}

/// What coarsening keeps, and what it leaves out: all that was covered is covered, no entry is under one of at
/// least its right, and at most the threshold of entries of a level are the children of one resource.
pub fn coarsened_footprints_cover()
    ensures { CoversWithoutExcess }
{}

/// Which requests a plan has.
pub fn plans_are_exact()
    ensures { PlansAreExact }
{}

/// The plan for a footprint is one, and can be put together.
pub fn plan_is_one()
    ensures { PlanIsOne }
{}

/// What each plan for a footprint is good for.
pub fn plans_serve()
    ensures { PlansServe }
{}

/// If one plan clashes with another, the other clashes with it.
pub fn clashes_are_either_way()
    ensures { ClashEitherWay }
{}

/// Plans that lock a row name, one of them to write, are in conflict.
pub fn locked_rows_conflict()
    ensures { LockedRowsConflict }
{}

/// How a footprint comes to be of a catalogue.
pub fn footprints_are_of_catalogues()
    ensures { FootprintsAreOf }
{}
