//! Laws of the definitions, as contracts of functions that do nothing.

ghost use Rattle.modes.specs.Laws.{RanksAreRights, PairsAreModes, JoinIsLeast};

/// Ranks say of rights what footprints say: the order of none, Read and Write, and the greater of two.
pub fn rights_by_rank()
    ensures { RanksAreRights }
{}

/// A mode is its pair of rights, and the right on the resource itself is at most the right in its subtree.
pub fn modes_are_pairs_of_rights()
    ensures { PairsAreModes }
{}

/// The join of two modes is the weakest mode that is at least as strong as both, so it is one mode, in whatever order
/// modes are joined, and a mode joined with itself stays.
pub fn join_is_least_upper_bound()
    ensures { JoinIsLeast }
{}
