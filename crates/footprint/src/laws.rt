//! Laws of declarations.

ghost use Rattle.std.specs.Prelude.{◌≡◌, ℕ, ◌+◌, ℤ, pos, int_le, int_div, int_rem, List, map, slice_get, Some, None, if◌then◌else◌};
ghost use Rattle.values.specs.declared.value.Value.{Value};
ghost use Rattle.catalogue.specs.Shapes.{TableShape};
ghost use Rattle.values.specs.Rows.{type_of};
ghost use Rattle.proclang_types.specs.Syntax.{ProcSyntax, declared_entries};
ghost use Rattle.proclang_types.specs.Typing.{kinds_of, ProcFits};
ghost use Rattle.footprint.specs.Arithmetic.{IsDivision};
ghost use Rattle.footprint.specs.Declaration.{declared_with, declared_footprint, keys_between};
ghost use Rattle.footprint.specs.TreeOrder.{StandsInTreeOrder};

/// What is taken for a parameter that is not there, or is a text, and for a count or a sum, never shows: a procedure
/// that fits its tables declares the same for arguments of the parameters' types, whatever number is taken for it.
#[tactic(auto, using(crate::proofs::StandIns::never_shows))]
pub fn stand_in_never_shows()
    ensures { (tables : List TableShape) (proc : ProcSyntax) (arguments : List Value) (other : ℤ) →
        ProcFits tables proc → map type_of arguments ≡ kinds_of proc.params
        → declared_with other tables arguments (declared_entries proc.footprint)
        ≡ declared_footprint tables arguments (declared_entries proc.footprint) }
{}

/// The keys from one to a number, place by place: each is one more than the one before it, the first is the lower one,
/// and there are those that are not above the number.
#[tactic(auto, using(crate::proofs::Ranges::keys_at))]
pub fn keys_go_from_low_to_high()
    ensures { (low place : ℕ) (high : ℤ) → slice_get (keys_between low high) place ≡
        (if int_le (pos (low + place)) high then Some (low + place) else None) }
{}

// rule: expression.quotient
/// A quotient is rounded towards 0, and a remainder is what it leaves: it is less than the divisor, signs aside, and is
/// 0 or has the sign of the first operand.
#[tactic(auto, using(crate::proofs::Divisions::division))]
pub fn quotients_are_rounded_towards_zero()
    ensures { (x y : ℤ) → ¬ (y ≡ pos 0) → IsDivision x y (int_div x y) (int_rem x y) }
{}

/// The order of resources is tree order: a parent comes before its children, and what is in an earlier table, a
/// partition of a lesser number or a row with a lesser key before what is in another of the same parent.
#[tactic(auto, using(crate::proofs::TreeOrder::stands_in_tree_order))]
pub fn stands_in_tree_order()
    ensures { StandsInTreeOrder }
{}
