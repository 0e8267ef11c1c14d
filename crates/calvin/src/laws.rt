//! A law of the definitions, as the contract of a function that does nothing.

ghost use Rattle.calvin.specs.FirstBatches.{PlansHaveOneText};

use coarsen::plans_are_exact;

/// The entries of a batch have one text of their plans.
pub fn plans_have_one_text()
    ensures { PlansHaveOneText }
{
    plans_are_exact();
}
