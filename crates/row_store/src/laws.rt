//! Laws of the definitions, as contracts of functions that do nothing.

ghost use Rattle.row_store.specs.Laws.{AllIsFree, FreeWhereApart};

use coarsen::locked_rows_conflict;

/// With nothing lent a store shows every name.
pub fn all_is_free_with_nothing_lent()
    ensures { AllIsFree }
{}

/// A store shows every name that a plan locks, where no plan that is lent is in conflict with that plan.
pub fn locked_names_are_free_where_plans_are_apart()
    ensures { FreeWhereApart }
{
    locked_rows_conflict();
}
