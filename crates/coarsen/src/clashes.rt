//! Whether two plans clash.

ghost use Rattle.std.specs.Prelude.{◌≡◌, ◌↔◌, true, List};
ghost use Rattle.catalogue.specs.Shapes.{TableShape};
ghost use Rattle.catalogue.specs.Rules.{IsCatalogue};
ghost use Rattle.footprint.specs.InTreeOrder.{IsInTreeOrder};
ghost use Rattle.coarsen.specs.Plans.{IsPlanOver};
ghost use Rattle.coarsen.specs.Clashes.{Clash, ModesClash};

use crate::plan::Plan;
use footprint::Resource;
use modes::{Mode, compatible};
use std::cmp::Ordering;

/// Whether two lists of requests in tree order have requests on some resource whose modes are not compatible. Both
/// lists are gone through once, side by side.
fn conflict(first: &[(Resource, Mode)], second: &[(Resource, Mode)]) -> bool
    requires first { IsInTreeOrder first.now }
    requires second { IsInTreeOrder second.now }
    ensures { (result ≡ true) ↔ ModesClash first.entry.now second.entry.now }
{
    let mut first = first;
    let mut second = second;
    while let (Some((a, after_a)), Some((b, after_b))) = (
        first.split_first(),
        second.split_first(),
    ) {
        match a.0.cmp(&b.0) {
            Ordering::Less => first = after_a,
            Ordering::Greater => second = after_b,
            Ordering::Equal => {
                if !compatible(a.1, b.1) {
                    return true;
                }
                first = after_a;
                second = after_b;
            }
        }
    }
    false
}

/// Whether two plans cover some row name, whether or not such a row is there, with rights that clash. For plans over
/// one catalogue that is the same as two requests on some resource whose modes are not compatible.
pub fn clash(first: &Plan, second: &Plan) -> bool
    ensures requests { (result ≡ true) ↔ ModesClash first.now second.now }
    ensures rows { (tables : List TableShape) → IsCatalogue tables → IsPlanOver tables first.now →
        IsPlanOver tables second.now → (result ≡ true) ↔ Clash tables first.now second.now }
{
    conflict(first.requests(), second.requests())
}
