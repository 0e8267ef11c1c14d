//! The rule of the published list, and its kinds of step. These types are for the proofs alone.

use crate::tally::Tally;
use crate::view::View;
use atomic_table::{Join, Split};
use crossbeam_utils::atomic::seq_cell::RuledSeqCell;
use crossbeam_utils::rule::{Outcome, Protocol};

/// The cell has the last tally of the published list, and each view knows a beginning of it.
pub struct Published;

impl Protocol<Tally, View> for Published {
    ghost use Rattle.progress.specs.Rule.{Kept, first_view};

    ghost holds = { Kept };

    ghost first = { first_view };
}

/// The writer's swap: the list has one more tally.
pub struct Gains;

impl Outcome<Tally, View> for Gains {
    ghost use Rattle.progress.specs.Rule.{Gained};

    ghost then = { Gained };
}

/// A load: what is read is the last tally of a list that begins with all that the pass knew.
pub struct Reads;

impl Outcome<Tally, View> for Reads {
    ghost use Rattle.progress.specs.Rule.{Read};

    ghost then = { Read };
}

/// A pass is cut in two, which know what it had seen. The right to write goes to the second.
pub struct HandOver;

impl Split<View> for HandOver {
    ghost use Rattle.progress.specs.Rule.{watching, handed};

    ghost left = { λ v. watching v.seen };

    ghost right = { handed };
}

/// A pass takes in another's list and its right to write, beside what it had seen itself.
impl Join<View> for HandOver {
    ghost use Rattle.std.specs.Prelude.{[]};
    ghost use Rattle.progress.specs.Rule.{watching, taken};

    ghost both = { taken };

    ghost spent = { watching [] };
}

/// The cell of a published tally.
pub type Cell = RuledSeqCell<Tally, View, Published, 4>;
