//! Modes.

ghost use Rattle.std.specs.Prelude.{◌≡◌, ◌↔◌, Some};
ghost use Rattle.modes.specs.Rights.{rank, rank_of};
ghost use Rattle.modes.specs.Modes.{own, subtree};
ghost use Rattle.modes.specs.declared.mode.Mode.{Mode as AnyMode};

use footprint::Right;
use std::fmt;

/// The mode of a request on a resource: a right on the resource itself, and the greatest right in its subtree. (Modes
/// of Gray and others, 1975 and 1976.)
#[derive(Clone, Copy, Debug, PartialEq, Eq)]
pub enum Mode {
    /// IS: no right on the resource itself, at most Read under it.
    IntentionShared,
    /// IX: no right on the resource itself, Write somewhere under it.
    IntentionExclusive,
    /// S: Read on the resource, and so on all under it.
    Shared,
    /// SIX: Read on the resource, and Write somewhere under it.
    SharedIntentionExclusive,
    /// X: Write on the resource, and so on all under it.
    Exclusive,
}

impl Mode {
    /// The right on the resource itself.
    pub fn own_right(self) -> Option<Right>
        ensures { rank result ≡ own self }
    {
        match self {
            Mode::IntentionShared | Mode::IntentionExclusive => None,
            Mode::Shared | Mode::SharedIntentionExclusive => Some(Right::Read),
            Mode::Exclusive => Some(Right::Write),
        }
    }

    /// The greatest right in the resource's subtree.
    pub fn subtree_right(self) -> Right
        ensures { rank_of result ≡ subtree self }
    {
        match self {
            Mode::IntentionShared | Mode::Shared => Right::Read,
            Mode::IntentionExclusive | Mode::SharedIntentionExclusive | Mode::Exclusive => {
                Right::Write
            }
        }
    }
}

/// The mode of a right on a resource itself and the greatest right in its subtree, `None`
/// exactly where the pair is no mode.
pub fn of_rights(on_it: Option<Right>, in_subtree: Option<Right>) -> Option<Mode>
    ensures { (mode : AnyMode) → (result ≡ Some mode) ↔ ((own mode ≡ rank on_it) × (subtree mode ≡ rank in_subtree)) }
{
    match (on_it, in_subtree) {
        (None, Some(Right::Read)) => Some(Mode::IntentionShared),
        (None, Some(Right::Write)) => Some(Mode::IntentionExclusive),
        (Some(Right::Read), Some(Right::Read)) => Some(Mode::Shared),
        (Some(Right::Read), Some(Right::Write)) => Some(Mode::SharedIntentionExclusive),
        (Some(Right::Write), Some(Right::Write)) => Some(Mode::Exclusive),
        (Some(Right::Write), Some(Right::Read)) | (_, None) => None,
    }
}

impl fmt::Display for Mode {
    fn fmt<W: fmt::Write>(&self, f: &mut fmt::Formatter<W>) -> fmt::Result {
        let word = match self {
            Mode::IntentionShared => "IS",
            Mode::IntentionExclusive => "IX",
            Mode::Shared => "S",
            Mode::SharedIntentionExclusive => "SIX",
            Mode::Exclusive => "X",
        };
        f.write_str(word)
    }
}
