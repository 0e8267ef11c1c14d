//! Which modes go together, and the mode of two requests in one.

ghost use Rattle.std.specs.Prelude.{◌≡◌, max};
ghost use Rattle.modes.specs.Modes.{own, subtree, are_compatible};

use crate::mode::Mode;

// rule: lock.compatible
/// Whether two requests on one resource may be granted together: neither's own right clashes with the other's right in
/// the subtree. (The table of Gray and others, 1975 and 1976.)
pub fn compatible(first: Mode, second: Mode) -> bool
    ensures { result ≡ are_compatible first second }
{
    match (first, second) {
        (Mode::Exclusive, _) | (_, Mode::Exclusive) => false,
        (Mode::IntentionShared, _) | (_, Mode::IntentionShared) => true,
        (Mode::IntentionExclusive, Mode::IntentionExclusive) => true,
        (Mode::Shared, Mode::Shared) => true,
        _ => false,
    }
}

/// The mode that gives what two modes give, and no more: the greater of their rights on the resource, and the greater
/// of their rights in its subtree.
pub fn join(first: Mode, second: Mode) -> Mode
    ensures own { own result ≡ max (own first) (own second) }
    ensures subtree { subtree result ≡ max (subtree first) (subtree second) }
{
    match (first, second) {
        (Mode::Exclusive, _) | (_, Mode::Exclusive) => Mode::Exclusive,
        (Mode::IntentionShared, other) | (other, Mode::IntentionShared) => other,
        (Mode::IntentionExclusive, Mode::IntentionExclusive) => Mode::IntentionExclusive,
        (Mode::Shared, Mode::Shared) => Mode::Shared,
        _ => Mode::SharedIntentionExclusive,
    }
}
