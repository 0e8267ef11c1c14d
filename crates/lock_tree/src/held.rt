//! The modes that are held on a resource.

ghost use Rattle.std.specs.Prelude.{◌≡◌, ◌<◌, ◌+◌, ◌^◌, [], ◌∷◌, length, List};
ghost use Rattle.std.specs.List.{list_all};
ghost use Rattle.modes.specs.declared.mode.Mode.{Mode as AnyMode};
ghost use Rattle.modes.specs.Modes.{are_compatible};
ghost use Rattle.lock_tree.specs.Held.{AreHeld, times, spares};

use modes::{Mode, compatible};

/// How many requests are granted in each mode.
#[derive(Clone, Copy)]
pub(crate) struct Held {
    intention_shared: u32,
    intention_exclusive: u32,
    shared: u32,
    shared_intention_exclusive: u32,
    exclusive: u32,
}

/// Whether none of `count` requests in a mode bars another mode.
#[inline(always)]
fn spares(count: u32, held: Mode, mode: Mode) -> bool
    ensures { result ≡ spares count held mode }
{
    count == 0 || compatible(held, mode)
}

impl Held {
    /// None is held.
    pub(crate) fn none() -> Held
        ensures { AreHeld result [] }
    {
        Held {
            intention_shared: 0,
            intention_exclusive: 0,
            shared: 0,
            shared_intention_exclusive: 0,
            exclusive: 0,
        }
    }

    /// One more request is granted in a mode.
    pub(crate) fn add(&mut self, mode: Mode)
        requires { (held : List AnyMode) × AreHeld self.old held × (length held + 1 < 2 ^ 32) }
        ensures { (held more : List AnyMode) → AreHeld self.old held →
            ((m : AnyMode) → times m more ≡ times m (mode ∷ held)) → AreHeld self.new more }
    {
        match mode {
            Mode::IntentionShared => self.intention_shared += 1,
            Mode::IntentionExclusive => self.intention_exclusive += 1,
            Mode::Shared => self.shared += 1,
            Mode::SharedIntentionExclusive => self.shared_intention_exclusive += 1,
            Mode::Exclusive => self.exclusive += 1,
        }
    }

    /// One request less is granted in a mode.
    pub(crate) fn take(&mut self, mode: Mode)
        requires { (held : List AnyMode) × AreHeld self.old held × (0 < times mode held) }
        ensures { (held rest : List AnyMode) → AreHeld self.old held →
            ((m : AnyMode) → times m held ≡ times m (mode ∷ rest)) → AreHeld self.new rest }
    {
        match mode {
            Mode::IntentionShared => self.intention_shared -= 1,
            Mode::IntentionExclusive => self.intention_exclusive -= 1,
            Mode::Shared => self.shared -= 1,
            Mode::SharedIntentionExclusive => self.shared_intention_exclusive -= 1,
            Mode::Exclusive => self.exclusive -= 1,
        }
    }

    /// Whether a mode is compatible with all that is held.
    pub(crate) fn fits(&self, mode: Mode) -> bool
        ensures { (held : List AnyMode) → AreHeld self.now held → result ≡ list_all (λ h. are_compatible h mode) held }
    {
        spares(self.intention_shared, Mode::IntentionShared, mode)
            & spares(self.intention_exclusive, Mode::IntentionExclusive, mode)
            & spares(self.shared, Mode::Shared, mode)
            & spares(
                self.shared_intention_exclusive,
                Mode::SharedIntentionExclusive,
                mode,
            )
            & spares(self.exclusive, Mode::Exclusive, mode)
    }
}
