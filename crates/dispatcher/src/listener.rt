//! Who is told of what is settled.

ghost use Rattle.std.specs.Prelude.{◌≤◌, Option};
ghost use Rattle.meaning.specs.Outcomes.{as_reply};
ghost use Rattle.progress.specs.Accounts.{Account};
ghost use Rattle.dispatcher.specs.Listeners.{AreCounted, AreOthersCounted, HasRoomForOne, Hears, HearsOn};

use meaning::Outcome;
use scheduler::Scheduler;

/// Hears of each transaction as soon as it is settled.
pub trait Listener {
    // what it has published; `None` claims nothing of it
    ghost account: { Self → Option Account };

    /// Hears of one more transaction that is settled, with this outcome.
    fn hear(&mut self, outcome: &Outcome)
        requires { HasRoomForOne (account self.old) }
        ensures { Hears (account self.old) (as_reply outcome.now) (account self.new) };
}

/// Tells nobody, and never waits.
#[derive(Drop)]
pub struct Silence;

impl Listener for Silence {
    ghost use Rattle.std.specs.Prelude.{None};

    ghost account = { λ _. None };

    #[inline]
    fn hear(&mut self, _outcome: &Outcome) {}
}

/// Tells a listener, which has heard of the others, of a transaction, where it is settled.
pub(crate) fn tell<L: Listener>(scheduler: &Scheduler, no: u64, listener: &mut L)
    requires number { scheduler.now.work.first ≤ no }
    requires others { AreOthersCounted scheduler.now no (L.account listener.old) }
    ensures told { AreCounted scheduler.now (L.account listener.new) }
    ensures onward { HearsOn (L.account listener.old) (L.account listener.new) }
{
    if let Some(outcome) = scheduler.reply(no) {
        listener.hear(outcome);
    }
}
