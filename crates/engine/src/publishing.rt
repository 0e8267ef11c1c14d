//! The listener of an engine that publishes.

ghost use Rattle.std.specs.Prelude.{◌≡◌, ◌<◌, ◌^◌};
ghost use Rattle.meaning.specs.Outcomes.{as_reply};
ghost use Rattle.progress.specs.Tallies.{AddsUp};
ghost use Rattle.dispatcher.specs.Tallies.{counted};
ghost use Rattle.engine.specs.Stages.{published_until};

use dispatcher::Listener;
use meaning::Outcome;
use progress::{Publisher, Tally};
use std::sync::Wait;

/// Counts one more transaction.
fn counting(tally: Tally, outcome: &Outcome) -> Tally
    requires adds_up { AddsUp tally }
    requires room { tally.settled < 2 ^ 48 }
    ensures { result ≡ counted tally (as_reply outcome.now) }
{
    let mut next = tally;
    next.settled += 1;
    match outcome {
        Outcome::Commit(_) => next.committed += 1,
        Outcome::Abort(_) => next.aborted += 1,
        Outcome::Stale => next.stale += 1,
    }
    next
}

/// Publishes a tally of what it hears of. It may wait.
#[derive(Drop)]
pub(crate) struct Publishing<'r, R: Wait> {
    pub rt: &'r R,
    pub publisher: Publisher,
}

impl<R: Wait> Listener for Publishing<'_, R> {
    ghost use Rattle.std.specs.Prelude.{Some};

    ghost account = { λ p. Some p.publisher };

    fn hear(&mut self, outcome: &Outcome) {
        let last = self.publisher.tally();
        let tally = counting(last, outcome);
        self.publisher.publish(self.rt, tally);
    }
}

impl<R: Wait> Publishing<'_, R> {
    /// What has published, after a call that ran a batch to its end, or did not.
    pub fn into_publisher(self, has_ended: bool) -> Publisher
        ensures { result ≡ published_until has_ended self.entry.publisher }
    {
        let mut publisher = self.publisher;
        if has_ended {
            publisher.end_part();
        }
        publisher
    }
}
