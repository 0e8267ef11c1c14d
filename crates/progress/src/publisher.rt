//! Who publishes a tally.

ghost use Rattle.std.specs.Prelude.{◌≡◌, [], ◌∷◌, ◌++◌, IfOk};
ghost use Rattle.progress.specs.Tallies.{zero_tally, latest, AddsUp, NoneBelow, StartsWith};

use crate::passes::{WatchPass, WriterPass};
use crate::progress::Progress;
use crate::tally::Tally;
use crate::watcher::Watcher;
use std::alloc::{AllocError, Global};
use std::marker::Model;
use std::snapshot::Snapshot;
use std::sync::{Arc, Wait};

/// Publishes how many transactions are settled, and how they ended, to watchers that it makes.
#[derive(Drop)]
pub struct Publisher {
    progress: Arc<Progress>,
    writer: WriterPass,
    // A pass of nobody, from which those of the watchers are made.
    watch: WatchPass,
    // The tally that was published last.
    tally: Tally,
    // The one with which the last part of the run ended.
    ended: Snapshot<Tally>,
}

impl Model for Publisher {
    ghost use Rattle.std.specs.Prelude.{◌≡◌, Some};
    ghost use Rattle.std.specs.Arc.{arc_value};
    ghost use Rattle.progress.specs.Passes.{published, writer_place, IsWriterOf, IsWatchOf};
    ghost use Rattle.progress.specs.Tallies.{latest, AddsUp};
    ghost use Rattle.progress.specs.Accounts.{Account, account_code};

    ghost Value = { Account };

    ghost coded = { account_code };

    ghost view = { λ p. record {
      ended = p.ended.value;
      published = published p.writer;
      place = Some (writer_place p.writer);
    } };

    ghost invariant = { λ p.
        IsWriterOf (arc_value p.progress) p.writer × IsWatchOf (arc_value p.progress) p.watch
        × (latest (published p.writer) ≡ p.tally) × AddsUp p.tally };
}

impl Publisher {
    /// A published list of one tally, whose counts are 0.
    pub fn new(alloc: Global) -> Result<Publisher, AllocError>
        ensures { IfOk result (λ publisher.
            publisher ≡ record publisher { ended = zero_tally; published = zero_tally ∷ [] }) }
    {
        let (progress, writer, watch) = Progress::new(alloc)?;
        let tally = Tally {
            settled: 0,
            committed: 0,
            aborted: 0,
            stale: 0,
        };
        let progress = Arc::new(alloc, progress)?;
        Ok(Publisher {
            progress,
            writer,
            watch,
            tally,
            ended: Snapshot::of(&tally),
        })
    }

    /// The tally that was published last.
    #[inline]
    pub fn tally(&self) -> Tally
        ensures last { result ≡ latest self.now.published }
        ensures adds_up { AddsUp result }
    {
        self.tally
    }

    /// Publishes a tally. Its parts add up, and it is at no place below the last one. It may wait.
    pub fn publish<R: Wait>(&mut self, rt: &R, tally: Tally)
        requires adds_up { AddsUp tally }
        requires rises { NoneBelow (latest self.old.published) tally }
        ensures { self.new ≡ record self.old { published = self.old.published ++ tally ∷ [] } }
    {
        self.progress.publish(rt, &mut self.writer, tally);
        self.tally = tally;
    }

    /// Ends a part of the run, which all that was published counts.
    pub fn end_part(&mut self)
        ensures { self.new ≡ record self.old { ended = latest self.old.published } }
    {
        self.ended = Snapshot::of(&self.tally);
    }

    /// A watcher that was told all that was published. It may wait.
    pub fn watcher<R: Wait>(&mut self, rt: &R) -> Result<Watcher, AllocError>
        ensures kept { self.new ≡ self.old }
        ensures told { IfOk result (λ watcher. watcher ≡ record {
          seen = self.old.published;
          place = self.old.place;
        }) }
    {
        let progress = Arc::try_clone(&self.progress)?;
        self.progress.tell(rt, &mut self.writer, &mut self.watch);
        let pass = self.progress.another(&mut self.watch);
        Ok(Watcher { progress, pass })
    }

    /// Tells a watcher of this list all that was published. What the watcher has seen before is a beginning of that: so
    /// each tally that it read was published here. It may wait.
    pub fn tell<R: Wait>(&mut self, rt: &R, watcher: &mut Watcher)
        requires place { watcher.old.place ≡ self.old.place }
        ensures kept { self.new ≡ self.old }
        ensures begins { StartsWith self.old.published watcher.old.seen }
        ensures told { watcher.new ≡ record { seen = self.old.published; place = self.old.place } }
    {
        self.progress.tell(rt, &mut self.writer, &mut watcher.pass);
    }
}
