//! The published tally.

ghost use Rattle.std.specs.Prelude.{◌≡◌, [], ◌∷◌, ◌++◌, IfOk};
ghost use Rattle.progress.specs.Tallies.{zero_tally, AddsUp, NoneBelow, latest, StartsWith};
ghost use Rattle.progress.specs.Passes.{published, seen, IsWriterOf, IsWatchOf, IsSameWriter, IsSameWatch};

use crate::passes::{WatchPass, WriterPass};
use crate::rule::{Cell, Gains, HandOver, Reads};
use crate::tally::Tally;
use std::alloc::{AllocError, Global};
use std::sync::Wait;

/// A published tally. It may be shared by threads.
#[derive(Drop)]
pub struct Progress {
    cell: Cell,
}

impl Progress {
    /// A published list of one tally, whose counts are 0, the writer's pass and a watcher's, which both know it.
    pub fn new(alloc: Global) -> Result<(Progress, WriterPass, WatchPass), AllocError>
        ensures own { IfOk result (λ r. IsWriterOf r.0 r.1 × IsWatchOf r.0 r.2) }
        ensures writer { IfOk result (λ r. published r.1 ≡ zero_tally ∷ []) }
        ensures watch { IfOk result (λ r. seen r.2 ≡ zero_tally ∷ []) }
    {
        let nothing = Tally {
            settled: 0,
            committed: 0,
            aborted: 0,
            stale: 0,
        };
        let (cell, mut pass) = Cell::ruled(alloc, nothing)?;
        let right = cell.split_pass::<HandOver>(&mut pass);
        Ok((
            Progress { cell },
            WriterPass { pass: right },
            WatchPass { pass },
        ))
    }

    /// Adds a tally to the published list. Its parts add up, and it is at no place below the last one. It may wait.
    pub fn publish<R: Wait>(&self, rt: &R, writer: &mut WriterPass, tally: Tally)
        requires own { IsWriterOf self.now writer.old }
        requires adds_up { AddsUp tally }
        requires rises { NoneBelow (latest (published writer.old)) tally }
        ensures own { IsSameWriter writer.old writer.new }
        ensures gained { published writer.new ≡ published writer.old ++ tally ∷ [] }
    {
        self.cell.swap_as::<Gains, R>(rt, &mut writer.pass, tally);
    }

    /// One tally of the published list, whole: its parts add up, and it is at no place below anything that this pass
    /// has seen or was told. It may wait.
    pub fn watch<R: Wait>(&self, rt: &R, watch: &mut WatchPass) -> Tally
        requires own { IsWatchOf self.now watch.old }
        ensures own { IsSameWatch watch.old watch.new }
        ensures onward { StartsWith (seen watch.new) (seen watch.old) }
        ensures last { latest (seen watch.new) ≡ result }
        ensures adds_up { AddsUp result }
        ensures rises { NoneBelow (latest (seen watch.old)) result }
    {
        self.cell.load_as::<Reads, R>(rt, &mut watch.pass)
    }

    /// One more watch pass, which was told all that the old one saw.
    pub fn another(&self, watch: &mut WatchPass) -> WatchPass
        requires own { IsWatchOf self.now watch.old }
        ensures own { IsSameWatch watch.old watch.new × IsSameWatch watch.old result }
        ensures kept { seen watch.new ≡ seen watch.old }
        ensures told { seen result ≡ seen watch.old }
    {
        let pass = self.cell.split_pass::<HandOver>(&mut watch.pass);
        WatchPass { pass }
    }

    /// Tells a watch pass all that the writer's pass has published. What the watch pass had seen is a beginning of
    /// that. It may wait.
    pub fn tell<R: Wait>(&self, rt: &R, writer: &mut WriterPass, to: &mut WatchPass)
        requires own { IsWriterOf self.now writer.old × IsWatchOf self.now to.old }
        ensures own { IsSameWriter writer.old writer.new × IsSameWatch to.old to.new }
        ensures kept { published writer.new ≡ published writer.old }
        ensures told { seen to.new ≡ published writer.old }
        ensures onward { StartsWith (published writer.old) (seen to.old) }
    {
        let right = self.cell.split_pass::<HandOver>(&mut writer.pass);
        self.cell.join_pass::<HandOver>(&mut to.pass, right);
        self.cell.load_as::<Reads, R>(rt, &mut to.pass);
        writer.pass = self.cell.split_pass::<HandOver>(&mut to.pass);
    }
}
