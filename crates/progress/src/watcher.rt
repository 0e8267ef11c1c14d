//! Who watches what is published.

ghost use Rattle.std.specs.Prelude.{◌≡◌};
ghost use Rattle.progress.specs.Tallies.{AddsUp, NoneBelow, latest, StartsWith};

use crate::passes::WatchPass;
use crate::progress::Progress;
use crate::tally::Tally;
use std::marker::Model;
use std::sync::{Arc, Wait};

/// Watches how far a run is, from any thread, while it goes on. To contracts it is a beginning of the list of tallies
/// that were published, up to the last one that the watcher has read or was told of, and where that list is published.
#[derive(Drop)]
pub struct Watcher {
    pub(crate) progress: Arc<Progress>,
    pub(crate) pass: WatchPass,
}

impl Model for Watcher {
    ghost use Rattle.std.specs.Prelude.{Some};
    ghost use Rattle.std.specs.Arc.{arc_value};
    ghost use Rattle.progress.specs.Passes.{seen, watch_place, IsWatchOf};
    ghost use Rattle.progress.specs.Accounts.{Watched, watched_code};

    ghost Value = { Watched };

    ghost coded = { watched_code };

    ghost view = { λ w. record { seen = seen w.pass; place = Some (watch_place w.pass) } };

    ghost invariant = { λ w. IsWatchOf (arc_value w.progress) w.pass };
}

impl Watcher {
    /// One of the tallies that were published, whole: its parts add up, and it is at no place below any that this
    /// watcher has read, nor below what was published when the watcher was made. It may wait.
    pub fn watch<R: Wait>(&mut self, rt: &R) -> Tally
        ensures same { self.new.place ≡ self.old.place }
        ensures onward { StartsWith self.new.seen self.old.seen }
        ensures last { latest self.new.seen ≡ result }
        ensures adds_up { AddsUp result }
        ensures rises { NoneBelow (latest self.old.seen) result }
    {
        self.progress.watch(rt, &mut self.pass)
    }
}
