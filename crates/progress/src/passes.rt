//! The passes of a published tally.

ghost use Rattle.std.specs.Prelude.{◌≡◌, true};
ghost use Rattle.crossbeam_utils.specs.Seq.{cell_view};

use crate::tally::Tally;
use crate::view::View;
use crossbeam_utils::atomic::seq_cell::Pass;

// The passes are apart from the calls, since a struct imports all that its file's ghost members name.
/// The right to publish, of which there is one. It knows the whole published list.
#[derive(Drop)]
pub struct WriterPass {
    pub(crate) pass: Pass<Tally, View>,
    ghost writes: { (cell_view pass).writes ≡ true },
}

/// A watcher's place in the published list. It may move into a thread.
#[derive(Drop)]
pub struct WatchPass {
    pub(crate) pass: Pass<Tally, View>,
}
