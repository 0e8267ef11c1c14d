//! The end of a feed.

ghost use Rattle.std.specs.Prelude.{◌≡◌};

use crate::status::FEED_ENDED;
use batch_log::{Sink, say};
use std::alloc::Global;

// rule: command.follow
/// Says that a feed has ended, with the line that was begun last, or 0 where none was, and gives the exit status.
pub(crate) fn feed_ended<E: Sink>(alloc: Global, line: u64, err: &mut E) -> u8
    ensures { result ≡ 6 }
{
    say(alloc, err, &format_args!("feed ended at line {line}"));
    FEED_ENDED
}
