//! Tallies.

ghost use Rattle.progress.specs.Tallies.{words_of};

use crossbeam_utils::atomic::Words;

/// How many transactions are settled, and how they ended.
#[derive(Clone, Copy, Debug, PartialEq, Eq)]
pub struct Tally {
    /// All that are settled: the sum of the other three.
    pub settled: u64,
    pub committed: u64,
    pub aborted: u64,
    /// Those that touched a row outside the footprint that reconnaissance had found.
    pub stale: u64,
}

impl Words<4> for Tally {
    ghost words = { words_of };

    fn to_words(self) -> [u64; 4] {
        [self.settled, self.committed, self.aborted, self.stale]
    }

    fn from_words(bits: &[u64; 4]) -> Tally {
        Tally {
            settled: bits[0],
            committed: bits[1],
            aborted: bits[2],
            stale: bits[3],
        }
    }
}
