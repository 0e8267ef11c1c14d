//! What a lane is doing, and the word that says so.

/// What a lane is doing. At the start it is idle.
pub enum LaneState {
    /// It has no job.
    Idle,
    /// The scheduler is putting a job there.
    Filling,
    /// Its job waits for a worker.
    Waiting,
    /// A worker has claimed its job.
    Taken,
    /// What came of its job is there.
    Finished,
    /// The scheduler is collecting what is there.
    Draining,
}

/// A lane that a seat looked at, and what it was found doing.
pub struct Note {
    pub lane: usize,
    pub found: LaneState,
}

/// The word of an idle lane.
pub(crate) const IDLE: u64 = 0;

/// The word of a lane that is being filled.
pub(crate) const FILLING: u64 = 1;

/// The word of a lane whose job waits.
pub(crate) const WAITING: u64 = 2;

/// The word of a lane whose job is claimed.
pub(crate) const TAKEN: u64 = 3;

/// The word of a lane where a result is.
pub(crate) const FINISHED: u64 = 4;

/// The word of a lane that is being drained.
pub(crate) const DRAINING: u64 = 5;
