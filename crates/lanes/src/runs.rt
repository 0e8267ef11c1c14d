//! What comes of a job.

use hand_off::Work;
use scheduler::{Done, Job};

/// Of a job comes its run, or the job given back as it was lent.
pub struct Runs;

impl Work<Job, Done> for Runs {
    ghost use Rattle.scheduler.specs.JobRuns.{IsDoneOf};

    ghost comes_of = { IsDoneOf };
}
