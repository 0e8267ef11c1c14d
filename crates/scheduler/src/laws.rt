//! Laws of jobs, as contracts of functions that do nothing.

ghost use Rattle.scheduler.specs.Jobs.{LentJobsComeBack};

/// What comes of a job that was lent can be settled.
pub fn lent_jobs_come_back()
    ensures { LentJobsComeBack }
{}
