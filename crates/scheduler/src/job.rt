//! Jobs and their runs.

ghost use Rattle.std.specs.Prelude.{◌≡◌, is_some, IfOk, IfErr};
ghost use Rattle.scheduler.specs.JobRuns.{LocksTouched, IsDoneOf};

use crate::parts::Parts;
use interp::Entry;
use meaning::Outcome;
use row_store::Loan;
use std::alloc::Global;
use std::marker::Model;

/// A transaction that is out: its number, its entry, and a loan of the rows that its plan locks. It is a handle: to
/// move it is to move a word.
#[derive(Drop)]
pub struct Job {
    parts: Box<Parts>,
}

impl Model for Job {
    ghost use Rattle.scheduler.specs.JobRuns.{JobOf, job_code};

    ghost Value = { JobOf };

    ghost coded = { job_code };

    ghost view = { λ j. j.parts.value };
}

impl Job {
    /// A job of these. The entry is over the loan's tables, and the loan's plan locks each row name that it may touch.
    /// If allocation fails, the loan comes back.
    pub(crate) fn new(alloc: Global, no: u64, entry: Entry, loan: Loan) -> Result<Job, Loan>
        requires tables { entry.request.proc.tables ≡ loan.tables }
        requires locks { LocksTouched entry loan }
        ensures job { IfOk result (λ job. job ≡ record { no = no; entry = entry; loan = loan }) }
        ensures back { IfErr result (λ back. back ≡ loan) }
    {
        let parts = Parts::new(alloc, no, entry, loan);
        match Box::new(alloc, parts) {
            Ok(parts) => Ok(Job { parts }),
            Err(refused) => Err(refused.value.into_loan()),
        }
    }

    /// The transaction's number.
    pub fn no(&self) -> u64
        ensures { result ≡ self.now.no }
    {
        self.parts.no()
    }

    /// The transaction's entry.
    pub fn entry(&self) -> &Entry
        ensures { result.now ≡ self.now.entry }
    {
        self.parts.entry()
    }

    /// The job's loan.
    pub(crate) fn into_loan(self) -> Loan
        ensures { result ≡ self.loan }
    {
        let Job { parts } = self;
        Box::into_inner(parts).into_loan()
    }
}

/// A job that came back: with the outcome of its run and the rows that it leaves, or, for
/// want of memory, as it was lent.
#[derive(Drop)]
pub struct Done {
    job: Job,
    outcome: Option<Outcome>,
}

impl Model for Done {
    ghost use Rattle.scheduler.specs.JobRuns.{DoneOf, done_code};

    ghost Value = { DoneOf };

    ghost coded = { done_code };

    ghost view = { λ d. record { job = d.job; outcome = d.outcome } };
}

impl Done {
    /// The transaction's number.
    pub fn no(&self) -> u64
        ensures { result ≡ self.now.job.no }
    {
        self.job.no()
    }

    /// Whether it was run; it comes back as it was lent if not.
    pub fn is_run(&self) -> bool
        ensures { result ≡ is_some self.now.outcome }
    {
        self.outcome.is_some()
    }

    /// The job, and its outcome where it was run.
    pub(crate) fn into_parts(self) -> (Job, Option<Outcome>)
        ensures job { result.0 ≡ self.job }
        ensures outcome { result.1 ≡ self.outcome }
    {
        let Done { job, outcome } = self;
        (job, outcome)
    }
}

/// Runs a job. On every database that agrees with the loan on what its plan locks, the entry has the outcome that comes
/// back, and leaves the rows that the loan then shows. If allocation fails the job comes back as it was lent.
pub fn run_job(job: Job) -> Done
    ensures { IsDoneOf job result }
{
    let mut job = job;
    let outcome = job.parts.run_on_loan().ok();
    Done { job, outcome }
}
