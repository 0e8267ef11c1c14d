//! What a job holds, and its run.

ghost use Rattle.std.specs.Prelude.{◌≡◌, IfOk, OnErr, Some};
ghost use Rattle.scheduler.specs.JobRuns.{LocksTouched, ComesOf};

use interp::{Effect, Entry, run};
use meaning::Outcome;
use row_store::Loan;
use std::alloc::Global;
use std::marker::Model;
use values::NoMemory;

/// What a job holds: the number of a transaction, its entry, and a loan of the rows that its plan locks.
#[derive(Drop)]
pub(crate) struct Parts {
    alloc: Global,
    no: u64,
    entry: Entry,
    loan: Loan,
}

impl Model for Parts {
    ghost use Rattle.std.specs.Prelude.{◌≡◌};
    ghost use Rattle.scheduler.specs.JobRuns.{JobOf, job_code, LocksTouched};

    ghost Value = { JobOf };

    ghost coded = { job_code };

    ghost view = { λ j. record { no = j.no; entry = j.entry; loan = j.loan } };

    ghost invariant = { λ j. (j.entry.request.proc.tables ≡ j.loan.tables) × LocksTouched j.entry j.loan };
}

impl Parts {
    /// These. The entry is over the loan's tables, and the loan's plan locks each row name that it may touch.
    pub(crate) fn new(alloc: Global, no: u64, entry: Entry, loan: Loan) -> Parts
        requires tables { entry.request.proc.tables ≡ loan.tables }
        requires locks { LocksTouched entry loan }
        ensures { result ≡ record { no = no; entry = entry; loan = loan } }
    {
        Parts {
            alloc,
            no,
            entry,
            loan,
        }
    }

    /// The transaction's number.
    pub(crate) fn no(&self) -> u64
        ensures { result ≡ self.now.no }
    {
        self.no
    }

    /// The entry.
    pub(crate) fn entry(&self) -> &Entry
        ensures { result.now ≡ self.now.entry }
    {
        &self.entry
    }

    /// The loan.
    pub(crate) fn into_loan(self) -> Loan
        ensures { result ≡ self.loan }
    {
        let Parts { loan, .. } = self;
        loan
    }

    /// Runs the entry on the loan, and makes its writes there.
    pub(crate) fn run_on_loan(&mut self) -> Result<Outcome, NoMemory>
        ensures err { OnErr result (self.new ≡ self.old) }
        ensures run { IfOk result (λ outcome. ComesOf self.old (Some outcome) self.new) }
    {
        let Effect { outcome, writes } = run(
            self.alloc,
            self.loan.catalogue(),
            &self.entry,
            &self.loan,
        )?;
        self.loan.apply(writes)?;
        Ok(outcome)
    }
}
