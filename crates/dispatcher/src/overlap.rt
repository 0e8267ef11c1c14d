//! Whether it pays to hand calls over: what the scheduler's thread gets done while jobs are out, as far as a pool of
//! workers has seen. A long call is one that isn't brief.

/// Jobs have paid if at least as many brief calls were run beside them, or one more job was put. Beside fewer the
/// thread mostly waits as long as it would run the call itself, and longer if a worker has to be woken.
const ENOUGH_CALLS: u32 = 4;

/// The credit at the start, and the most that there can be. If jobs never pay, 65 are handed over before long calls are
/// kept, which costs some milliseconds.
const MOST_CREDIT: i32 = 64;

/// The least credit. From there jobs have to pay eight times before each long call is handed over again.
const LEAST_CREDIT: i32 = -8;

/// While jobs mostly don't pay, one long call in 16 is handed over all the same, since the next ones may pay. Measured:
/// `tpcc` on four workers takes 1.05 of the time alone and 1.08 of the processors, and 1.10 and 1.24 where each long
/// call is handed over.
const TRIED_OF: u32 = 16;

/// How jobs have paid until now.
#[derive(Clone, Copy, Debug)]
pub(crate) struct Overlap {
    /// How many brief calls were run since the first of the jobs that are out was put; as many as pay where another job
    /// was put beside it. It means nothing where no job is out.
    beside: u32,
    /// How many times jobs have paid, less how many times they haven't, between limits.
    credit: i32,
    /// How many times the last job that was out has come back, and how many long calls were kept, taken together.
    turns: u32,
}

impl Overlap {
    /// Nothing was handed over.
    pub(crate) fn new() -> Overlap {
        Overlap {
            beside: 0,
            credit: MOST_CREDIT,
            turns: 0,
        }
    }

    /// Whether the next long call is to be handed over where no job is out: jobs have mostly paid, or it is the one in
    /// 16 that shows whether they do now.
    pub(crate) fn pays(&self) -> bool {
        self.credit >= 0 || self.turns % TRIED_OF == 0
    }

    /// Notes that a job was put beside `out` others.
    pub(crate) fn note_job(&mut self, out: usize) {
        self.beside = if out == 0 { 0 } else { ENOUGH_CALLS };
    }

    /// Notes that a brief call was run.
    pub(crate) fn note_brief(&mut self) {
        self.beside = self.beside.saturating_add(1);
    }

    /// Notes that a long call was kept.
    pub(crate) fn note_kept(&mut self) {
        self.turns = self.turns.wrapping_add(1);
    }

    /// Notes that a job has come back, and `out` others have not.
    pub(crate) fn note_back(&mut self, out: usize) {
        if out > 0 {
            return;
        }
        self.turns = self.turns.wrapping_add(1);
        self.credit = if self.beside >= ENOUGH_CALLS {
            self.credit.saturating_add(1).min(MOST_CREDIT)
        } else {
            self.credit.saturating_sub(1).max(LEAST_CREDIT)
        };
    }
}
