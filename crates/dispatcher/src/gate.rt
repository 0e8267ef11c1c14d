//! Where a thread waits before it runs a job.

/// What the thread that claims a job passes, once for it, before it runs it: a worker, or the scheduler's thread, which
/// claims a job where no other is out or, at an open gate, others wait. A call that is no job passes no gate: at an
/// open one a brief call, and a long one that the scheduler's thread keeps. A test holds threads here.
pub trait Gate: Sync {
    /// Passes with the job of the transaction of that number.
    fn enter(&self, no: u64);

    /// Whether each job passes at once and nothing is noted of it, whenever that is asked: then the scheduler's thread
    /// runs brief calls without passing, and long ones that it keeps, and jobs that its workers can spare. `false`
    /// unless a gate says otherwise.
    fn is_open(&self) -> bool {
        false
    }
}

/// Lets every job pass at once.
#[derive(Clone, Copy, Debug)]
pub struct OpenGate;

impl Gate for OpenGate {
    #[inline]
    fn enter(&self, _no: u64) {}

    #[inline]
    fn is_open(&self) -> bool {
        true
    }
}
