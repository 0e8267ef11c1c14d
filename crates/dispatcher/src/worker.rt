//! What a worker does.

ghost use Rattle.std.specs.Prelude.{◌≡◌, IfSome, IfNone};
ghost use Rattle.lanes.specs.Calls.{Claims};
ghost use Rattle.dispatcher.specs.Workers.{HoldsNoJob};

use crate::gate::Gate;
use crate::parking::{Idling, Parking, Patience, Spot};
use lanes::{LaneNo, Lanes, WorkerSeat};
use scheduler::{Job, run_job};
use std::sync::Wait;
use std::thread::Scope;

/// What a thread does at a worker's seat until it ends.
pub(crate) trait Task {
    /// Comes back with the seat, at which no job is.
    fn work<R: Wait, G: Gate>(self, rt: &R, gate: &G) -> WorkerSeat
        ensures { HoldsNoJob result };
}

/// A worker on its seat at the lanes, at which no job is, and where it parks.
#[derive(Drop)]
pub(crate) struct Worker<'a, 'b> {
    pub lanes: &'a Lanes,
    pub seat: WorkerSeat,
    pub parking: &'b Parking,
    pub spot: &'b Spot,
    /// How often it looks again for a job before it parks.
    pub patience: Patience,
    ghost seated: { seat.lanes ≡ lanes.now },
    ghost free: { HoldsNoJob seat },
}

/// A job that waits, if there may be one: lanes are tried only then.
fn find_job(lanes: &Lanes, seat: &mut WorkerSeat, parking: &Parking) -> Option<(LaneNo, Job)>
    requires { seat.old.lanes ≡ lanes.now }
    ensures some { IfSome result (λ r. Claims seat.old r.0 r.1 seat.new) }
    ensures none { IfNone result ((seat.new.lanes ≡ lanes.now) × (seat.new.jobs ≡ seat.old.jobs)) }
{
    if parking.has_jobs() {
        lanes.claim(seat)
    } else {
        None
    }
}

/// Claims a job that waits, and delivers what comes of it, as a worker does; `false` where none was found.
#[tactic(auto, using(crate::proofs::Worked::delivered, crate::proofs::Worked::none_claimed))]
pub(crate) fn run_one<G: Gate>(
    lanes: &Lanes,
    seat: &mut WorkerSeat,
    parking: &Parking,
    gate: &G,
) -> bool
    requires lanes { seat.old.lanes ≡ lanes.now }
    requires free { HoldsNoJob seat.old }
    ensures lanes { seat.new.lanes ≡ lanes.now }
    ensures free { HoldsNoJob seat.new }
{
    let Some((lane, job)) = find_job(lanes, seat, parking) else {
        return false;
    };
    parking.take_job();
    gate.enter(job.no());
    let done = run_job(job);
    parking.expect_result();
    lanes.deliver(seat, lane, done);
    true
}

impl Task for Worker<'_, '_> {
    /// Claims jobs and delivers what comes of each before it claims the next, until it finds none after the workers
    /// were told to end. It passes the gate once for each job that it claimed, before it runs it, and parks while it
    /// finds none.
    #[tactic(auto, using(crate::proofs::Worked::delivered, crate::proofs::Worked::none_claimed))]
    fn work<R: Wait, G: Gate>(self, rt: &R, gate: &G) -> WorkerSeat {
        let Worker {
            lanes,
            seat,
            parking,
            spot,
            patience,
        } = self;
        let mut seat = seat;
        let mut patience = patience;
        let mut idling = Idling::Busy;
        for _ in rt.forever() {
            match find_job(lanes, &mut seat, parking) {
                Some((lane, job)) => {
                    parking.go_to_job(spot, idling);
                    patience.note(idling);
                    idling = Idling::Busy;
                    gate.enter(job.no());
                    let done = run_job(job);
                    parking.expect_result();
                    lanes.deliver(&mut seat, lane, done);
                    parking.wake_scheduler();
                }
                None => {
                    if parking.has_ended() {
                        break;
                    }
                    idling = parking.idle_worker(rt, spot, idling, patience.spins());
                }
            }
        }
        seat
    }
}

/// Starts a thread in a scope for a task; `false` where the system refuses it.
pub(crate) fn start<'s, 'r: 's, 'g: 's, E, R: Wait + Sync, G: Gate, D: Task + Send + Drop + 's>(
    rt: &'r R,
    scope: &Scope<'s, E>,
    gate: &'g G,
    task: D,
) -> bool {
    scope
        .spawn(move || {
            let _seat = task.work(rt, gate);
        })
        .is_ok()
}
