//! Where a scheduler and its workers meet.

ghost use Rattle.std.specs.Prelude.{◌≡◌, IfOk};

use crate::parking::Parking;
use crate::settings::Settings;
use lanes::{Lanes, SchedulerSeat, WorkerSeat};
use std::alloc::Global;
use std::marker::Model;
use values::NoMemory;

/// Where a scheduler and its workers meet, as their threads share it: the lanes between them, and where each parks.
#[derive(Drop)]
pub struct Workplace {
    pub(crate) lanes: Lanes,
    /// How many lanes there are.
    pub(crate) count: usize,
    pub(crate) parking: Parking,
}

impl Model for Workplace {
    ghost use Rattle.std.specs.Prelude.{◌≡◌, ◌<◌};
    ghost use Rattle.lanes.specs.Seats.{LanesOf, lanes_code};

    ghost Value = { LanesOf };

    ghost coded = { lanes_code };

    ghost view = { λ place. place.lanes };

    ghost invariant = { λ place. (place.count ≡ place.lanes.count) × (0 < place.lanes.count) };
}

/// The seat from which jobs are handed out, and a worker's seat for the same thread. Each of these jobs has come back.
#[derive(Drop)]
pub struct HeadSeat {
    pub(crate) seat: SchedulerSeat,
    /// Where it runs a job itself.
    pub(crate) own: WorkerSeat,
}

impl Model for HeadSeat {
    ghost use Rattle.std.specs.Prelude.{◌≡◌};
    ghost use Rattle.lanes.specs.Seats.{LanesOf, lanes_code, jobs_in};
    ghost use Rattle.dispatcher.specs.Workers.{HoldsNoJob};

    ghost Value = { LanesOf };

    ghost coded = { lanes_code };

    ghost view = { λ head. head.seat.lanes };

    ghost invariant = { λ head. (jobs_in head.seat.jobs ≡ 0) × (head.own.lanes ≡ head.seat.lanes) ×
        HoldsNoJob head.own };
}

impl Workplace {
    /// A workplace with as many lanes, and room for as many workers, as the settings say, and its seat. `NoMemory`
    /// comes only if allocation fails.
    #[tactic(auto, using(crate::proofs::Worked::none_at_first))]
    pub fn new(alloc: Global, settings: Settings) -> Result<(Workplace, HeadSeat), NoMemory>
        ensures seat { IfOk result (λ made. made.1 ≡ made.0) }
        ensures count { IfOk result (λ made. made.0.count ≡ settings.lanes) }
    {
        let Settings {
            workers,
            lanes: count,
            ..
        } = settings;
        let (lanes, mut seat) = Lanes::new(alloc, count)?;
        let own = lanes.worker_seat(&mut seat)?;
        let parking = Parking::new(alloc, workers)?;
        let place = Workplace {
            lanes,
            count,
            parking,
        };
        Ok((place, HeadSeat { seat, own }))
    }
}
