//! Where the threads of a workplace park, and who wakes them. A thread that finds nothing to do spins, looking again a
//! few times, then announces that it will park, looks once more, and is parked until another wakes it. A job that is
//! put wakes a worker only where none looks for a job already, and who claims a job while others wait wakes the
//! next.

use std::alloc::Global;
use std::hint::spin_loop;
use std::sync::Wait;
use std::sync::atomic::{AtomicBool, AtomicIsize, AtomicUsize, Ordering};
use std::thread::Parker;
use values::NoMemory;

/// How often a worker that has found nothing looks again before it announces that it will park, where a processor is
/// left for it: for some 20 microseconds. To be woken takes as long, and on a virtual machine the thread that wakes it
/// lacks its own processor for a while, too. Measured with one long call in 100: four workers take 1.15 of the
/// processors that one thread takes, and 1.3 with 4,096 looks.
const WORKER_SPINS: u32 = 1_024;

/// How often a worker looks again if a job came while it did so the last time: for some 80 microseconds. Where jobs
/// come one soon after another it isn't parked between them, so the scheduler's thread need not wake it. Measured with
/// one long call in ten: four workers take 0.61 of the time of one thread; with 1,024 looks, on another machine, 0.76.
const PATIENT_SPINS: u32 = 4_096;

/// How often the scheduler's thread looks again, for some 80 microseconds, where its workers leave a processor to it or
/// are one too many: while it is parked they may all find nothing. Measured on a busy host, where a thread is woken
/// late: long calls on four workers take 0.66 s where each thread looks 4,096 times, and 1.06 s where each looks 64
/// times.
const SCHEDULER_SPINS: u32 = 4_096;

/// How often a thread looks again where others may need all processors, or enough others look.
const FEW_SPINS: u32 = 64;

/// While more workers than this look for a job, each looks again few times: mostly one of them finds the next job, and
/// another the job after it. Measured with one long call in ten, in unproved builds on an idle machine: 16 workers take
/// 0.68 of the time of one thread, four 0.65, and 0.71 and 0.67 where all of them look on.
const MOST_LOOKING: isize = 2;

/// While more jobs than this wait for a worker, the scheduler's thread is not woken to make more, and runs one if it is
/// awake and the gate is open. Measured of waking, on the same loads as the limit of transactions that are admitted
/// ahead, where the noise was up to a third: 0, and no limit, show no difference beyond it. Measured of running one:
/// long calls on two workers take 0.35 of the time of one thread, and 0.57 where the scheduler's thread spins.
const FEW_WAIT: usize = 1;

/// How near a thread is to being parked.
#[derive(Clone, Copy, Debug, PartialEq, Eq)]
pub(crate) enum Idling {
    /// It has had something to do until now.
    Busy,
    /// It has found nothing so often, one time after another, or was woken and has not looked yet.
    Spinning(u32),
    /// It has announced that it will park, and looks once more.
    Announced,
}

/// How often a worker looks again before it announces that it will park.
#[derive(Clone, Copy, Debug)]
pub(crate) struct Patience {
    /// Whether a processor is left for it.
    has_processor: bool,
    /// Whether a job came while it looked again the last time.
    has_paid: bool,
}

impl Patience {
    /// That of a worker beside `others` threads that may be at work.
    pub(crate) fn beside(others: usize, processors: usize) -> Patience {
        Patience {
            has_processor: others < processors,
            has_paid: false,
        }
    }

    /// How often the worker looks again.
    pub(crate) fn spins(self) -> u32 {
        match (self.has_processor, self.has_paid) {
            (false, _) => FEW_SPINS,
            (true, false) => WORKER_SPINS,
            (true, true) => PATIENT_SPINS,
        }
    }

    /// Notes how near to being parked the worker was as it found a job. One that was woken has not looked yet.
    pub(crate) fn note(&mut self, idling: Idling) {
        match idling {
            Idling::Busy => {}
            Idling::Spinning(vain) => self.has_paid = vain > 0,
            Idling::Announced => self.has_paid = true,
        }
    }
}

/// How often the scheduler's thread looks again beside `others` threads that may be at work.
pub(crate) fn spins_of_scheduler(others: usize, processors: usize) -> u32 {
    if others <= processors {
        SCHEDULER_SPINS
    } else {
        FEW_SPINS
    }
}

/// Where one thread parks.
#[derive(Drop)]
pub(crate) struct Spot {
    /// Whether the thread has announced that it will park, and none has called it since.
    is_announced: AtomicBool,
    parker: Parker,
}

impl Spot {
    fn new() -> Spot {
        Spot {
            is_announced: AtomicBool::new(false),
            parker: Parker::new(),
        }
    }

    /// Takes a thread that has found nothing a step nearer to being parked, or parks it until it is woken. It looks
    /// again `spins` times at most.
    fn idle<R: Wait>(&self, rt: &R, idling: Idling, spins: u32) -> Idling {
        match idling {
            Idling::Busy => Idling::Spinning(0),
            Idling::Spinning(vain) if vain < spins => {
                spin_loop();
                Idling::Spinning(vain + 1)
            }
            Idling::Spinning(_) => {
                self.is_announced.store(true, Ordering::SeqCst);
                Idling::Announced
            }
            Idling::Announced => {
                self.parker.park(rt);
                // It may wake though none has called it, from what woke it before it was parked the last time.
                if self.withdraw() {
                    Idling::Busy
                } else {
                    Idling::Spinning(0)
                }
            }
        }
    }

    /// Withdraws the announcement, and answers whether there was one, without a call since.
    fn withdraw(&self) -> bool {
        self.is_announced.swap(false, Ordering::SeqCst)
    }

    /// Calls the thread if it has announced that it will park, and answers whether it had. Who calls it wakes it.
    fn call(&self) -> bool {
        self.is_announced.load(Ordering::SeqCst) && self.withdraw()
    }
}

/// Where the scheduler's thread and its workers park, what waits for them, and whether there is an end to what they do.
#[derive(Drop)]
pub(crate) struct Parking {
    ended: AtomicBool,
    /// How many jobs wait for a worker: no fewer than lie in lanes.
    waiting: AtomicUsize,
    /// How many results wait for the scheduler: no fewer than lie in lanes.
    finished: AtomicUsize,
    /// How many workers look for a job, or were called and will look. For a moment it may be less, or more: but it is
    /// above 0 only while some worker will still look once more, or will still wake the next.
    looking: AtomicIsize,
    scheduler: Spot,
    pub(crate) workers: Vec<Spot>,
}

impl Parking {
    /// Places to park for n workers.
    pub(crate) fn new(alloc: Global, count: usize) -> Result<Parking, NoMemory> {
        let mut workers = Vec::with_capacity(alloc, count)?;
        for _ in 0..count {
            workers.push(Spot::new())?;
        }
        Ok(Parking {
            ended: AtomicBool::new(false),
            waiting: AtomicUsize::new(0),
            finished: AtomicUsize::new(0),
            looking: AtomicIsize::new(0),
            scheduler: Spot::new(),
            workers,
        })
    }

    /// Says that a job is about to be put.
    pub(crate) fn expect_job(&self) {
        self.waiting.fetch_add(1, Ordering::SeqCst);
    }

    /// Whether a job may wait.
    pub(crate) fn has_jobs(&self) -> bool {
        self.waiting.load(Ordering::SeqCst) > 0
    }

    /// Wakes one of the parked workers, if there is one, where jobs wait that none looks for.
    pub(crate) fn wake_worker(&self) {
        if !self.has_jobs() || self.looking.load(Ordering::SeqCst) > 0 {
            return;
        }
        for spot in &self.workers {
            if spot.call() {
                self.looking.fetch_add(1, Ordering::SeqCst);
                spot.parker.unpark();
                return;
            }
        }
    }

    /// Takes a worker that has found no job a step nearer to being parked, or parks it until it is woken. It announces
    /// that it will park before it is no longer counted among those that look, and looks once more after that. It looks
    /// again `spins` times at most, and a few times where enough others look.
    pub(crate) fn idle_worker<R: Wait>(
        &self,
        rt: &R,
        spot: &Spot,
        idling: Idling,
        spins: u32,
    ) -> Idling {
        let spins = if self.looking.load(Ordering::SeqCst) > MOST_LOOKING {
            spins.min(FEW_SPINS)
        } else {
            spins
        };
        let next = spot.idle(rt, idling, spins);
        match (idling, next) {
            (Idling::Busy, _) => {
                self.looking.fetch_add(1, Ordering::SeqCst);
            }
            (_, Idling::Announced) => {
                self.looking.fetch_sub(1, Ordering::SeqCst);
            }
            _ => {}
        }
        next
    }

    /// Lets a worker go to the job that it has found, and wakes another where more jobs wait.
    pub(crate) fn go_to_job(&self, spot: &Spot, idling: Idling) {
        let is_counted = match idling {
            Idling::Busy => false,
            Idling::Spinning(_) => true,
            Idling::Announced => !spot.withdraw(),
        };
        if is_counted {
            self.looking.fetch_sub(1, Ordering::SeqCst);
        }
        self.take_job();
    }

    /// Says that a job was claimed, and wakes a worker where more jobs wait.
    pub(crate) fn take_job(&self) {
        self.waiting.fetch_sub(1, Ordering::SeqCst);
        self.wake_worker();
    }

    /// Says that a result is about to be delivered.
    pub(crate) fn expect_result(&self) {
        self.finished.fetch_add(1, Ordering::SeqCst);
    }

    /// Whether a result may wait.
    pub(crate) fn has_results(&self) -> bool {
        self.finished.load(Ordering::SeqCst) > 0
    }

    /// Whether more jobs wait than are left for the workers alone.
    pub(crate) fn has_spare_jobs(&self) -> bool {
        self.waiting.load(Ordering::SeqCst) > FEW_WAIT
    }

    /// Wakes the scheduler's thread if it is parked and few jobs wait for a worker. Where more wait it stays parked:
    /// whoever delivers what comes of one of these finds fewer that wait, and wakes it for all that was delivered.
    pub(crate) fn wake_scheduler(&self) {
        if !self.has_spare_jobs() && self.scheduler.call() {
            self.scheduler.parker.unpark();
        }
    }

    /// Takes the scheduler's thread, which found nothing to do, a step nearer to being parked, or parks it until woken.
    pub(crate) fn idle_scheduler<R: Wait>(&self, rt: &R, idling: Idling, spins: u32) -> Idling {
        self.scheduler.idle(rt, idling, spins)
    }

    /// Says that a result was collected.
    pub(crate) fn take_result(&self) {
        self.finished.fetch_sub(1, Ordering::SeqCst);
    }

    /// Lets the scheduler's thread go to what it has found.
    pub(crate) fn end_idling(&self, idling: Idling) {
        if idling == Idling::Announced {
            self.scheduler.withdraw();
        }
    }

    /// Whether the workers are to end.
    pub(crate) fn has_ended(&self) -> bool {
        self.ended.load(Ordering::SeqCst)
    }

    /// Ends the workers once they find nothing to do, and wakes those that are parked.
    pub(crate) fn end(&self) {
        self.ended.store(true, Ordering::SeqCst);
        for spot in &self.workers {
            spot.parker.unpark();
        }
    }
}
