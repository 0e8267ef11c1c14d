//! Gates that count the jobs which pass them.

use crate::bank_setup::Bodies;
use engine::Gate;
use std::sync::atomic::{AtomicBool, AtomicU64, Ordering};
use std::thread;

/// How each call comes to be handed over as a job: the bodies of the procedures, and whether the gate is open. At the
/// open gate at least the first 65 of a pool are.
pub const HANDED_OVER: [(Bodies, bool); 2] = [(Bodies::Brief, false), (Bodies::Looping, true)];

/// Counts the jobs that pass, and those of them whose number isn't above that of the one before. Whether it says that
/// it is open is up to the test.
#[derive(Drop)]
pub struct CountingGate {
    is_open: bool,
    jobs: AtomicU64,
    /// One more than the number of the job that passed last, 0 where none has passed.
    next: AtomicU64,
    out_of_order: AtomicU64,
}

impl CountingGate {
    /// A gate that no job has passed.
    pub fn new(is_open: bool) -> CountingGate {
        CountingGate {
            is_open,
            jobs: AtomicU64::new(0),
            next: AtomicU64::new(0),
            out_of_order: AtomicU64::new(0),
        }
    }

    /// How many jobs have passed.
    pub fn jobs(&self) -> u64 {
        self.jobs.load(Ordering::SeqCst)
    }

    /// How many of them didn't come after the one before in the order of the log.
    pub fn out_of_order(&self) -> u64 {
        self.out_of_order.load(Ordering::SeqCst)
    }
}

impl Gate for CountingGate {
    fn enter(&self, no: u64) {
        self.jobs.fetch_add(1, Ordering::SeqCst);
        if self.next.swap(no.saturating_add(1), Ordering::SeqCst) > no {
            self.out_of_order.fetch_add(1, Ordering::SeqCst);
        }
    }

    fn is_open(&self) -> bool {
        self.is_open
    }
}

/// Holds one job until another comes, for `turns` turns at most, and notes whether it came. It counts the jobs, too.
#[derive(Drop)]
pub struct Meeting {
    count: CountingGate,
    held: u64,
    awaited: u64,
    turns: u32,
    came: AtomicBool,
    seen: AtomicBool,
}

impl Meeting {
    /// A gate that says so of itself, and holds the first of two jobs until the second comes.
    pub fn new(is_open: bool, (held, awaited): (u64, u64), turns: u32) -> Meeting {
        Meeting {
            count: CountingGate::new(is_open),
            held,
            awaited,
            turns,
            came: AtomicBool::new(false),
            seen: AtomicBool::new(false),
        }
    }

    /// How many jobs have passed, or are held.
    pub fn jobs(&self) -> u64 {
        self.count.jobs()
    }

    /// Whether the other job came while the first was held.
    pub fn was_seen(&self) -> bool {
        self.seen.load(Ordering::SeqCst)
    }

    /// Waits for the other job.
    fn wait(&self) {
        for _ in 0..self.turns {
            if self.came.load(Ordering::SeqCst) {
                self.seen.store(true, Ordering::SeqCst);
                return;
            }
            thread::yield_now();
        }
    }
}

impl Gate for Meeting {
    fn enter(&self, no: u64) {
        self.count.enter(no);
        if no == self.awaited {
            self.came.store(true, Ordering::SeqCst);
        }
        if no == self.held {
            self.wait();
        }
    }

    fn is_open(&self) -> bool {
        self.count.is_open()
    }
}
