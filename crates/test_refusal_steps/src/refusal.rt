//! The allocation that is refused.

use std::alloc::Global;
use std::fmt;

/// More allocations than a step and what it needs make.
const MOST: u64 = 20_000;

/// Makes `most` allocations at most, one after another, and lets each go. Says how many were made until one was
/// refused.
fn allocate(alloc: Global, most: u64) -> u64 {
    for made in 0..most {
        let mut list = Vec::new(alloc);
        if list.push(made).is_err() {
            return made;
        }
    }
    most
}

/// An allocation that the system refuses, somewhere ahead.
#[derive(Drop)]
pub struct Refusal {
    alloc: Global,
    /// How many allocations are to be made before the step.
    wanted: u64,
    /// How many are to be made after the step, unless one is refused.
    most: u64,
    /// How many were made before the step.
    before: u64,
    /// How many could be made after the step until one was refused, if one was.
    after: Option<u64>,
}

impl Refusal {
    /// A refusal before which `wanted` allocations are made, and none is made yet.
    pub fn new(alloc: Global, wanted: u64) -> Refusal {
        Refusal {
            alloc,
            wanted,
            most: MOST,
            before: 0,
            after: None,
        }
    }

    /// One that is not looked for, neither before the step nor after it.
    pub fn elsewhere(alloc: Global) -> Refusal {
        Refusal {
            alloc,
            wanted: 0,
            most: 0,
            before: 0,
            after: None,
        }
    }

    /// Comes near it, in whatever thread, and says how many allocations were made.
    pub fn near(&self) -> u64 {
        allocate(self.alloc, self.wanted.min(MOST))
    }

    /// Comes near it: the step begins.
    pub fn approach(&mut self) {
        self.before = self.near();
    }

    /// Notes that `made` allocations came near it within the step.
    pub fn note_approach(&mut self, made: u64) {
        self.before = made;
    }

    /// Passes it, if the step did not meet it: the step has ended.
    pub fn pass(&mut self) {
        let made = allocate(self.alloc, self.most);
        if made < self.most {
            self.after = Some(made);
        }
    }
}

impl fmt::Display for Refusal {
    fn fmt<W: fmt::Write>(&self, f: &mut fmt::Formatter<W>) -> fmt::Result {
        match self.after {
            Some(after) => write!(f, "{} {after}", self.before),
            None => write!(f, "{} none", self.before),
        }
    }
}
