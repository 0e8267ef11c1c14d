//! The lock tree as one list of transactions that is searched from the front: the plain program that the lock tree is
//! compared with.

use coarsen::Plan;
use footprint::Resource;
use modes::{Mode, compatible};
use std::alloc::Global;
use std::test::Fail;

/// A transaction with its plan and its mark.
#[derive(Drop)]
struct Waits {
    no: u64,
    plan: Vec<(Resource, Mode)>,
    marked: bool,
}

/// All transactions, in order.
#[derive(Drop)]
pub(crate) struct Plain {
    arena: usize,
    waiting: Vec<Waits>,
}

fn mode_on(plan: &[(Resource, Mode)], resource: &Resource) -> Option<Mode> {
    for (asked, mode) in plan {
        if resource.cmp(asked).is_eq() {
            return Some(*mode);
        }
    }
    None
}

/// Whether a mode goes with what all up to a transaction ask for on a resource.
fn fits_before(waiting: &[Waits], resource: &Resource, no: u64, mode: Mode) -> bool {
    for other in waiting {
        if other.no >= no {
            return true;
        }
        if let Some(held) = mode_on(other.plan.as_slice(), resource) {
            if !compatible(held, mode) {
                return false;
            }
        }
    }
    true
}

/// Whether the requests on a resource up to a transaction's go with one another.
fn is_granted(waiting: &[Waits], resource: &Resource, no: u64) -> bool {
    for other in waiting {
        if other.no > no {
            return true;
        }
        if let Some(mode) = mode_on(other.plan.as_slice(), resource) {
            if !fits_before(waiting, resource, other.no, mode) {
                return false;
            }
        }
    }
    true
}

fn all_granted(waiting: &[Waits], plan: &[(Resource, Mode)], no: u64) -> bool {
    for (resource, _) in plan {
        if !is_granted(waiting, resource, no) {
            return false;
        }
    }
    true
}

fn used(waiting: &[Waits]) -> usize {
    let mut used = 0usize;
    for waits in waiting {
        used = used.saturating_add(waits.plan.len());
    }
    used
}

impl Plain {
    /// No transactions, and room for `arena` requests.
    pub(crate) fn new(alloc: Global, arena: usize) -> Plain {
        Plain {
            arena,
            waiting: Vec::new(alloc),
        }
    }

    /// Puts a transaction after all others, if there is room for its requests.
    pub(crate) fn enqueue(&mut self, alloc: Global, no: u64, plan: &Plan) -> Result<bool, Fail> {
        if used(self.waiting.as_slice()).saturating_add(plan.requests().len()) > self.arena {
            return Ok(false);
        }
        let plan = Vec::from_slice(alloc, plan.requests())?;
        self.waiting.push(Waits {
            no,
            plan,
            marked: false,
        })?;
        Ok(true)
    }

    pub(crate) fn is_ready(&self, no: u64) -> bool {
        let waiting = self.waiting.as_slice();
        for waits in waiting {
            if waits.no == no {
                return all_granted(waiting, waits.plan.as_slice(), no);
            }
        }
        false
    }

    pub(crate) fn next_ready(&self) -> Option<u64> {
        for waits in &self.waiting {
            if !waits.marked && self.is_ready(waits.no) {
                return Some(waits.no);
            }
        }
        None
    }

    pub(crate) fn set_mark(&mut self, no: u64, mark: bool) {
        for waits in self.waiting.iter_mut() {
            if waits.no == no {
                waits.marked = mark;
            }
        }
    }

    pub(crate) fn release(&mut self, no: u64) {
        self.waiting.retain(|waits| waits.no != no);
    }
}
