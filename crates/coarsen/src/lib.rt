//! Plans: the lock requests for a footprint, after coarsening, and whether two plans clash.
//!
//! Proved, by `Plan::new`: for every threshold and every number of requests the plan is that of the coarsened
//! footprint; it covers all that the footprint covers, has no more requests than allowed, and keeps the protocol of
//! intentions on ancestors. `Plan::requests`: each resource once, with its ancestors, in tree order. `clash`: true
//! exactly where two plans cover some row name, present or not, with rights that clash; that is an incompatible pair of
//! requests on some resource.
//!
//! Laws: a footprint has one plan, and it serves the footprint; what each step of coarsening leaves on each resource;
//! after all steps what was covered is covered, no entry is under one of at least its right, and at most the threshold
//! of entries of a level have one parent; clashes are symmetric.
//!
//! Tested only: that 65,536 rows have a plan of 65,540 requests, or are coarsened.
#![tactic(auto)]

mod clashes;
mod coarsening;
mod laws;
mod level;
mod plan;
mod requests;
mod subtree;

pub use clashes::clash;
pub use laws::{
    clashes_are_either_way, coarsened_footprints_cover, covered_entries_go,
    footprints_are_of_catalogues, locked_rows_conflict, many_entries_become_one, plan_is_one,
    plans_are_exact, plans_serve, subtrees_are_of_ancestors,
};
pub use plan::Plan;
