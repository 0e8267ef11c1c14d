//! Laws of the definitions of rights, modes, coarsening and operators, in the subject's own words, each as the contract
//! of a function. Nothing depends on this crate: a law here makes no crate be checked anew.
//!
//! Proved: `rights_clash_by_write`, two rights clash exactly where both are there and one is Write;
//! `write_is_above_read`; `modes_are_grays`, the 25 cells of the table of Gray and others (1976);
//! `database_has_greatest_right`, the last step of coarsening leaves one entry, on the database, with the greatest
//! right of all; `numbers_are_compared_by_order`, `texts_are_compared_byte_by_byte`; `results_are_exact`, each
//! arithmetic operation with its faults.
#![tactic(auto)]

mod locks;
mod operators;

pub use locks::{
    database_has_greatest_right, modes_are_grays, rights_clash_by_write, write_is_above_read,
};
pub use operators::{
    numbers_are_compared_by_order, results_are_exact, texts_are_compared_byte_by_byte,
};
