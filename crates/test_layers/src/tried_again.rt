//! Stale requests that are left to be tried again.

use crate::test_world::bank;
use meaning::Outcome;
use proclang::{Request, read_procs};
use sequencer::{Attempts, Batch, Carried, left};
use serde_json::Value as Json;
use std::alloc::Global;
use std::test::Fail;

const PROCS: &str = r#"["procs",1,[["find",[],["recon"],[]]]]"#;

/// The number of the first attempt of a request that is left, and how many were made; `None` where none is left.
type Left = Option<(u64, u8)>;

/// The first attempt at a call.
fn first_attempt(alloc: Global) -> Result<Attempts, Fail> {
    let procs = read_procs(alloc, &Json::from_str(alloc, PROCS)?, &bank(alloc)?)?;
    let request = Request::new(&procs, "find", Vec::new(alloc))?;
    let batch = Batch::of(alloc, vec![in alloc; request]?)?;
    Ok(Attempts::of(Vec::new(alloc), batch))
}

/// What is left of one attempt, or of none, where that is stale.
fn left_of_stale(
    alloc: Global,
    attempts: Attempts,
    no: u32,
    retries: u8,
) -> Result<Vec<Carried>, Fail> {
    if attempts.len() != 1 {
        return Ok(Vec::new(alloc));
    }
    match left(alloc, attempts, u64::from(no), &[Outcome::Stale], retries) {
        Ok(left) => Ok(left),
        Err(_) => Err(Fail::from("no memory")),
    }
}

fn told(left: &[Carried]) -> Left {
    match left.first() {
        Some(one) => Some((one.first, one.tries)),
        None => None,
    }
}

/// What is left of a call that is stale as transaction 7, and then alone as transaction 8.
fn left_of_two(alloc: Global, retries: u8) -> Result<(Left, Left), Fail> {
    let first = left_of_stale(alloc, first_attempt(alloc)?, 7, retries)?;
    let once = told(first.as_slice());
    let attempts = Attempts::of(first, Batch::of(alloc, Vec::new(alloc))?);
    let second = left_of_stale(alloc, attempts, 8, retries)?;
    Ok((once, told(second.as_slice())))
}

#[test]
fn a_stale_request_is_left_as_often_as_it_may_be(rt: HostRuntime) -> Result<(), Fail> {
    let table = [
        (0, (None, None)),
        (1, (Some((7, 1)), None)),
        (2, (Some((7, 1)), Some((7, 2)))),
    ];
    for (retries, left) in table {
        assert_eq!(rt; left_of_two(rt.alloc(), retries)?, left, "{retries}");
    }
    Ok(())
}
