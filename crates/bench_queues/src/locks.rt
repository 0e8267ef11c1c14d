//! Lock requests of transactions that all ask for one resource. Each eighth transaction writes it, and the others
//! read it.

use crate::crowd::Crowd;
use coarsen::Plan;
use footprint::{Footprint, Resource};
use lock_tree::EnqueueFault;
use proclang_types::Right;
use std::alloc::Global;
use std::io;
use std::rt::Clock;
use std::time::Instant;
use values::NoMemory;

/// A plan that asks for the database with that right.
fn plan_with(alloc: Global, right: Right) -> Result<Plan, NoMemory> {
    let mut footprint = Footprint::new(alloc);
    footprint.add(Resource::Db, right)?;
    Plan::new(alloc, &footprint, 64, 65_536)
}

/// `count` transactions, each in the queue of one resource.
fn crowd_of(alloc: Global, count: usize) -> Result<Crowd, EnqueueFault> {
    let read = plan_with(alloc, Right::Read)?;
    let write = plan_with(alloc, Right::Write)?;
    let mut crowd = Crowd::new(alloc, count)?;
    for no in 0..count {
        if no % 8 == 7 {
            crowd.enqueue(&write)?;
        } else {
            crowd.enqueue(&read)?;
        }
    }
    Ok(crowd)
}

/// In which order the transactions are released.
#[derive(Clone, Copy)]
pub(crate) enum Order {
    FromTheFront,
    AtRandom,
}

/// Puts numbers into an order that looks like chance, and is the same each time.
fn shuffle(numbers: &mut [usize]) {
    let mut chance: u64 = 2026;
    for place in 1..numbers.len() {
        chance = chance
            .wrapping_mul(6_364_136_223_846_793_005)
            .wrapping_add(1_442_695_040_888_963_407);
        numbers.swap(place, (chance >> 33) as usize % (place + 1));
    }
}

/// The numbers of `count` transactions, in the order in which they are released.
fn numbers_in(alloc: Global, count: usize, order: Order) -> Result<Vec<usize>, NoMemory> {
    let mut numbers: Vec<usize> = (0..count).collect(alloc)?;
    if let Order::AtRandom = order {
        shuffle(numbers.as_mut_slice());
    }
    Ok(numbers)
}

fn release_all(crowd: &mut Crowd, numbers: &[usize]) {
    for no in numbers {
        crowd.release(*no);
    }
}

/// Enqueues `count` transactions and releases them in that order: how many microseconds the latter takes, and whether
/// any is left.
pub(crate) fn measured<R: Clock + AllocGlobal>(
    rt: &R,
    count: usize,
    order: Order,
) -> io::Result<(u128, bool)> {
    let Ok(mut crowd) = crowd_of(rt.alloc(), count) else {
        return Err(io::Error::from(io::ErrorKind::OutOfMemory));
    };
    let Ok(numbers) = numbers_in(rt.alloc(), count, order) else {
        return Err(io::Error::from(io::ErrorKind::OutOfMemory));
    };
    let start = Instant::now(rt)?;
    release_all(&mut crowd, numbers.as_slice());
    let micros = start.elapsed(rt)?.as_micros();
    Ok((micros, crowd.is_left()))
}
