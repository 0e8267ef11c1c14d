//! What it costs to wait in a queue: in that of the lock requests for one resource, and between client threads and one
//! owner, through an intake and through the bare queue below it.
//!
//!     bench_queues                  a few of each, and how many are left or were drawn
//!     bench_queues locks COUNT      how many microseconds it takes to release COUNT transactions, from the front and
//!                                   in random order
//!     bench_queues intake COUNT     how many numbers a second are submitted and drawn, at best, where each client
//!                                   hands over COUNT
#![tactic(auto)]

ghost use Rattle.std.specs.Prelude.{◌<◌, ◌≤◌};

mod crowd;
mod handing;
mod locks;

use anyhow::{Context, Result};
use handing::{through_intake, through_queue};
use locks::{Order, measured};
use std::alloc::AllocError;
use std::env;
use std::io::Print;
use std::num::nearest_u64_to_f64;
use std::rt::Clock;
use std::sync::Wait;
use std::thread::Threads;
use std::time::Instant;

/// How many a second are handed over so, the best of five.
fn rate<F: Fn() -> Result<u64, AllocError>>(rt: &impl Clock, hand_over: F) -> Result<f64>
    requires { F.IsAlwaysCallable hand_over }
{
    let mut best = 0f64;
    for _ in 0..5 {
        let start = Instant::now(rt)?;
        let drawn = nearest_u64_to_f64(hand_over()?);
        best = best.max(drawn / start.elapsed(rt)?.as_secs_f64());
    }
    Ok(best)
}

/// A few transactions and a thousand numbers, and what is left or was drawn of them.
fn try_both<R: Threads + Wait + Sync + Print + Clock + AllocGlobal>(rt: &R) -> Result<()> {
    let (_, front_left) = measured(rt, 64, Order::FromTheFront)?;
    let (_, random_left) = measured(rt, 64, Order::AtRandom)?;
    let left = if front_left || random_left {
        "some are"
    } else {
        "none is"
    };
    println!(rt; "{left} left")?;
    for clients in [1u8, 4] {
        let drawn = through_intake(rt, rt.alloc(), clients, 1_000)?;
        let taken = through_queue(rt, rt.alloc(), clients, 1_000)?;
        println!(rt; "clients {clients}: intake {drawn}, bare queue {taken}")?;
    }
    Ok(())
}

fn measure_locks<R: Print + Clock + AllocGlobal>(rt: &R, count: usize) -> Result<()> {
    let (front, _) = measured(rt, count, Order::FromTheFront)?;
    let (random, _) = measured(rt, count, Order::AtRandom)?;
    println!(rt; "{count} {front} {random}")?;
    Ok(())
}

fn measure_intake<R: Threads + Wait + Sync + Print + Clock + AllocGlobal>(
    rt: &R,
    each: u32,
) -> Result<()> {
    for clients in [1u8, 4] {
        let drawn = rate(
            rt,
            ||
                requires { (0 < clients) × (clients ≤ 4) }
            { through_intake(rt, rt.alloc(), clients, each) },
        )?;
        let taken = rate(rt, || through_queue(rt, rt.alloc(), clients, each))?;
        println!(rt; "clients {clients}: intake {drawn:.0} a second, bare queue {taken:.0}")?;
    }
    Ok(())
}

fn main(rt: HostRuntime) -> Result<()> {
    let words: Vec<String> = env::args(&rt)?.collect(rt.alloc())?;
    let Some(count) = words.get(2) else {
        return try_both(&rt);
    };
    let count = count.as_str().parse::<u32>().context("COUNT is a number")?;
    match words[1].as_str() {
        "locks" => measure_locks(&rt, count as usize),
        _ => measure_intake(&rt, count),
    }
}
