//! A program around the engine: it reads a setup, executes calls that it makes itself, goes on where memory or a thread
//! is refused, and reads a row by its key.
#![tactic(auto)]

mod calls;
mod executing;
mod stock;

use calls::{Call, batch_of};
use calvin::{Engine, Reply, Settings, Setup, read_setup};
use executing::executed;
use report_text::push_reply_line;
use std::alloc::{AllocError, Global};
use std::sync::Wait;
use std::thread::Threads;
use std::{fs, io};
use stock::left_of;

/// The calls of each day.
const DAYS: [&[Call<'static>]; 2] = [
    &[("sell", &[1, 35]), ("sell", &[6, 4]), ("low", &[10])],
    &[("sell", &[1, 3]), ("sell", &[2, 1])],
];

/// The lines of replies, in log order.
fn lines_of(alloc: Global, replies: &[Reply]) -> Result<String, AllocError> {
    let mut lines = String::new(alloc);
    for reply in replies {
        push_reply_line(alloc, &mut lines, reply.no, reply.of, &reply.outcome)?;
    }
    Ok(lines)
}

/// Executes the calls of a day, and says what came of them and what is left of item 1.
fn run_day<R: Threads + Wait + Sync + io::Print + AllocGlobal>(
    rt: &R,
    engine: &mut Engine,
    calls: &[Call<'_>],
) -> io::Result<()> {
    let alloc = rt.alloc();
    let Ok(batch) = batch_of(alloc, engine.procs(), calls) else {
        return println!(rt; "no batch");
    };
    let Some(done) = executed(rt, engine, batch) else {
        return println!(rt; "not executed");
    };
    print!(rt; "{}", lines_of(alloc, &done.replies)?)?;
    match left_of(engine, 1) {
        Some(left) => println!(rt; "item 1: {left} left"),
        None => println!(rt; "item 1: none"),
    }
}

/// An engine with two workers on a setup.
fn engine_on(alloc: Global, setup: Setup) -> Option<Engine> {
    let settings = Settings::new(2, 8, 64, 65_536).ok()?;
    Engine::new(alloc, setup, settings).ok()
}

fn main(rt: HostRuntime) -> io::Result<()> {
    let alloc = rt.alloc();
    let text = fs::read(&rt, "inventory.json")?;
    let setup = match read_setup(alloc, &text) {
        Ok(document) => document.setup,
        Err(fault) => return println!(rt; "{fault}"),
    };
    let Some(mut engine) = engine_on(alloc, setup) else {
        return println!(rt; "no engine");
    };
    for calls in DAYS {
        run_day(&rt, &mut engine, calls)?;
    }
    Ok(())
}
