//! Numbers that clients hand over from threads of their own to one owner: through an intake, or through a bare queue.

ghost use Rattle.std.specs.Prelude.{◌≡◌, ◌<◌, ◌≤◌, [], vec_len};
ghost use Rattle.intake.specs.Passes.{IsClientOf, IsDrawerOf, AreNewClients, sent_by};

use crossbeam_queue::ArrayQueue;
use intake::{ClientPass, DrawPass, Intake, Item, MOST_DRAWN};
use std::alloc::{AllocError, Global};
use std::sync::Wait;
use std::sync::atomic::{AtomicBool, Ordering};
use std::thread::{self, Threads, join, map_indices, map_vec};

/// How many numbers are on their way at most.
const CAPACITY: usize = 1_024;

fn submit_all(rt: &impl Wait, intake: &Intake<u32>, pass: ClientPass<u32>, each: u32)
    requires { IsClientOf intake.now pass × (sent_by pass ≡ []) }
{
    let mut pass = pass;
    for _ in rt.forever() {
        if pass.sent() == u64::from(each) {
            break;
        }
        if intake.submit(rt, &mut pass, each).is_err() {
            thread::yield_now();
        }
    }
}

fn draw_all(
    rt: &impl Wait,
    intake: &Intake<u32>,
    pass: DrawPass<u32>,
    ended: &AtomicBool,
) -> Result<u64, AllocError>
    requires { IsDrawerOf intake.now pass }
{
    let (mut pass, mut drawn) = (pass, 0u64);
    for _ in rt.forever() {
        let is_last = ended.load(Ordering::SeqCst);
        let items: Vec<Item<u32>> = intake.draw(rt, &mut pass, MOST_DRAWN)?;
        match items.len() {
            0 if is_last => break,
            0 => thread::yield_now(),
            count => drawn = drawn.wrapping_add(count as u64),
        }
    }
    Ok(drawn)
}

/// Lets `clients` clients submit `each` numbers each to an intake, and gives how many were drawn.
pub fn through_intake<R: Threads + Wait + Sync>(
    rt: &R,
    alloc: Global,
    clients: u8,
    each: u32,
) -> Result<u64, AllocError>
    requires { (0 < clients) × (clients ≤ 4) }
{
    let (intake, passes, pass) = Intake::new(alloc, clients, CAPACITY)?;
    let (intake, flag) = (&intake, AtomicBool::new(false));
    let ended = &flag;
    let submit = move || -> Result<Vec<()>, AllocError>
        requires { AreNewClients intake.now (vec_len passes) passes.items }
    {
        let submitted = map_vec(
            rt,
            passes,
            &move |pass: ClientPass<u32>|
                requires { IsClientOf intake.now pass × (sent_by pass ≡ []) }
            { submit_all(rt, intake, pass, each) },
        );
        ended.store(true, Ordering::SeqCst);
        submitted
    };
    join(rt, submit, move || draw_all(rt, intake, pass, ended)).1
}

fn push_all(rt: &impl Wait, queue: &ArrayQueue<u32>, each: u32) {
    let mut left = each;
    for _ in rt.forever() {
        if left == 0 {
            break;
        }
        match queue.push(rt, left) {
            Ok(()) => left -= 1,
            Err(_) => thread::yield_now(),
        }
    }
}

fn pop_all(rt: &impl Wait, queue: &ArrayQueue<u32>, ended: &AtomicBool) -> u64 {
    let mut popped = 0u64;
    for _ in rt.forever() {
        let is_last = ended.load(Ordering::SeqCst);
        match queue.pop(rt) {
            Some(_) => popped = popped.wrapping_add(1),
            None if is_last => break,
            None => thread::yield_now(),
        }
    }
    popped
}

/// The same through a bare queue.
pub fn through_queue<R: Threads + Wait + Sync>(
    rt: &R,
    alloc: Global,
    clients: u8,
    each: u32,
) -> Result<u64, AllocError> {
    let (queue, flag) = (ArrayQueue::new(alloc, CAPACITY)?, AtomicBool::new(false));
    let (queue, ended) = (&queue, &flag);
    let push = move || {
        let pushed = map_indices(
            rt,
            alloc,
            clients as usize,
            &move |_| push_all(rt, queue, each),
        );
        ended.store(true, Ordering::SeqCst);
        pushed
    };
    Ok(join(rt, push, move || pop_all(rt, queue, ended)).1)
}
