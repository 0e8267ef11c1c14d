//! The queues and one plain list of requests, on the same steps.

ghost use Rattle.std.specs.Prelude.{◌≡◌, ◌<◌, length, IfSome};
ghost use Rattle.request_arena.specs.Lists.{IsLive};
ghost use Rattle.test_layers.specs.Firsts.{AllFirst};

use crate::chance::Chance;
use modes::Mode;
use request_arena::{Full, NodeId, Queues, Request};
use std::process::Abort;
use std::test::Fail;

const QUEUES: usize = 3;

const NODES: usize = 40;

fn mode(number: u64) -> Mode {
    match number {
        0 => Mode::IntentionShared,
        1 => Mode::IntentionExclusive,
        2 => Mode::Shared,
        3 => Mode::SharedIntentionExclusive,
        _ => Mode::Exclusive,
    }
}

/// The node at a place of a queue.
pub(crate) fn node_at(queues: &Queues, queue: usize, place: usize) -> Option<NodeId>
    requires { queue < length queues.now.queues }
    ensures { IfSome result (λ id. IsLive queues.now id) }
{
    let mut at = queues.first(queue);
    for _ in 0..place {
        match at {
            Some(id) => at = queues.next(id),
            None => return None,
        }
    }
    at
}

/// Whether a queue has its requests of the plain list, in that order.
fn agree(queues: &Queues, queue: usize, plain: &[(usize, Request)]) -> bool
    requires { queue < length queues.now.queues }
{
    let mut at = queues.first(queue);
    for (of, request) in plain {
        if *of == queue {
            match at {
                Some(id) => {
                    if queues.get(id) != *request {
                        return false;
                    }
                    at = queues.next(id);
                }
                None => return false,
            }
        }
    }
    at.is_none()
}

/// A request with a chain of its own.
pub(crate) fn push(queues: &mut Queues, queue: usize, request: Request) -> bool
    requires there { queue < length queues.old.queues }
    requires first { AllFirst queues.old }
    ensures first { AllFirst queues.new }
    ensures many { length queues.new.queues ≡ length queues.old.queues }
{
    match queues.push_back(queue, None, request) {
        Ok(_) => true,
        Err(Full) => false,
    }
}

/// Takes out a node: its request, and the next of its chain.
pub(crate) fn take(queues: &mut Queues, id: NodeId) -> (Request, Option<NodeId>)
    requires live { IsLive queues.old id }
    requires first { AllFirst queues.old }
    ensures first { AllFirst queues.new }
    ensures many { length queues.new.queues ≡ length queues.old.queues }
{
    queues.remove(id)
}

/// Puts a request into both.
fn add_one(
    rt: &impl Abort,
    queues: &mut Queues,
    plain: &mut Vec<(usize, Request)>,
    queue: usize,
    request: Request,
) -> Result<(), Fail>
    requires there { queue < length queues.old.queues }
    requires first { AllFirst queues.old }
    ensures first { AllFirst queues.new }
    ensures many { length queues.new.queues ≡ length queues.old.queues }
{
    if push(queues, queue, request) {
        plain.push((queue, request))?;
    } else {
        assert_eq!(rt; queues.free(), 0);
        assert_eq!(rt; plain.len(), NODES);
    }
    Ok(())
}

/// Takes the request at a place of the plain list out of both.
fn take_one(
    rt: &impl Abort,
    queues: &mut Queues,
    plain: &mut Vec<(usize, Request)>,
    place: usize,
) -> Result<(), Fail>
    requires there { place < length plain.old.items }
    requires first { AllFirst queues.old }
    requires many { length queues.old.queues ≡ QUEUES }
    ensures first { AllFirst queues.new }
    ensures many { length queues.new.queues ≡ length queues.old.queues }
{
    let (queue, request) = plain[place];
    assert!(rt; queue < QUEUES);
    let before = plain
        .iter()
        .take(place)
        .filter(|entry| entry.0 == queue)
        .count();
    match node_at(queues, queue, before) {
        Some(id) => {
            assert!(rt; take(queues, id).0 == request);
            plain.remove(place);
            Ok(())
        }
        None => Err(Fail::from("no node")),
    }
}

fn step(
    rt: &impl Abort,
    queues: &mut Queues,
    plain: &mut Vec<(usize, Request)>,
    chance: &mut Chance,
    no: u64,
) -> Result<(), Fail>
    requires first { AllFirst queues.old }
    requires many { length queues.old.queues ≡ QUEUES }
    ensures first { AllFirst queues.new }
    ensures many { length queues.new.queues ≡ length queues.old.queues }
{
    let queue = chance.below(3) as usize;
    let mode = mode(chance.below(5));
    let count = plain.len();
    if chance.below(20) < 11 || count == 0 {
        add_one(rt, queues, plain, queue, Request { no, mode })?;
    } else {
        let place = chance.below(count as u64) as usize;
        take_one(rt, queues, plain, place)?;
    }
    assert!(rt; agree(queues, queue, plain.as_slice()));
    Ok(())
}

#[test]
fn linked_queues_and_one_list_agree(rt: HostRuntime) -> Result<(), Fail> {
    let alloc = rt.alloc();
    let mut queues = Queues::with_capacity(alloc, NODES, QUEUES)?;
    let mut plain = Vec::new(alloc);
    let mut chance = Chance(2026);
    for no in 0..10_000u64 {
        step(&rt, &mut queues, &mut plain, &mut chance, no)?;
    }
    assert!(rt; plain.len() > 0);
    Ok(())
}
