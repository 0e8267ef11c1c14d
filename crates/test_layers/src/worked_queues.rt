//! Queues of requests, step by step.

ghost use Rattle.std.specs.Prelude.{◌≡◌, ◌<◌, length, IfSome};
ghost use Rattle.request_arena.specs.Lists.{IsLive, BeginsChain};
ghost use Rattle.test_layers.specs.Firsts.{AllFirst};

use crate::request_queues::{node_at, push, take};
use modes::Mode;
use request_arena::{NodeId, Queues, Request};
use std::process::Abort;
use std::test::Fail;

fn request(no: u64, mode: Mode) -> Request
    ensures { result ≡ record { no = no; mode = mode } }
{
    Request { no, mode }
}

/// Takes out the node at a place of the queue: its request, and whether its chain goes on.
fn take_at(queues: &mut Queues, place: usize) -> Option<(Request, bool)>
    requires there { 0 < length queues.old.queues }
    requires first { AllFirst queues.old }
    ensures first { AllFirst queues.new }
    ensures many { length queues.new.queues ≡ length queues.old.queues }
{
    let id = node_at(queues, 0, place)?;
    let (request, next) = take(queues, id);
    Some((request, next.is_some()))
}

/// The numbers of the transactions in the queue.
fn numbers(queues: &Queues) -> [Option<u64>; 4]
    requires { 0 < length queues.now.queues }
{
    let no = |place: usize| node_at(queues, 0, place).map(|id| queues.get(id).no);
    [no(0), no(1), no(2), no(3)]
}

#[test]
fn a_node_leaves_from_the_middle(rt: HostRuntime) -> Result<(), Fail> {
    let mut queues = Queues::with_capacity(rt.alloc(), 3, 1)?;
    assert!(rt; push(&mut queues, 0, request(0, Mode::IntentionShared)));
    assert!(rt; push(&mut queues, 0, request(1, Mode::IntentionShared)));
    assert!(rt; push(&mut queues, 0, request(2, Mode::Shared)));
    assert_eq!(rt; queues.free(), 0);
    assert!(rt; !push(&mut queues, 0, request(3, Mode::Exclusive)));
    let taken = take_at(&mut queues, 1);
    assert!(rt; taken == Some((request(1, Mode::IntentionShared), false)));
    assert_eq!(rt; queues.free(), 1);
    assert!(rt; numbers(&queues) == [Some(0), Some(2), None, None]);
    assert!(rt; push(&mut queues, 0, request(3, Mode::Exclusive)));
    assert!(rt; numbers(&queues) == [Some(0), Some(2), Some(3), None]);
    Ok(())
}

/// Two requests of one transaction, each on a queue of its own: the first node.
fn push_two(queues: &mut Queues, first: Request, second: Request) -> Option<NodeId>
    requires { 1 < length queues.old.queues }
    ensures { IfSome result (λ id. IsLive queues.new id × BeginsChain queues.new id) }
{
    match queues.push_back(0, None, first) {
        Ok(head) => match queues.push_back(1, Some(head), second) {
            Ok(_) => Some(head),
            Err(_) => None,
        },
        Err(_) => None,
    }
}

#[test]
fn a_chain_is_taken_node_by_node(rt: HostRuntime) -> Result<(), Fail> {
    let mut queues = Queues::with_capacity(rt.alloc(), 3, 2)?;
    let first = request(7, Mode::IntentionExclusive);
    let second = request(7, Mode::Exclusive);
    let Some(head) = push_two(&mut queues, first, second) else {
        return Err(Fail::from("full"));
    };
    let (taken, next) = queues.remove(head);
    assert!(rt; taken == first);
    let Some(next) = next else {
        return Err(Fail::from("the chain has ended"));
    };
    let (taken, rest) = queues.remove(next);
    assert!(rt; taken == second);
    assert!(rt; rest.is_none());
    assert_eq!(rt; queues.free(), 3);
    Ok(())
}
