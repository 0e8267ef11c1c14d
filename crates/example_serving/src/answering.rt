//! Answering a batch of calls.

ghost use Rattle.std.specs.Prelude.{◌≡◌, ◌+◌, ◌≤◌, ◌++◌, drop, length, map, take, vec_len, vec_capacity, IfOk, IfErr, false};
ghost use Rattle.std.specs.Vec.Iter.{into_iter_items};
ghost use Rattle.sequencer.specs.Batches.{items_of, AreOver};
ghost use Rattle.engine.specs.Engines.{tables_of, is_busy};
ghost use Rattle.engine.specs.Batches.{next_attempts};
ghost use Rattle.engine.specs.Executions.{IsExecutionOf, KeepsSetting};
ghost use Rattle.engine.specs.Replies.{reply_of};
ghost use Rattle.example_serving.specs.Serving.{said_in, answers_to};
ghost use Rattle.example_serving.specs.Steps.{IsStopped, ServesOn, said_by};

use crate::call::CallItem;
use crate::taking_in::{Asked, take_in};
use crate::told::{ServeFault, Told};
use engine::{BatchDone, Engine, ExecFault, OpenGate, Reply};
use intake::Batched;
use sequencer::Batch;
use std::alloc::Global;
use std::sync::Wait;
use std::thread::Threads;
use std::vec::IntoIter;

/// Answers the first replies, each to the client whose request it is for. The answers find room in the list.
fn answer_again(told: &mut Vec<Told>, carried: usize, replies: &mut IntoIter<Reply>)
    requires room { vec_len told.old + carried ≤ vec_capacity told.old }
    requires each { carried ≤ length (into_iter_items replies.old) }
    ensures told { map said_in told.new.items
        ≡ map said_in told.old.items ++ map said_by (take carried (into_iter_items replies.old)) }
    ensures replies { into_iter_items replies.new ≡ drop carried (into_iter_items replies.old) }
    ensures count { vec_len told.new ≡ vec_len told.old + carried }
    ensures room { vec_capacity told.new ≡ vec_capacity told.old }
{
    for _ in 0..carried {
        let Some(reply) = replies.next() else {
            unreachable!()
        };
        let Reply {
            client,
            number,
            outcome,
            ..
        } = reply;
        told.push_reserved(Told {
            client,
            number,
            answer: Ok(outcome),
        });
    }
}

/// Gives the first replies to the clients whose requests were carried, and then answers those who asked: why a call is
/// no request, and to the others the further replies, one after another. The answers find room in the list.
fn answer(told: &mut Vec<Told>, carried: usize, asked: Vec<Asked>, replies: Vec<Reply>)
    requires room { vec_len told.old + (carried + vec_len asked) ≤ vec_capacity told.old }
    requires each { carried ≤ length replies.items }
    ensures { map said_in told.new.items ≡ map said_in told.old.items ++ (map said_by (take carried replies.items)
        ++ answers_to asked.items (map reply_of (drop carried replies.items))) }
{
    let mut replies = replies.into_iter();
    answer_again(told, carried, &mut replies);
    for asked in asked {
        let Asked {
            client,
            number,
            refused,
        } = asked;
        let answer = match refused {
            Some(fault) => Err(fault),
            None => match replies.next() {
                Some(reply) => Ok(reply.outcome),
                None => return,
            },
        };
        told.push_reserved(Told {
            client,
            number,
            answer,
        });
    }
}

/// Executes a batch on workers.
fn execute<R: Threads + Wait + Sync>(
    rt: &R,
    alloc: Global,
    engine: &mut Engine,
    batch: Batch,
) -> Result<BatchDone, ServeFault>
    requires idle { is_busy engine.old.core ≡ false }
    requires over { AreOver (tables_of engine.old.core) (items_of batch) }
    ensures same { KeepsSetting engine.old.core engine.new.core }
    ensures done { IfOk result (IsExecutionOf engine.old.core engine.new.core (next_attempts engine.old.core batch)) }
    ensures stopped { IfErr result (IsStopped engine.old.core engine.new.core batch) }
{
    match engine.execute(rt, alloc, batch, &OpenGate) {
        Ok(done) => Ok(done),
        Err(ExecFault::Busy(_)) => unreachable!(),
        Err(ExecFault::LogFull(_)) => Err(ServeFault::LogFull),
        Err(ExecFault::Spawn) => Err(ServeFault::Spawn),
        Err(ExecFault::NoMemory) => Err(ServeFault::NoMemory),
    }
}

/// Executes drawn calls as a batch on workers, and answers the requests that were carried to it, and then the calls.
/// Room for the answers is made first, so the batch is answered whole or not at all.
pub(crate) fn answer_batch<R: Threads + Wait + Sync>(
    rt: &R,
    alloc: Global,
    engine: &mut Engine,
    told: &mut Vec<Told>,
    items: Vec<CallItem>,
) -> Result<(), ServeFault>
    requires { is_busy engine.old.core ≡ false }
    ensures { ServesOn items.items result engine.old.core engine.new.core told.old.items told.new.items }
{
    let (requests, asked) = take_in(alloc, engine.procs(), items)?;
    let carried = engine.carried();
    told.reserve(carried.saturating_add(asked.len()))?;
    let done = execute(rt, alloc, engine, Batch::of_items(requests))?;
    answer(told, carried, asked, done.replies);
    Ok(())
}
