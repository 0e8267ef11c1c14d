//! The owner of the intake: it draws, executes and answers.

ghost use Rattle.std.specs.Prelude.{◌≡◌, [], false};
ghost use Rattle.intake.specs.Passes.{IsDrawerOf, held_by};
ghost use Rattle.engine.specs.Engines.{is_busy};
ghost use Rattle.example_serving.specs.Services.{AnswersFirstPart, calls_of_batches};
ghost use Rattle.example_serving.specs.Steps.{DrawsOn, HasServed, ServesOn, items_in};

use crate::answering::answer_batch;
use crate::call::{CallItem, ClientCall};
use crate::told::{ServeFault, Told};
use engine::Engine;
use intake::{DrawPass, Intake, MOST_DRAWN};
use std::alloc::Global;
use std::sync::Wait;
use std::sync::atomic::{AtomicBool, Ordering};
use std::thread;
use std::thread::Threads;

/// The engine, the owner's pass, and what was told so far.
#[derive(Drop)]
pub(crate) struct Owner {
    pub engine: Engine,
    pub pass: DrawPass<ClientCall>,
    pub told: Vec<Told>,
}

/// Draws calls, executes them and answers them once.
fn attend_once<R: Threads + Wait + Sync>(
    rt: &R,
    alloc: Global,
    intake: &Intake<ClientCall>,
    owner: &mut Owner,
) -> Result<(), ServeFault>
    requires pass { IsDrawerOf intake.now owner.old.pass }
    requires idle { is_busy owner.old.engine.core ≡ false }
    ensures pass { IsDrawerOf intake.now owner.new.pass × (held_by owner.new.pass ≡ held_by owner.old.pass) }
    ensures served { HasServed owner.old owner.new result }
{
    let items: Vec<CallItem> = intake.draw(rt, &mut owner.pass, MOST_DRAWN)?;
    if items.is_empty() {
        thread::yield_now();
        return Ok(());
    }
    answer_batch(rt, alloc, &mut owner.engine, &mut owner.told, items)
}

/// Draws and drops what is submitted, until the clients have ended.
fn turn_away<R: Wait>(
    rt: &R,
    intake: &Intake<ClientCall>,
    pass: &mut DrawPass<ClientCall>,
    ended: &AtomicBool,
)
    requires { IsDrawerOf intake.now pass.old }
    ensures pass { IsDrawerOf intake.now pass.new × (held_by pass.new ≡ held_by pass.old) }
    ensures drawn { DrawsOn pass.old pass.new }
{
    for _ in rt.forever() {
        if ended.load(Ordering::SeqCst) {
            break;
        }
        let _dropped: Result<Vec<CallItem>, _> = intake.draw(rt, pass, 1);
        thread::yield_now();
    }
}

/// Serves the clients until they have ended. What they left is in the intake. Where something is refused, the clients
/// are turned away from then on.
pub(crate) fn attend<R: Threads + Wait + Sync>(
    rt: &R,
    alloc: Global,
    intake: &Intake<ClientCall>,
    owner: Owner,
    ended: &AtomicBool,
) -> (Owner, Result<(), ServeFault>)
    requires pass { IsDrawerOf intake.now owner.pass }
    requires idle { is_busy owner.engine.core ≡ false }
    ensures pass { IsDrawerOf intake.now result.0.pass × (held_by result.0.pass ≡ held_by owner.pass) }
    ensures served { HasServed owner result.0 result.1 }
{
    let mut owner = owner;
    for _ in rt.forever() {
        if ended.load(Ordering::SeqCst) {
            break;
        }
        if let Err(fault) = attend_once(rt, alloc, intake, &mut owner) {
            turn_away(rt, intake, &mut owner.pass, ended);
            return (owner, Err(fault));
        }
    }
    (owner, Ok(()))
}

/// Executes and answers batches that were drawn, up to the first that is refused.
fn answer_left<R: Threads + Wait + Sync>(
    rt: &R,
    alloc: Global,
    engine: &mut Engine,
    told: &mut Vec<Told>,
    left: Vec<Vec<CallItem>>,
) -> Result<(), ServeFault>
    requires { is_busy engine.old.core ≡ false }
    ensures { ServesOn (calls_of_batches (items_in left.items)) result engine.old.core engine.new.core told.old.items
        told.new.items }
{
    for items in left {
        answer_batch(rt, alloc, engine, told, items)?;
    }
    Ok(())
}

/// Executes batches without calls, and answers the requests that were carried to them, until none is carried or one is
/// refused.
fn answer_carried<R: Threads + Wait + Sync>(
    rt: &R,
    alloc: Global,
    engine: &mut Engine,
    told: &mut Vec<Told>,
) -> Result<(), ServeFault>
    requires { is_busy engine.old.core ≡ false }
    ensures { AnswersFirstPart [] result engine.old.core engine.new.core told.old.items told.new.items }
{
    for _ in rt.forever() {
        if engine.carried() == 0 {
            break;
        }
        answer_batch(rt, alloc, engine, told, Vec::new(alloc))?;
    }
    Ok(())
}

/// Executes and answers batches that were drawn, and then what is carried, until nothing is, up to the first batch that
/// is refused.
pub(crate) fn answer_to_the_end<R: Threads + Wait + Sync>(
    rt: &R,
    alloc: Global,
    engine: &mut Engine,
    told: &mut Vec<Told>,
    left: Vec<Vec<CallItem>>,
) -> Result<(), ServeFault>
    requires { is_busy engine.old.core ≡ false }
    ensures { AnswersFirstPart (calls_of_batches (items_in left.items)) result engine.old.core engine.new.core
        told.old.items told.new.items }
{
    answer_left(rt, alloc, engine, told, left)?;
    answer_carried(rt, alloc, engine, told)
}
