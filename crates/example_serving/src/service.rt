//! Serving clients.

ghost use Rattle.std.specs.Prelude.{◌≡◌, ◌<◌, ◌≤◌, List, OnOk, false, vec_len};
ghost use Rattle.std.specs.List.{AllByRecursion};
ghost use Rattle.intake.specs.Histories.{HasAll};
ghost use Rattle.intake.specs.Passes.{IsDrawerOf, drawn_by, held_by};
ghost use Rattle.engine.specs.Engines.{is_busy};
ghost use Rattle.example_serving.specs.Calls.{CallItem};
ghost use Rattle.example_serving.specs.Clients.{HaveSubmitted};
ghost use Rattle.example_serving.specs.Services.{IsService};
ghost use Rattle.example_serving.specs.Steps.{HasServed, IsServedToTheEnd, histories_at};
ghost use Rattle.example_serving.specs.Logs.{IsShortLog};

use crate::call::{CallItem, ClientCall};
use crate::client::Client;
use crate::clients::{clients_of, run_clients};
use crate::owner::{Owner, answer_to_the_end, attend};
use crate::told::{ServeFault, Told};
use engine::Engine;
use intake::{DrawPass, Intake};
use std::alloc::Global;
use std::sync::Wait;
use std::sync::atomic::{AtomicBool, Ordering};
use std::thread::{Threads, join};

/// Lets the clients submit while the owner serves them.
fn serve_beside<'a, R: Threads + Wait + Sync>(
    rt: &R,
    alloc: Global,
    intake: &Intake<ClientCall>,
    clients: Vec<Client<'a>>,
    owner: Owner,
) -> (Vec<Client<'a>>, (Owner, Result<(), ServeFault>))
    requires pass { IsDrawerOf intake.now owner.pass }
    requires idle { is_busy owner.engine.core ≡ false }
    ensures clients { HaveSubmitted clients.entry.items result.0.items }
    ensures pass { IsDrawerOf intake.now result.1.0.pass × (held_by result.1.0.pass ≡ held_by owner.pass) }
    ensures served { HasServed owner result.1.0 result.1.1 }
{
    let flag = AtomicBool::new(false);
    let ended = &flag;
    join(
        rt,
        move || -> Vec<Client<'_>>
            ensures { HaveSubmitted clients.entry.items result.items }
        {
            let mut clients = clients;
            run_clients(rt, clients.as_mut_slice());
            ended.store(true, Ordering::SeqCst);
            clients
        },
        move || -> (Owner, Result<(), ServeFault>)
            requires { IsDrawerOf intake.now owner.pass × (is_busy owner.engine.core ≡ false) }
            ensures pass { IsDrawerOf intake.entry.now result.0.pass × (held_by result.0.pass ≡ held_by owner.pass) }
            ensures served { HasServed owner result.0 result.1 }
        { attend(rt, alloc, intake, owner, ended) },
    )
}

/// The clients retire.
fn retire_all(
    intake: &Intake<ClientCall>,
    pass: &mut DrawPass<ClientCall>,
    clients: Vec<Client<'_>>,
)
    requires pass { IsDrawerOf intake.now pass.old }
    requires clients { AllByRecursion (λ client. client.intake.now ≡ intake.now) clients.items }
    ensures pass { IsDrawerOf intake.now pass.new }
    ensures drawn { drawn_by pass.new ≡ drawn_by pass.old }
    ensures held { (items : List CallItem) → HasAll items (held_by pass.new) →
        HasAll items (histories_at clients.entry.items) }
{
    for client in clients {
        let Client { pass: retired, .. } = client;
        intake.retire(pass, retired);
    }
}

/// Draws what the clients left in the intake, and where nothing was refused before answers it, and what is carried
/// then. If allocation fails, what is left is drawn all the same, and let go.
fn serve_left<R: Threads + Wait + Sync>(
    rt: &R,
    alloc: Global,
    intake: &Intake<ClientCall>,
    owner: Owner,
    served: Result<(), ServeFault>,
    clients: Vec<Client<'_>>,
) -> (Engine, Vec<Told>, Result<(), ServeFault>)
    requires pass { IsDrawerOf intake.now owner.pass }
    requires idle { OnOk served (is_busy owner.engine.core ≡ false) }
    requires clients { AllByRecursion (λ client. client.intake.now ≡ intake.now) clients.items }
    ensures { IsServedToTheEnd owner served clients.entry.items result.0.core result.1.items result.2 }
{
    let Owner { engine, pass, told } = owner;
    let (mut engine, mut pass, mut told) = (engine, pass, told);
    retire_all(intake, &mut pass, clients);
    let mut left: Vec<Vec<CallItem>> = Vec::new(alloc);
    if intake.drain(rt, &mut pass, &mut [], &mut left).is_err() {
        intake.discard(rt, &mut pass);
        return (engine, told, Err(ServeFault::NoMemory));
    }
    if let Err(fault) = served {
        return (engine, told, Err(fault));
    }
    let served = answer_to_the_end(rt, alloc, &mut engine, &mut told, left);
    (engine, told, served)
}

/// Serves up to four clients on an engine. Each client submits the calls of its log in their order, in a thread of its
/// own, to an intake of that capacity. The owner draws them, executes them on the engine's workers and answers them,
/// until all clients have ended and nothing is left. Then it executes batches without calls while requests are carried,
/// and answers these. It may wait.
///
/// The engine, what was told and whether all was answered come back. There is one list of the clients' calls, in the
/// order in which the owner drew them. In it each client's are numbered from 0 in order, each once, and they are that
/// client's log. A first part of the list was answered, batch by batch, each batch whole; batches without calls may be
/// among these. What was told, in that order, is what the serial run of these batches answers where the engine's
/// log was, and its rows, its next number and what it carries are those that this run leaves. Of each batch the
/// requests that were carried to it come first, each told under the client and number that it came with, and then the
/// calls. So a client is told what came of each attempt of its requests, and that it was stale, where it was. A call
/// that is no request is answered so, and changes nothing.
///
/// After `Ok` the first part is all of the list, the engine holds no batch, and nothing is carried. Where something is
/// refused, the clients still come to the end of their logs, and their further calls are dropped. A batch that the
/// engine then holds has what was carried, and after it requests of the calls that come next in the list, if any are
/// left; `resume` runs it. Why other calls of it are no requests is not kept. An engine that holds none carries what
/// the answered batches have left.
///
/// Nothing is promised of an order between clients, of how the list is cut, or of time. How it is cut matters only
/// where reconnaissance finds a footprint. Where the system refuses threads, the clients and the owner run one after
/// another, and a client then waits for ever at a full intake: a capacity of all calls rules that out.
pub fn serve<R: Threads + Wait + Sync>(
    rt: &R,
    alloc: Global,
    engine: Engine,
    logs: Vec<Vec<ClientCall>>,
    capacity: usize,
) -> (Engine, Vec<Told>, Result<(), ServeFault>)
    requires clients { (0 < vec_len logs) × (vec_len logs ≤ 4) }
    requires capacity { 0 < capacity }
    requires short { AllByRecursion IsShortLog logs.items }
    requires idle { is_busy engine.core ≡ false }
    ensures { IsService engine.core logs.items result.0.core result.1.items result.2 }
{
    let told = Vec::new(alloc);
    let Ok((intake, passes, pass)) = Intake::new(alloc, logs.len() as u8, capacity) else {
        return (engine, told, Err(ServeFault::NoMemory));
    };
    let Ok(clients) = clients_of(alloc, &intake, passes, logs) else {
        return (engine, told, Err(ServeFault::NoMemory));
    };
    let owner = Owner { engine, pass, told };
    let (clients, (owner, served)) = serve_beside(rt, alloc, &intake, clients, owner);
    serve_left(rt, alloc, &intake, owner, served, clients)
}
