//! Clients, each in a thread of its own.

ghost use Rattle.std.specs.Prelude.{◌≡◌, ◌<◌, ◌^◌, ◌++◌, ◌∷◌, [], length, vec_len, IfOk};
ghost use Rattle.std.specs.List.{AllByRecursion};
ghost use Rattle.std.specs.Vec.Iter.{into_iter_items};
ghost use Rattle.intake.specs.Passes.{IsClientOf, AreNewClients, client_of, sent_by, spare_of};
ghost use Rattle.example_serving.specs.Logs.{IsShortLog};
ghost use Rattle.example_serving.specs.Clients.{AreAtTheirLogs, HasSubmitted, HaveSubmitted};

use crate::call::ClientCall;
use crate::client::Client;
use intake::{ClientPass, Full, Intake};
use std::alloc::{AllocError, Global};
use std::sync::Wait;
use std::thread;
use std::thread::{Threads, for_each_mut};

/// How many clients there are at most.
const MOST_CLIENTS: usize = 4;

/// Submits all calls that are left of a client's log in their order, each that comes back again until it is accepted.
fn submit_all<R: Wait>(rt: &R, client: &mut Client<'_>)
    ensures intake { client.new.intake ≡ client.old.intake }
    ensures client { client_of client.new.pass ≡ client_of client.old.pass }
    ensures spare { spare_of client.new.pass ≡ spare_of client.old.pass }
    ensures sent { sent_by client.new.pass ≡ sent_by client.old.pass ++ into_iter_items client.old.log }
{
    'calls: while let Some(call) = client.log.next() {
        submit(rt, client.intake, &mut client.pass, call);
    }
}

/// Submits a call until it is accepted.
fn submit<R: Wait>(
    rt: &R,
    intake: &Intake<ClientCall>,
    pass: &mut ClientPass<ClientCall>,
    call: ClientCall,
)
    requires pass { IsClientOf intake.now pass.old }
    requires room { length (sent_by pass.old) < 2 ^ 48 }
    ensures pass { IsClientOf intake.now pass.new }
    ensures client { client_of pass.new ≡ client_of pass.old }
    ensures spare { spare_of pass.new ≡ spare_of pass.old }
    ensures sent { sent_by pass.new ≡ sent_by pass.old ++ call ∷ [] }
{
    let mut call = call;
    for _ in rt.forever() {
        match intake.submit(rt, pass, call) {
            Ok(_) => return,
            Err(Full(back)) => call = back,
        }
        thread::yield_now();
    }
}

/// The clients of a new intake, each with its log.
pub(crate) fn clients_of<'a>(
    alloc: Global,
    intake: &'a Intake<ClientCall>,
    passes: Vec<ClientPass<ClientCall>>,
    logs: Vec<Vec<ClientCall>>,
) -> Result<Vec<Client<'a>>, AllocError>
    requires passes { (vec_len passes ≡ vec_len logs) × AreNewClients intake.now (vec_len logs) passes.items }
    requires short { AllByRecursion IsShortLog logs.items }
    ensures { IfOk result (λ clients. AreAtTheirLogs intake.now (vec_len logs) 1 clients.items logs.items) }
{
    let mut clients = Vec::with_capacity(alloc, logs.len())?;
    let mut logs = logs.into_iter();
    for pass in passes {
        let Some(log) = logs.next() else {
            unreachable!()
        };
        clients.push_reserved(Client {
            intake,
            pass,
            log: log.into_iter(),
        });
    }
    Ok(clients)
}

/// Lets each client submit what is left of its log, each of four in a thread of its own where one can be made, until
/// all have ended. It takes no memory. It may wait.
pub fn run_clients<R: Threads + Wait + Sync>(rt: &R, clients: &mut [Client<'_>])
    ensures { HaveSubmitted clients.old clients.new }
{
    for_each_mut(
        rt,
        clients,
        MOST_CLIENTS,
        &move |_place: usize, client: &mut Client<'_>|
            ensures { HasSubmitted client.entry.now client.exit.now }
        { submit_all(rt, client) },
    );
}
