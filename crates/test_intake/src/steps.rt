//! Steps of the clients of an intake and of its owner on one thread, and what comes of them as a text.

ghost use Rattle.intake.specs.Passes.{IsClientOf, IsDrawerOf, AreClientsOf};

use intake::{ClientPass, DrawPass, Full, Intake, Item};
use std::fmt::Write;
use std::sync::Wait;
use std::test::Fail;

/// What a client or the owner does.
#[derive(Clone, Copy)]
pub(crate) enum Step {
    /// The client of this number submits this request.
    Submit(u8, u64),
    /// The owner draws this number of requests at most.
    Draw(usize),
    /// The owner drains what the clients have left.
    Drain,
}

/// Submits a request, and says which number it got, or that it came back.
fn submit<R: Wait>(
    rt: &R,
    intake: &Intake<u64>,
    pass: &mut ClientPass<u64>,
    request: u64,
    text: &mut String,
) -> Result<(), Fail>
    requires { IsClientOf intake.now pass.old }
    ensures { IsClientOf intake.now pass.new }
{
    if pass.sent() >= 1 << 48 {
        return Err(Fail::from("too many requests"));
    }
    match intake.submit(rt, pass, request) {
        Ok(number) => write!(text, "number {number};")?,
        Err(Full(back)) => write!(text, "full {back};")?,
    }
    Ok(())
}

/// Submits a request by the pass of the client of that number.
fn submit_as<R: Wait>(
    rt: &R,
    intake: &Intake<u64>,
    clients: &mut [ClientPass<u64>],
    client: u8,
    request: u64,
    text: &mut String,
) -> Result<(), Fail>
    requires { AreClientsOf intake.now clients.old }
    ensures { AreClientsOf intake.now clients.new }
{
    match clients.split_first_mut() {
        None => Err(Fail::from("no such client")),
        Some((first, rest)) => {
            if first.client() == client {
                submit(rt, intake, first, request, text)
            } else {
                submit_as(rt, intake, rest, client, request, text)
            }
        }
    }
}

/// Says whose the requests of a batch are, their numbers, and what they are.
fn push_batch(text: &mut String, batch: &[Item<u64>]) -> Result<(), Fail> {
    text.write_str("batch")?;
    for item in batch {
        write!(text, " {} {} {},", item.client, item.number, item.request)?;
    }
    text.write_str(";")?;
    Ok(())
}

/// Drains what the clients have left, and says which batches it was.
fn drain<R: Wait + AllocGlobal>(
    rt: &R,
    intake: &Intake<u64>,
    clients: &mut [ClientPass<u64>],
    drawer: &mut DrawPass<u64>,
    text: &mut String,
) -> Result<(), Fail>
    requires { AreClientsOf intake.now clients.old × IsDrawerOf intake.now drawer.old }
    ensures { AreClientsOf intake.now clients.new × IsDrawerOf intake.now drawer.new }
{
    let mut left: Vec<Vec<Item<u64>>> = Vec::new(rt.alloc());
    intake.drain(rt, drawer, clients, &mut left)?;
    for batch in &left {
        push_batch(text, batch.as_slice())?;
    }
    Ok(())
}

/// Makes a step, and says what comes of it.
fn make<R: Wait + AllocGlobal>(
    rt: &R,
    intake: &Intake<u64>,
    clients: &mut [ClientPass<u64>],
    drawer: &mut DrawPass<u64>,
    step: Step,
    text: &mut String,
) -> Result<(), Fail>
    requires { AreClientsOf intake.now clients.old × IsDrawerOf intake.now drawer.old }
    ensures { AreClientsOf intake.now clients.new × IsDrawerOf intake.now drawer.new }
{
    match step {
        Step::Submit(client, request) => submit_as(rt, intake, clients, client, request, text),
        Step::Draw(max) => {
            let batch: Vec<Item<u64>> = intake.draw(rt, drawer, max)?;
            push_batch(text, batch.as_slice())
        }
        Step::Drain => drain(rt, intake, clients, drawer, text),
    }
}

/// What comes of steps on a new intake of `clients` clients and of that capacity.
pub(crate) fn run<R: Wait + AllocGlobal>(
    rt: &R,
    clients: u8,
    capacity: usize,
    steps: &[Step],
) -> Result<String, Fail> {
    if clients == 0 || clients > 4 || capacity == 0 {
        return Err(Fail::from("no such intake"));
    }
    let (intake, passes, drawer) = Intake::<u64>::new(rt.alloc(), clients, capacity)?;
    let (mut passes, mut drawer) = (passes, drawer);
    let mut text = String::new(rt.alloc());
    for step in steps {
        make(
            rt,
            &intake,
            passes.as_mut_slice(),
            &mut drawer,
            *step,
            &mut text,
        )?;
    }
    Ok(text)
}
