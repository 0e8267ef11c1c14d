//! Clients in threads of their own.

ghost use Rattle.std.specs.Prelude.{◌≡◌, IfOk, length};
ghost use Rattle.intake.specs.Passes.{IsClientOf, IsDrawerOf, AreNewClients};

use intake::{ClientPass, DrawPass, Intake, Item};
use std::sync::Wait;
use std::test::Fail;
use std::thread;
use std::thread::{Threads, join};

/// How many requests each client submits.
const REQUESTS: u64 = 1_000;

/// The passes of a new intake of two clients.
fn both(intake: &Intake<u64>, passes: Vec<ClientPass<u64>>) -> (ClientPass<u64>, ClientPass<u64>)
    requires { (length passes.items ≡ 2) × AreNewClients intake.now 2 passes.items }
    ensures { IsClientOf intake.now result.0 × IsClientOf intake.now result.1 }
{
    let mut passes = passes;
    let two = passes.swap_remove(1);
    let one = passes.swap_remove(0);
    (one, two)
}

/// Submits each number of a request as that request, again until it is accepted.
fn submit_all<R: Wait>(rt: &R, intake: &Intake<u64>, pass: ClientPass<u64>) -> ClientPass<u64>
    requires { IsClientOf intake.now pass }
    ensures { IsClientOf intake.now result }
{
    let mut pass = pass;
    for _ in rt.forever() {
        let number = pass.sent();
        if number >= REQUESTS {
            break;
        }
        if intake.submit(rt, &mut pass, number).is_err() {
            thread::yield_now();
        }
    }
    pass
}

/// Lets two clients submit, each in a thread of its own, and gives their passes once both have ended.
fn submit_beside<R: Threads + Wait + Sync>(
    rt: &R,
    intake: &Intake<u64>,
    one: ClientPass<u64>,
    two: ClientPass<u64>,
) -> (ClientPass<u64>, ClientPass<u64>)
    requires { IsClientOf intake.now one × IsClientOf intake.now two }
    ensures { IsClientOf intake.now result.0 × IsClientOf intake.now result.1 }
{
    join(
        rt,
        move || -> ClientPass<u64>
            requires { IsClientOf intake.now one }
            ensures { IsClientOf intake.entry.now result }
        { submit_all(rt, intake, one) },
        move || -> ClientPass<u64>
            requires { IsClientOf intake.now two }
            ensures { IsClientOf intake.entry.now result }
        { submit_all(rt, intake, two) },
    )
}

/// How many requests of a client there are, if they come in its order, each once.
fn count_of(batches: &[Vec<Item<u64>>], client: u8) -> Option<u64> {
    let mut next = 0u64;
    for batch in batches {
        for item in batch {
            if item.client == client {
                if item.number != next || item.request != next {
                    return None;
                }
                next = next.wrapping_add(1);
            }
        }
    }
    Some(next)
}

#[test]
fn what_two_joined_clients_left_is_drained(rt: HostRuntime) -> Result<(), Fail> {
    let (intake, passes, mut drawer) = Intake::<u64>::new(rt.alloc(), 2, 4_096)?;
    let (one, two) = both(&intake, passes);
    let (one, two) = submit_beside(&rt, &intake, one, two);
    let mut left: Vec<Vec<Item<u64>>> = Vec::new(rt.alloc());
    intake.drain(&rt, &mut drawer, &mut [one, two], &mut left)?;
    let counts = [count_of(left.as_slice(), 1), count_of(left.as_slice(), 2)];
    assert_eq!(rt; counts, [Some(REQUESTS), Some(REQUESTS)]);
    Ok(())
}

/// An intake whose two clients have submitted beside each other and retired, and the owner's pass.
fn retired<R: Threads + Wait + Sync + AllocGlobal>(
    rt: &R,
) -> Result<(Intake<u64>, DrawPass<u64>), Fail>
    ensures { IfOk result (λ r. IsDrawerOf r.0 r.1) }
{
    let (intake, passes, mut drawer) = Intake::<u64>::new(rt.alloc(), 2, 4_096)?;
    let (one, two) = both(&intake, passes);
    let (one, two) = submit_beside(rt, &intake, one, two);
    intake.retire(&mut drawer, one);
    intake.retire(&mut drawer, two);
    Ok((intake, drawer))
}

#[test]
fn what_retired_clients_left_is_drained(rt: HostRuntime) -> Result<(), Fail> {
    let (intake, mut drawer) = retired(&rt)?;
    let mut left: Vec<Vec<Item<u64>>> = Vec::new(rt.alloc());
    intake.drain(&rt, &mut drawer, &mut [], &mut left)?;
    let counts = [count_of(left.as_slice(), 1), count_of(left.as_slice(), 2)];
    assert_eq!(rt; counts, [Some(REQUESTS), Some(REQUESTS)]);
    Ok(())
}

#[test]
fn what_is_discarded_is_drawn_no_more(rt: HostRuntime) -> Result<(), Fail> {
    let (intake, mut drawer) = retired(&rt)?;
    intake.discard(&rt, &mut drawer);
    let left: Vec<Item<u64>> = intake.draw(&rt, &mut drawer, 4_096)?;
    assert!(rt; left.is_empty());
    Ok(())
}
