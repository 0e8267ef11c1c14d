//! What clients are answered.

ghost use Rattle.std.specs.List.{AllByRecursion};
ghost use Rattle.example_serving.specs.Logs.{IsShortLog};

use crate::logs::{four, readings};
use crate::servers::{reckoned, said, serve_all};
use engine::{BadSetting, Engine, Settings};
use example_serving::{ClientCall, Told, told_by_client};
use std::alloc::Global;
use std::fmt::Write;
use std::sync::Wait;
use std::test::Fail;
use std::thread::Threads;
use test_bank::{Bodies, Call, CountingGate, engine, execute};

/// How many answers each list has, if they are its client's, of its calls 0, 1 and so on; the clients are 1, 2 and so
/// on.
fn counts(alloc: Global, lists: &[Vec<Told>]) -> Result<String, Fail> {
    let mut text = String::new(alloc);
    let mut client = 0u8;
    for list in lists {
        client = client.wrapping_add(1);
        let mut next = 0u64;
        for told in list {
            if told.client == client && told.number == next {
                next = next.wrapping_add(1);
            }
        }
        write!(text, "{next} of {};", list.len())?;
    }
    Ok(text)
}

/// What a client is told that an engine serves.
fn told_to_one<R: Threads + Wait + Sync>(
    rt: &R,
    alloc: Global,
    engine: Engine,
    logs: Vec<Vec<ClientCall>>,
) -> Result<String, Fail>
    requires { AllByRecursion IsShortLog logs.items }
{
    let (_engine, told) = serve_all(rt, alloc, engine, logs, 1)?;
    said(alloc, told.as_slice())
}

fn settings() -> Result<Settings, BadSetting> {
    Settings::new(2, 8, 64, 65_536)
}

/// What four clients of 1,000 calls each are told, through an intake that takes 16, on 2 workers; and then one that
/// reads both accounts.
fn told_to_four_and_one<R: Threads + Wait + Sync>(
    rt: &R,
    alloc: Global,
) -> Result<(Vec<Told>, String), Fail> {
    let (logs, last) = (four(alloc)?, readings(alloc)?);
    let engine = engine(alloc, Bodies::Looping, settings()?)?;
    let (engine, told) = serve_all(rt, alloc, engine, logs, 16)?;
    let left = told_to_one(rt, alloc, engine, last)?;
    Ok((told, left))
}

/// Whether these are the answers that a plain program reckons for the calls in the order in which they were drawn, and
/// what one that reads both accounts is told then.
fn are_reckoned(alloc: Global, told: &[Told], left: &str) -> Result<bool, Fail> {
    let (answers, balances) = reckoned(alloc, told)?;
    Ok(said(alloc, told)? == answers && left == balances.as_str())
}

/// The counts of answers by client.
fn counts_of(alloc: Global, told: Vec<Told>) -> Result<String, Fail> {
    let lists = told_by_client(alloc, told, 4)?;
    counts(alloc, lists.as_slice())
}

/// Whether four clients, and then one, are told what a plain program reckons, and the counts of the answers to the
/// four.
fn told_as_reckoned<R: Threads + Wait + Sync>(
    rt: &R,
    alloc: Global,
) -> Result<(bool, String), Fail> {
    let (told, left) = told_to_four_and_one(rt, alloc)?;
    let is_reckoned = are_reckoned(alloc, told.as_slice(), left.as_str())?;
    Ok((is_reckoned, counts_of(alloc, told)?))
}

/// How many jobs a payment and one back are on an engine like the server's. The gate is open, as the server's is.
fn jobs_of_two<R: Threads + Wait + Sync + AllocGlobal>(rt: &R) -> Result<u64, Fail> {
    let gate = CountingGate::new(true);
    let calls: [Call<'_>; 2] = [("pay", &[1, 2, 1]), ("pay", &[2, 1, 1])];
    let _outcomes = execute(rt, Bodies::Looping, settings()?, &calls, &gate)?;
    Ok(gate.jobs())
}

/// The calls of the four are long: of each batch at least the first 65 are handed over.
#[test]
fn each_client_has_its_answers_once(rt: HostRuntime) -> Result<(), Fail> {
    let (is_reckoned, counts) = told_as_reckoned(&rt, rt.alloc())?;
    let each = "1000 of 1000;1000 of 1000;1000 of 1000;1000 of 1000;";
    assert_eq!(rt; (is_reckoned, counts.as_str()), (true, each));
    assert_eq!(rt; jobs_of_two(&rt)?, 2);
    Ok(())
}
