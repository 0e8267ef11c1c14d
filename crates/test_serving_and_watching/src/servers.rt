//! Servers on the bank, what they tell as a text, and what a plain program reckons.

ghost use Rattle.std.specs.List.{AllByRecursion};
ghost use Rattle.example_serving.specs.Logs.{IsShortLog};

use engine::Engine;
use example_serving::{ClientCall, Told, serve};
use std::alloc::Global;
use std::fmt::Write;
use std::sync::Wait;
use std::test::Fail;
use std::thread::Threads;
use test_bank::push_outcome;

/// Serves clients, and gives back the engine and what was told.
pub(crate) fn serve_all<R: Threads + Wait + Sync>(
    rt: &R,
    alloc: Global,
    engine: Engine,
    logs: Vec<Vec<ClientCall>>,
    capacity: usize,
) -> Result<(Engine, Vec<Told>), Fail>
    requires { AllByRecursion IsShortLog logs.items }
{
    if engine.is_busy() || logs.is_empty() || logs.len() > 4 || capacity == 0 {
        return Err(Fail::from("not to be served"));
    }
    let (engine, told, served) = serve(rt, alloc, engine, logs, capacity);
    served?;
    Ok((engine, told))
}

/// Answers in their order: whose they are, their numbers, and what they say.
pub(crate) fn said(alloc: Global, told: &[Told]) -> Result<String, Fail> {
    let mut text = String::new(alloc);
    for told in told {
        write!(text, "{} {} ", told.client, told.number)?;
        match &told.answer {
            Ok(outcome) => push_outcome(&mut text, outcome)?,
            Err(_) => text.write_str("no request;")?,
        }
    }
    Ok(text)
}

/// What the two accounts hold.
#[derive(Clone, Copy)]
struct Balances {
    first: i64,
    second: i64,
}

/// The payment of that number of any client: the even ones go from the first account to the second, the odd ones back.
/// Gives what is left of the account that pays.
fn pay(balances: &mut Balances, number: u64) -> i64 {
    let Balances { first, second } = *balances;
    if number % 2 == 0 {
        balances.first = first.wrapping_sub(1);
        balances.second = second.wrapping_add(1);
        balances.first
    } else {
        balances.first = first.wrapping_add(1);
        balances.second = second.wrapping_sub(1);
        balances.second
    }
}

/// What is to be answered to the payments of clients in this order, and then to one client that reads both accounts.
pub(crate) fn reckoned(alloc: Global, told: &[Told]) -> Result<(String, String), Fail> {
    let mut balances = Balances {
        first: 100,
        second: 100,
    };
    let mut text = String::new(alloc);
    for told in told {
        let left = pay(&mut balances, told.number);
        write!(text, "{} {} commit {left};", told.client, told.number)?;
    }
    let mut left = String::new(alloc);
    write!(
        left,
        "1 0 commit {};1 1 commit {};",
        balances.first, balances.second
    )?;
    Ok((text, left))
}
