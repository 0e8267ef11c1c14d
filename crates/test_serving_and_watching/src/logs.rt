//! The logs of clients: calls of the bank's procedures by their names.

ghost use Rattle.std.specs.Prelude.{IfOk};
ghost use Rattle.std.specs.List.{AllByRecursion};
ghost use Rattle.example_serving.specs.Logs.{IsShortLog};

use example_serving::ClientCall;
use std::alloc::Global;
use std::test::Fail;
use values::Value;

/// How many calls each of four clients makes.
const CALLS: u64 = 1_000;

/// A call of that name with these values.
fn call(alloc: Global, name: &str, args: &[i64]) -> Result<ClientCall, Fail> {
    let mut values = Vec::new(alloc);
    for arg in args {
        values.push(Value::Int(*arg))?;
    }
    Ok(ClientCall {
        name: String::from_str(alloc, name)?,
        args: values,
    })
}

/// The log, if its calls can be numbered.
fn short(log: Vec<ClientCall>) -> Result<Vec<ClientCall>, Fail>
    ensures { IfOk result IsShortLog }
{
    if log.len() > 1 << 48 {
        return Err(Fail::from("too many calls"));
    }
    Ok(log)
}

/// The log of one client that reads both accounts.
pub(crate) fn readings(alloc: Global) -> Result<Vec<Vec<ClientCall>>, Fail>
    ensures { IfOk result (λ logs. AllByRecursion IsShortLog logs.items) }
{
    let mut log = Vec::new(alloc);
    log.push(call(alloc, "peek", &[1])?)?;
    log.push(call(alloc, "peek", &[2])?)?;
    let mut logs = Vec::new(alloc);
    logs.push(short(log)?)?;
    Ok(logs)
}

/// A log of payments of one, from the first account to the second and back, in turns.
fn payments(alloc: Global) -> Result<Vec<ClientCall>, Fail>
    ensures { IfOk result IsShortLog }
{
    let mut log = Vec::new(alloc);
    for number in 0..CALLS {
        let (from, to) = if number % 2 == 0 { (1, 2) } else { (2, 1) };
        log.push(call(alloc, "pay", &[from, to, 1])?)?;
    }
    short(log)
}

/// The logs of four clients, each of which makes 1,000 payments.
pub(crate) fn four(alloc: Global) -> Result<Vec<Vec<ClientCall>>, Fail>
    ensures { IfOk result (λ logs. AllByRecursion IsShortLog logs.items) }
{
    let mut logs = Vec::new(alloc);
    logs.push(payments(alloc)?)?;
    logs.push(payments(alloc)?)?;
    logs.push(payments(alloc)?)?;
    logs.push(payments(alloc)?)?;
    Ok(logs)
}

/// The log of a client with one call, which has a row lead where the row that it leads to does.
fn one_step(alloc: Global) -> Result<Vec<ClientCall>, Fail>
    ensures { IfOk result IsShortLog }
{
    let mut log = Vec::new(alloc);
    log.push(call(alloc, "go", &[1])?)?;
    short(log)
}

/// The logs of three clients of one call each, which is the same one.
pub(crate) fn three(alloc: Global) -> Result<Vec<Vec<ClientCall>>, Fail>
    ensures { IfOk result (λ logs. AllByRecursion IsShortLog logs.items) }
{
    let mut logs = Vec::new(alloc);
    logs.push(one_step(alloc)?)?;
    logs.push(one_step(alloc)?)?;
    logs.push(one_step(alloc)?)?;
    Ok(logs)
}
