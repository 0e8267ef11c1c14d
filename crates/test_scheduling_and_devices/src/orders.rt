//! Every order of the events of three transactions, of which each waits for the one before it.

use crate::plays::played;
use scheduler::Event;
use std::alloc::Global;
use std::test::Fail;
use test_bank::Call;

/// The steps of the transactions, one after the other.
const STEPS: [Event; 9] = [
    Event::Lend(0),
    Event::Run(0),
    Event::Settle(0),
    Event::Lend(1),
    Event::Run(1),
    Event::Settle(1),
    Event::Lend(2),
    Event::Run(2),
    Event::Settle(2),
];

/// After how many of these steps the second transaction is admitted, and the third: each before its own first step.
const ADMITTED_BEHIND: [(usize, usize); 22] = [
    (0, 0),
    (0, 1),
    (0, 2),
    (0, 3),
    (0, 4),
    (0, 5),
    (0, 6),
    (1, 1),
    (1, 2),
    (1, 3),
    (1, 4),
    (1, 5),
    (1, 6),
    (2, 2),
    (2, 3),
    (2, 4),
    (2, 5),
    (2, 6),
    (3, 3),
    (3, 4),
    (3, 5),
    (3, 6),
];

/// The events, where the second and the third transaction are admitted after `second` and `third` steps.
fn events_in_order(alloc: Global, second: usize, third: usize) -> Result<Vec<Event>, Fail> {
    let mut events = vec![in alloc; Event::Admit]?;
    for (place, step) in STEPS.iter().enumerate() {
        if place == second {
            events.push(Event::Admit)?;
        }
        if place == third {
            events.push(Event::Admit)?;
        }
        events.push(*step)?;
    }
    Ok(events)
}

/// Two counts of a partition's rows around an insert into it. Each asks for what the one before it locks, so nothing
/// can be done at a time but to admit the next one, and the next step of the first that is not settled. These are all
/// orders.
#[test]
fn every_order_of_counts_around_an_insert_replies_alike(rt: HostRuntime) -> Result<(), Fail> {
    let calls: [Call<'_>; 3] = [("cnt", &[]), ("ins", &[4, 7]), ("cnt", &[])];
    for (second, third) in ADMITTED_BEHIND {
        let events = events_in_order(rt.alloc(), second, third)?;
        let (answers, outcomes) = played(rt.alloc(), &calls, &events)?;
        assert_eq!(rt; answers.as_str(), "++++++++++++", "{second}, {third}");
        assert_eq!(rt; outcomes.as_str(), "commit 1;commit;commit 2;");
    }
    Ok(())
}
