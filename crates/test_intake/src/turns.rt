//! Clients that take turns.

use crate::steps::Step::{Drain, Draw, Submit};
use crate::steps::{Step, run};
use std::test::Fail;

/// How many clients, the capacity, the steps, and what comes of them.
type Turns<'a> = (u8, usize, &'a [Step], &'a str);

const TURNS: [Turns<'static>; 5] = [
    (
        2,
        16,
        &[
            Submit(1, 10),
            Submit(2, 20),
            Submit(1, 30),
            Draw(2),
            Draw(0),
            Draw(4_096),
            Draw(4_096),
        ],
        "number 0;number 0;number 1;batch 1 0 10, 2 0 20,;batch;batch 1 1 30,;batch;",
    ),
    (
        1,
        1,
        &[Submit(1, 10), Submit(1, 20), Draw(4_096), Submit(1, 30)],
        "number 0;full 20;batch 1 0 10,;number 1;",
    ),
    // The order between clients is that in which they submitted.
    (
        2,
        16,
        &[
            Submit(2, 20),
            Submit(1, 10),
            Submit(2, 21),
            Submit(2, 22),
            Submit(1, 11),
            Draw(4_096),
        ],
        "number 0;number 0;number 1;number 2;number 1;batch 2 0 20, 1 0 10, 2 1 21, 2 2 22, 1 1 11,;",
    ),
    // What one client leaves no room for comes back to another, until there is room.
    (
        3,
        2,
        &[
            Submit(1, 10),
            Submit(1, 11),
            Submit(3, 30),
            Draw(1),
            Submit(3, 31),
            Submit(2, 20),
            Draw(4_096),
            Submit(2, 21),
        ],
        "number 0;number 1;full 30;batch 1 0 10,;number 0;full 20;batch 1 1 11, 3 0 31,;number 0;",
    ),
    (
        4,
        16,
        &[
            Submit(4, 40),
            Submit(1, 10),
            Drain,
            Drain,
            Submit(4, 41),
            Draw(1),
            Drain,
            Draw(1),
        ],
        "number 0;number 0;batch 4 0 40, 1 0 10,;number 1;batch 4 1 41,;batch;",
    ),
];

#[test]
fn requests_come_out_in_the_order_in_which_they_went_in(rt: HostRuntime) -> Result<(), Fail> {
    for (clients, capacity, steps, outcomes) in TURNS {
        let found = run(&rt, clients, capacity, steps)?;
        assert_eq!(rt; found.as_str(), outcomes);
    }
    Ok(())
}
