//! Replies that are taken one by one.

use crate::shops::session_on_shop;
use crate::steps::{Step, take_all};
use std::test::Fail;

/// Of the calls of the second batch the second is stale: the first one leads the link elsewhere. It is tried again
/// before the third batch's own call.
const ORDER: [(Step, &str); 15] = [
    (Step::Call(r#"["call","point",[1,5]]"#), "0"),
    (Step::Cut, "ok"),
    (Step::Replies(8), ""),
    (Step::Keep, ""),
    (Step::Replies(8), ""),
    (Step::Call(r#"["call","point",[1,9]]"#), "1"),
    (Step::Call(r#"["call","hop",[1]]"#), "2"),
    (Step::Replies(8), ""),
    (Step::Cut, "ok"),
    (Step::Replies(1), "1 of 1 commit;"),
    (Step::Keep, ""),
    (Step::Call(r#"["call","add",[1,0]]"#), "4"),
    (Step::Cut, "ok"),
    (
        Step::Replies(8),
        "2 of 2 stale;3 of 2 commit 9;4 of 4 abort 2;",
    ),
    (Step::Replies(8), ""),
];

#[test]
fn replies_are_taken_in_order(rt: HostRuntime) -> Result<(), Fail> {
    let alloc = rt.alloc();
    let mut session = session_on_shop(alloc)?;
    take_all(&rt, alloc, &mut session, &ORDER)
}

/// At the end a batch without calls tries the stale call again.
const CLOSING: [(Step, &str); 6] = [
    (Step::Keep, ""),
    (Step::Call(r#"["call","point",[1,1]]"#), "0"),
    (Step::Call(r#"["call","hop",[1]]"#), "1"),
    (Step::End, "3"),
    (
        Step::Replies(8),
        "0 of 0 commit;1 of 1 stale;2 of 1 commit 1;",
    ),
    (Step::Replies(8), ""),
];

#[test]
fn replies_of_closing_batches_wait_after_the_end(rt: HostRuntime) -> Result<(), Fail> {
    let alloc = rt.alloc();
    let mut session = session_on_shop(alloc)?;
    take_all(&rt, alloc, &mut session, &CLOSING)
}

/// A fault leaves the replies that wait.
const FAULT: [(Step, &str); 5] = [
    (Step::Keep, ""),
    (Step::Call(r#"["call","hop",[1]]"#), "0"),
    (Step::Cut, "ok"),
    (Step::Feed("[]\n"), "fault 32 line 3"),
    (Step::Replies(8), "0 of 0 commit 2;"),
];

#[test]
fn replies_wait_after_a_fault(rt: HostRuntime) -> Result<(), Fail> {
    let alloc = rt.alloc();
    let mut session = session_on_shop(alloc)?;
    take_all(&rt, alloc, &mut session, &FAULT)
}
