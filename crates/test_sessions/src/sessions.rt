//! A session that is handed its calls line by line.

use crate::shops::session_on_shop;
use crate::steps::{Step, take_all};
use std::test::Fail;

/// Lines, first tested and then handed over: two are calls.
const LINES: [(Step, &str); 16] = [
    (Step::Test(r#"["call","hop",[1]]"#), "ok"),
    (Step::Call(r#"["call","hop",[1]]"#), "0"),
    (Step::Test(r#"["cut"]"#), "fault 32"),
    (Step::Call(r#"["cut"]"#), "fault 32"),
    (Step::Test(r#"["call""#), "fault 31"),
    (Step::Call(r#"["call""#), "fault 31"),
    (Step::Test(r#"["call","none",[]]"#), "fault 33"),
    (Step::Call(r#"["call","none",[]]"#), "fault 33"),
    (Step::Test(r#"["call","hop",[1,2]]"#), "fault 34"),
    (Step::Call(r#"["call","hop",[1,2]]"#), "fault 34"),
    (
        Step::Test("[\"call\",\"hop\",[1]]\n[\"call\",\"hop\",[1]]"),
        "fault 32",
    ),
    (
        Step::Call("[\"call\",\"hop\",[1]]\n[\"call\",\"hop\",[1]]"),
        "fault 32",
    ),
    (Step::Test(r#"["call","add",[1,7]]"#), "ok"),
    (Step::Call(r#"["call","add",[1,7]]"#), "1"),
    (Step::Cut, "ok"),
    (Step::Report(34), "0 commit 2\n1 abort 2\nbatch 1 rows "),
];

#[test]
fn calls_are_taken_line_by_line(rt: HostRuntime) -> Result<(), Fail> {
    let alloc = rt.alloc();
    let mut session = session_on_shop(alloc)?;
    take_all(&rt, alloc, &mut session, &LINES)
}

/// Where the beginning of a line was fed, neither a call nor a cut is taken until its end is.
const IN_LINE: [(Step, &str); 6] = [
    (Step::Feed("["), "ok"),
    (Step::Test(r#"["call","hop",[1]]"#), "a line is begun"),
    (Step::Call(r#"["call","hop",[1]]"#), "a line is begun"),
    (Step::Cut, "a line is begun"),
    (Step::Feed("\"cut\"]\n"), "ok"),
    (Step::Call(r#"["call","hop",[1]]"#), "0"),
];

#[test]
fn no_call_is_taken_in_a_line(rt: HostRuntime) -> Result<(), Fail> {
    let alloc = rt.alloc();
    let mut session = session_on_shop(alloc)?;
    take_all(&rt, alloc, &mut session, &IN_LINE)
}
