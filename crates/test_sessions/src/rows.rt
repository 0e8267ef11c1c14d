//! Rows that are told between batches.

use crate::shops::session_on_shop;
use crate::steps::{Step, take_all};
use std::test::Fail;

/// Keys of three partitions come in ascending order. A call that waits has changed nothing yet.
const TABLES: [(Step, &str); 9] = [
    (Step::Table("item"), "1: 10;2: 20;5: 50;9: 90;"),
    (Step::Table("link"), "1: 2;"),
    (Step::Call(r#"["call","add",[7,70]]"#), "0"),
    (Step::Call(r#"["call","hop",[1]]"#), "1"),
    (Step::Cut, "ok"),
    (Step::Table("item"), "1: 10;2: 21;5: 50;7: 70;9: 90;"),
    (Step::Call(r#"["call","add",[0,0]]"#), "2"),
    (Step::Table("item"), "1: 10;2: 21;5: 50;7: 70;9: 90;"),
    (Step::End, "3"),
];

#[test]
fn a_cursor_goes_over_a_table_by_ascending_keys(rt: HostRuntime) -> Result<(), Fail> {
    let alloc = rt.alloc();
    let mut session = session_on_shop(alloc)?;
    take_all(&rt, alloc, &mut session, &TABLES)?;
    let after = [(Step::Table("item"), "0: 0;1: 10;2: 21;5: 50;7: 70;9: 90;")];
    take_all(&rt, alloc, &mut session, &after)
}

/// Rows by their keys, and the rows after keys.
const ROWS: [(Step, &str); 12] = [
    (Step::Call(r#"["call","hop",[1]]"#), "0"),
    (Step::Cut, "ok"),
    (Step::Row("item", 2), "2: 21;"),
    (Step::Row("item", 3), "none"),
    (Step::Row("link", 2), "none"),
    (Step::Row("item", u64::MAX), "none"),
    (Step::Next("item", Some(2)), "5: 50;"),
    (Step::Next("item", None), "1: 10;"),
    (Step::Next("item", Some(9)), "none"),
    (Step::Next("item", Some(u64::MAX)), "none"),
    (Step::Row("none", 2), "no such table"),
    (Step::Next("none", None), "no such table"),
];

#[test]
fn a_row_is_told_by_its_key(rt: HostRuntime) -> Result<(), Fail> {
    let alloc = rt.alloc();
    let mut session = session_on_shop(alloc)?;
    take_all(&rt, alloc, &mut session, &ROWS)
}

/// A call that goes stale is carried past the cut, and its second attempt isn't.
const CARRIED: [(Step, &str); 8] = [
    (Step::Carried, "0"),
    (Step::Call(r#"["call","point",[1,5]]"#), "0"),
    (Step::Call(r#"["call","hop",[1]]"#), "1"),
    (Step::Carried, "0"),
    (Step::Cut, "ok"),
    (Step::Carried, "1"),
    (Step::Cut, "ok"),
    (Step::Carried, "0"),
];

#[test]
fn calls_that_are_carried_are_counted(rt: HostRuntime) -> Result<(), Fail> {
    let alloc = rt.alloc();
    let mut session = session_on_shop(alloc)?;
    take_all(&rt, alloc, &mut session, &CARRIED)
}

/// After a fault nothing is told of rows.
const FAULT: [(Step, &str); 6] = [
    (Step::Feed("[]\n"), "fault 32 line 1"),
    (Step::Row("item", 2), "fault 32 line 1"),
    (Step::Next("item", None), "fault 32 line 1"),
    (Step::Carried, "fault 32 line 1"),
    (Step::Digest, "fault 32 line 1"),
    (Step::Document, "fault 32 line 1"),
];

#[test]
fn no_rows_are_told_after_a_fault(rt: HostRuntime) -> Result<(), Fail> {
    let alloc = rt.alloc();
    let mut session = session_on_shop(alloc)?;
    take_all(&rt, alloc, &mut session, &FAULT)
}

/// The report of one `hop`: its digests are those of the texts below and of `0 commit 2`, by `sha256sum`.
const REPORT: &str = "0 commit 2
batch 1 rows de33b3b8ff8079c364bd7e69b409e43b119153083619242e82ecb5fcaf14068a \
replies f57cdf65b8f2d2e8da1b2cbefcef36b2ca527400c706f957826fae312f147532
";

/// The document of the rows after one `hop`.
const DOCUMENT: &str = r#"["rows",1,[
["item",1,[10]],
["item",2,[21]],
["item",5,[50]],
["item",9,[90]],
["link",1,[2]]
]]
"#;

/// The digest is that of the row text, before and after a batch, and the one in the batch line.
const WHOLE: [(Step, &str); 6] = [
    (
        Step::Digest,
        "7c8b5b3b380ca34d71c6d2d54f12365d25e1e05dc0d1271978473fa5c5a696b3",
    ),
    (Step::Call(r#"["call","hop",[1]]"#), "0"),
    (Step::Cut, "ok"),
    (
        Step::Digest,
        "de33b3b8ff8079c364bd7e69b409e43b119153083619242e82ecb5fcaf14068a",
    ),
    (Step::Report(256), REPORT),
    (Step::Document, DOCUMENT),
];

#[test]
fn rows_are_told_as_a_digest_and_as_a_document(rt: HostRuntime) -> Result<(), Fail> {
    let alloc = rt.alloc();
    let mut session = session_on_shop(alloc)?;
    take_all(&rt, alloc, &mut session, &WHOLE)
}
