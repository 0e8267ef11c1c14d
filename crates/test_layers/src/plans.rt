//! Plans and clashes, against what was worked out by hand.

use crate::test_world::{bank, plan};
use coarsen::{Plan, clash};
use footprint::{Footprint, InPart, InTable, Resource, Right};
use report_text::push_plan;
use std::alloc::Global;
use std::test::Fail;
use values::TableNo;

/// A call, the threshold, how many requests at most, and the lines of its plan.
type Planned<'a> = (&'a str, &'a [i64], usize, usize, &'a str);

const PAY: &str = "0 IX db\n0 IX acct\n0 IX acct/0\n0 X acct/0/2\n0 IX acct/1\n0 X acct/1/1\n";

const HOP: &str =
    "0 IX db\n0 IX acct\n0 IX acct/0\n0 X acct/0/2\n0 IS ref\n0 IS ref/0\n0 S ref/0/1\n";

const ROWS_OF_TABLE: &str = "0 IX db\n0 SIX acct\n0 IX acct/0\n0 X acct/0/4\n";

/// What an ancestor's entry covers is counted neither against the threshold nor against the number of requests.
const PLANS: [Planned<'static>; 17] = [
    ("none", &[], 8, 65_536, "0 none\n"),
    ("pay", &[1, 2], 8, 65_536, PAY),
    ("pay", &[1, 2], 1, 6, PAY),
    ("pay", &[1, 2], 1, 5, "0 X db\n"),
    ("pay", &[1, 2], 0, 65_536, "0 IX db\n0 X acct\n"),
    (
        "pay",
        &[1, 3],
        1,
        65_536,
        "0 IX db\n0 IX acct\n0 X acct/1\n",
    ),
    ("hop", &[], 8, 65_536, HOP),
    (
        "read_ref",
        &[9],
        8,
        65_536,
        "0 IS db\n0 IS ref\n0 IS ref/0\n0 S ref/0/9\n",
    ),
    (
        "mix",
        &[],
        8,
        65_536,
        "0 IX db\n0 IX acct\n0 SIX acct/0\n0 X acct/0/2\n",
    ),
    ("mix", &[], 8, 3, "0 X db\n"),
    (
        "write_read",
        &[],
        1,
        65_536,
        "0 IX db\n0 IX acct\n0 X acct/0\n",
    ),
    ("rows_of_table", &[], 1, 65_536, ROWS_OF_TABLE),
    ("rows_of_table", &[], 1, 4, ROWS_OF_TABLE),
    (
        "parts",
        &[],
        2,
        65_536,
        "0 IX db\n0 IX acct\n0 X acct/0\n0 S acct/1\n",
    ),
    (
        "parts",
        &[],
        2,
        4,
        "0 IX db\n0 IX acct\n0 X acct/0\n0 S acct/1\n",
    ),
    ("parts", &[], 1, 4, "0 IX db\n0 X acct\n"),
    ("parts", &[], 2, 1, "0 X db\n"),
];

/// The lines of a plan.
fn lines(alloc: Global, plan: &Plan) -> Result<String, Fail> {
    let mut text = String::new(alloc);
    push_plan(&mut text, &bank(alloc)?, 0, plan)?;
    Ok(text)
}

#[test]
fn footprints_are_coarsened_to_plans(rt: HostRuntime) -> Result<(), Fail> {
    let alloc = rt.alloc();
    for (name, numbers, threshold, most, want) in PLANS {
        let plan = plan(alloc, (name, numbers), threshold, most)?;
        let text = lines(alloc, &plan)?;
        assert_eq!(rt; text.as_str(), want, "{name} {threshold} {most}");
    }
    Ok(())
}

/// The plan of a call with one number, without coarsening.
fn plan_of(alloc: Global, (name, number): (&str, i64)) -> Result<Plan, Fail> {
    plan(alloc, (name, &[number]), 65_535, 1_048_576)
}

#[test]
fn plans_clash_where_rows_could(rt: HostRuntime) -> Result<(), Fail> {
    let table = [
        (("write_row", 2), ("write_row", 2), true),
        (("write_row", 2), ("read_row", 2), true),
        (("read_row", 2), ("read_row", 2), false),
        (("write_row", 2), ("write_row", 4), false),
        (("write_row", 2), ("write_ref", 2), false),
        (("read_part", 0), ("write_row", 4), true),
        (("read_part", 0), ("read_row", 4), false),
        (("read_part", 0), ("write_row", 1), false),
        (("write_part", 0), ("write_part", 1), false),
        (("read_table", 0), ("write_row", 4), true),
        (("write_table", 0), ("write_refs", 0), false),
        (("read_db", 0), ("write_ref", 2), true),
        (("read_db", 0), ("read_ref", 2), false),
        (("write_db", 0), ("read_db", 0), true),
    ];
    let none = plan(rt.alloc(), ("none", &[]), 8, 65_536)?;
    for (first, second, wanted) in table {
        let a = plan_of(rt.alloc(), first)?;
        let b = plan_of(rt.alloc(), second)?;
        assert_eq!(rt; (clash(&a, &b), clash(&b, &a)), (wanted, wanted));
        assert_eq!(rt; (clash(&a, &none), clash(&none, &a)), (false, false));
    }
    Ok(())
}

/// A footprint of as many rows as a footprint may have resources, 32,768 in each of two partitions.
#[test]
fn a_plan_has_65540_requests_or_is_coarsened(rt: HostRuntime) -> Result<(), Fail> {
    let alloc = rt.alloc();
    let mut footprint = Footprint::new(alloc);
    for key in 0u64..65_536 {
        let part = InTable::Part((key % 2) as u32, InPart::Row(key));
        footprint.add(Resource::Table(TableNo::new(0), part), Right::Read)?;
    }
    let full = Plan::new(alloc, &footprint, 65_535, 1_048_576)?;
    assert_eq!(rt; full.requests().len(), 65_540usize);
    for (threshold, want) in [
        (8, "0 IS db\n0 IS acct\n0 S acct/0\n0 S acct/1\n"),
        (65_535, "0 S db\n"),
    ] {
        let plan = Plan::new(alloc, &footprint, threshold, 65_539)?;
        assert_eq!(rt; lines(alloc, &plan)?.as_str(), want);
        assert!(rt; !clash(&full, &plan));
    }
    Ok(())
}
