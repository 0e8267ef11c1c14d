//! What calls declare: footprints and the aborts of their faults.

use crate::test_world::entries;
use footprint::{Footprint, InPart, InTable, Resource};
use interp::Footing;
use proclang_types::Right;
use sequencer::{Batch, BatchFault};
use std::alloc::Global;
use std::test::Fail;

/// Appends a resource by numbers: its table, its partition and its key, as far as it has them.
fn push_resource(text: &mut String, resource: &Resource) -> Result<(), Fail> {
    match resource {
        Resource::Db => text.push_str("db")?,
        Resource::Table(table, InTable::WholeTable) => {
            let table = table.place();
            write!(text, "{table}")?;
        }
        Resource::Table(table, InTable::Part(part, InPart::WholePart)) => {
            let table = table.place();
            write!(text, "{table}/{part}")?;
        }
        Resource::Table(table, InTable::Part(part, InPart::Row(key))) => {
            let table = table.place();
            write!(text, "{table}/{part}/{key}")?;
        }
    }
    Ok(())
}

/// The rights of a footprint, in tree order.
fn rights_of(alloc: Global, footprint: &Footprint) -> Result<String, Fail> {
    let mut text = String::new(alloc);
    for (resource, right) in footprint.iter() {
        text.push_str(if *right == Right::Write { "w " } else { "r " })?;
        push_resource(&mut text, resource)?;
        text.push_str(";")?;
    }
    Ok(text)
}

/// What a call declares: its rights, or its abort.
fn declared_by(alloc: Global, name: &str, numbers: &[i64]) -> Result<String, Fail> {
    let entries = entries(alloc, name, numbers)?;
    let entry = entries.first().ok_or("an entry")?;
    match entry.footing() {
        Footing::Declared(footprint) => rights_of(alloc, footprint),
        Footing::Faulting(code) => Ok(format!(in alloc; "abort {code}")?),
        Footing::Found(_) => Err(Fail::from("a footprint that was found")),
    }
}

/// Entries are evaluated in order, and the first fault counts. Of two rights on one resource the greater counts.
#[test]
fn calls_declare_rights_or_abort(rt: HostRuntime) -> Result<(), Fail> {
    let table: [(&str, &[i64], &str); 22] = [
        ("none", &[], ""),
        ("pay", &[1, 2], "w 0/0/2;w 0/1/1;"),
        ("pay", &[1, 1], "w 0/1/1;"),
        ("sum", &[i64::MAX, 0], "w 0/0/0;w 0/1/9223372036854775807;"),
        ("sum", &[i64::MAX, 1], "abort 3"),
        ("sum", &[-1, 0], "abort 5"),
        ("sum", &[0, -1], "abort 5"),
        ("sum", &[-1, i64::MIN], "abort 3"),
        ("sum", &[1, -1], "abort 5"),
        ("in_part", &[1, 0], "w 0/0/0;r 0/1;"),
        ("in_part", &[2, 0], "abort 6"),
        ("in_part", &[-1, 0], "abort 6"),
        ("in_part", &[i64::MIN, 0], "abort 6"),
        ("in_part", &[i64::MAX, 0], "abort 6"),
        ("in_part", &[2, -1], "abort 6"),
        ("in_part", &[1, -1], "abort 5"),
        ("then_write", &[1], "w 0/1;"),
        ("then_read", &[1], "w 0/1;"),
        ("mix", &[], "r 0/0;w 0/0/2;"),
        ("all", &[], "r db;w 0;"),
        ("hop", &[], "w 0/0/2;r 1/0/1;"),
        ("parts", &[], "w 0/0;r 0/1;r 0/1/3;"),
    ];
    for (name, numbers, want) in table {
        let text = declared_by(rt.alloc(), name, numbers)?;
        assert_eq!(rt; text.as_str(), want, "{name}");
    }
    Ok(())
}

/// A batch of `count` calls: how many it has, or why it is none.
fn batch_of(alloc: Global, count: usize) -> Result<Result<usize, BatchFault>, Fail> {
    let entries = entries(alloc, "none", &[])?;
    let entry = entries.first().ok_or("an entry")?;
    let mut requests = Vec::new(alloc);
    for _ in 0..count {
        requests.push(entry.request().clone()?)?;
    }
    match Batch::of(alloc, requests) {
        Ok(batch) => Ok(Ok(batch.items().len())),
        Err(fault) => Ok(Err(fault)),
    }
}

#[test]
fn batches_have_at_most_4096_calls(rt: HostRuntime) -> Result<(), Fail> {
    let table = [
        (0, Ok(0)),
        (2, Ok(2)),
        (4_096, Ok(4_096)),
        (4_097, Err(BatchFault::TooLong)),
    ];
    for (count, want) in table {
        assert_eq!(rt; batch_of(rt.alloc(), count)?, want);
    }
    for (fault, want) in [
        (BatchFault::TooLong, "more than 4096 requests"),
        (BatchFault::NoMemory, "out of memory"),
    ] {
        let text = format!(in rt.alloc(); "{fault}")?;
        assert_eq!(rt; text.as_str(), want);
    }
    Ok(())
}
