//! Footprints of more and more rows: a list has few, a tree has many.

use footprint::{Footprint, InPart, InTable, Resource, Right};
use std::alloc::Global;
use std::test::Fail;
use values::TableNo;

/// The row with a key, in a table of one partition.
fn row(key: u64) -> Resource {
    Resource::Table(TableNo::new(0), InTable::Part(0, InPart::Row(key)))
}

/// The right on the row with a key: every third is written.
fn right_on(key: u64) -> Right {
    if key % 3 == 0 {
        Right::Write
    } else {
        Right::Read
    }
}

/// A footprint of the rows with keys below a number. Rows with even keys are added from the last to the first, then
/// those with odd keys from the first to the last, and then those that are written again, to be read.
fn rows_below(alloc: Global, count: u64) -> Result<Footprint, Fail> {
    let mut footprint = Footprint::new(alloc);
    for key in (0..count).rev().filter(|key| key % 2 == 0) {
        footprint.add(row(key), right_on(key))?;
    }
    for key in (0..count).filter(|key| key % 2 == 1) {
        footprint.add(row(key), right_on(key))?;
    }
    for key in (0..count).filter(|key| key % 3 == 0) {
        footprint.add(row(key), Right::Read)?;
    }
    Ok(footprint)
}

#[test]
fn rows_are_in_tree_order_however_many_there_are(rt: HostRuntime) -> Result<(), Fail> {
    for count in [0u64, 1, 2, 15, 16, 17, 18, 33, 100] {
        let footprint = rows_below(rt.alloc(), count)?;
        assert_eq!(rt; footprint.iter().len(), count as usize);
        assert_eq!(rt; footprint.iter().count(), count as usize);
        for ((resource, right), key) in footprint.iter().zip(0..count) {
            let want = right_on(key);
            assert_eq!(rt; (*resource, *right), (row(key), want));
            assert_eq!(rt; footprint.get(resource), Some(want));
            assert_eq!(rt;
                footprint.covers(resource, Right::Write),
                want == Right::Write
            );
        }
        assert_eq!(rt; footprint.get(&row(count)), None);
    }
    Ok(())
}
