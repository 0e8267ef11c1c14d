//! Calls that are run sooner than they would be handed over.

use footprint::{Footprint, InPart, InTable, Resource};
use interp::Entry;
use proclang_types::{FootprintEntry, ProcFootprint};
use row_store::RowStore;

/// As many steps take about as long as to hand a job over, wake a worker and take in what comes of it: a statement is
/// one, and so is a turn of a loop. The steps of an expression aren't counted. Measured: calls of 64 statements on two
/// rows, which are handed over to four workers, take 1.5 times the processors that they take alone, and no less time.
const FEW_STEPS: usize = 32;

/// As many steps take about as long as to lock, lend and take back what one entry of a footprint covers. Measured: an
/// order of `tpcc` has 5 to 8 steps an entry, and handed over it takes twice the processors.
const STEPS_AN_ENTRY: usize = 8;

/// A brief call that declares more entries isn't lent its rows where it has to wait: that takes longer than most jobs
/// for which it waits. Measured: `tpcc` on four workers takes two thirds of the processors that it takes where such
/// calls are lent their rows.
const FEW_TO_LEND: usize = 8;

/// A call that may look at more rows isn't brief. Where it looks through partitions, the rows that its footprint covers
/// are counted once for each of its steps, since each statement may look at all of them. Measured: sums over 1,024
/// rows, handed over to four workers, take 0.9 of the time alone, and those over 4,096 rows less than half. A
/// statement that counts the rows of 40 partitions of 4 takes a fifth of the processors that it takes if handed over.
const FEW_ROWS: usize = 512;

/// About how many rows a resource covers, `None` where that is not known at once.
fn count_rows(resource: &Resource, rows: &RowStore) -> Option<usize> {
    match resource {
        Resource::Table(_, InTable::Part(_, InPart::Row(_))) => Some(1),
        Resource::Table(_, InTable::Part(_, InPart::WholePart)) => rows.count_rows(resource),
        _ => None,
    }
}

/// Whether a footprint covers at most `most` rows.
fn covers_at_most(footprint: &Footprint, most: usize, rows: &RowStore) -> bool {
    let mut left = most;
    for (resource, _) in footprint.iter() {
        match count_rows(resource, rows) {
            Some(count) if count <= left => left -= count,
            _ => return false,
        }
    }
    true
}

/// The entries that a procedure declares, none where reconnaissance finds them.
fn declared(footprint: &ProcFootprint) -> &[FootprintEntry] {
    match footprint {
        ProcFootprint::Declared(entries) => entries.as_slice(),
        ProcFootprint::Recon => &[],
    }
}

/// Whether a call of `steps` steps may look at few rows alone. Where it looks through no partition, each statement
/// looks at one: then its footprint isn't looked at.
fn looks_at_few_rows(entry: &Entry, steps: usize, rows: &RowStore) -> bool {
    if !entry.request().proc().cost().looks_through_partitions {
        return true;
    }
    let most = FEW_ROWS / steps.max(1);
    entry
        .footprint()
        .is_some_and(|footprint| covers_at_most(footprint, most, rows))
}

/// Whether a call takes so few steps on so few rows that to hand it over to a worker would cost more than to run it.
/// What is handed over is locked, lent and taken back, so the more entries are declared, the longer it may take.
pub(crate) fn is_brief(entry: &Entry, rows: &RowStore) -> bool {
    let proc = entry.request().proc();
    let most = declared(proc.footprint())
        .len()
        .saturating_mul(STEPS_AN_ENTRY)
        .saturating_add(FEW_STEPS);
    match proc.cost().steps {
        Some(steps) if steps <= most => looks_at_few_rows(entry, steps, rows),
        _ => false,
    }
}

/// Whether a call is brief, and lending it its rows would take longer than waiting for the jobs that are out.
pub(crate) fn is_better_awaiting(entry: &Entry, rows: &RowStore) -> bool {
    let entries = declared(entry.request().proc().footprint());
    entries.len() > FEW_TO_LEND && is_brief(entry, rows)
}
