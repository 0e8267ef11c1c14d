//! Runs of a log, commands and whole programs over devices that give and take a byte a call, and fail, and over files
//! for which there is no memory.

use crate::test_world::{
    BANK, EACH, Folder, NO_ROWS, NOTHING, Narrow, ONE_BATCH, Slow, TWO_BATCH_REPORT, TWO_BATCHES,
    Tried,
};
use std::sync::Wait;
use std::test::Fail;
use std::thread::Threads;

/// How many bytes of the log its first batch has, with the line of its cut.
const FIRST_BATCH: usize = 32;

const NO_LOG: &str = "fault 36 line 0\n";

/// The number of newline bytes of a text.
fn newlines(text: &[u8]) -> u64 {
    let mut count: u64 = 0;
    for byte in text {
        if *byte == b'\n' {
            count = count.saturating_add(1);
        }
    }
    count
}

/// A command that reads the log; what it has written when the first batch is read; and whether it reads on then.
type Reading<'a> = (&'a str, &'a str, bool);

const READINGS: [Reading<'static>; 5] = [
    ("run bank.json", ONE_BATCH, true),
    ("run --alone bank.json", ONE_BATCH, true),
    ("rows bank.json", "", true),
    ("locks --coarsen 0 bank.json", "0 IX db\n0 X acct\n", false),
    ("replicas bank.json report.txt", "", true),
];

/// Whether a call ends as it must where the read fails that comes after a number of bytes of the log.
fn ends_at_a_read<R: Threads + Wait + Sync + AllocGlobal>(
    rt: &R,
    tried: Tried,
    (line, first, reads_on): Reading<'_>,
    taken: usize,
) -> Result<bool, Fail> {
    let alloc = rt.alloc();
    let files = Folder {
        setup: BANK,
        report: NOTHING,
        is_full: false,
    };
    let log = TWO_BATCHES.as_bytes();
    let mut source = Slow::new(log, (taken as u64).saturating_add(1));
    let out = Narrow::new(alloc, 1000, false);
    let left = tried.leaves(rt, line, &files, &mut source, out)?;
    if taken >= FIRST_BATCH && !reads_on {
        return Ok(left.is(0, first.as_bytes(), b"") && !source.failed);
    }
    let at = newlines(log.get(..taken).unwrap_or(log)).saturating_add(1);
    let fault = format!(in alloc; "fault 36 line {at}\n")?;
    let written = if taken < FIRST_BATCH { "" } else { first };
    Ok(left.is(4, written.as_bytes(), fault.as_bytes()) && source.failed)
}

#[test]
fn a_read_that_fails_ends_the_command(rt: HostRuntime) -> Result<(), Fail> {
    for reading in READINGS {
        for tried in EACH {
            if tried.serves(reading.0) {
                for taken in 0..=TWO_BATCHES.len() {
                    let ends = ends_at_a_read(&rt, tried, reading, taken)?;
                    assert!(rt; ends, "{tried:?} {} behind {taken} bytes", reading.0);
                }
            }
        }
    }
    Ok(())
}

/// A command, its setup, its log and the other report; what it writes; how many bytes are written before its log is
/// read on, and the faults of a write that fails among those and after them.
const COMMANDS: [(&str, [&str; 3], &str, usize, [&str; 2]); 7] = [
    (
        "run --workers 1 bank.json",
        [BANK, TWO_BATCHES, ""],
        TWO_BATCH_REPORT,
        ONE_BATCH.len(),
        ["fault 36 line 2\n", "fault 36 line 3\n"],
    ),
    (
        "rows bank.json",
        [BANK, TWO_BATCHES, ""],
        "acct 1 40\nacct 2 160\nref 1 2\n",
        0,
        [NO_LOG, NO_LOG],
    ),
    (
        "rows --alone --table ref bank.json",
        [BANK, TWO_BATCHES, ""],
        "ref 1 2\n",
        0,
        [NO_LOG, NO_LOG],
    ),
    (
        "check bank.json",
        [NO_ROWS, "", ""],
        "ok 1 tables 0 procedures 0 rows\n",
        0,
        [NO_LOG, NO_LOG],
    ),
    (
        "locks --coarsen 0 bank.json",
        [BANK, TWO_BATCHES, ""],
        "0 IX db\n0 X acct\n",
        0,
        [NO_LOG, NO_LOG],
    ),
    (
        "replicas bank.json report.txt",
        [NO_ROWS, "", NOTHING],
        "same\n",
        0,
        [NO_LOG, NO_LOG],
    ),
    (
        "replicas bank.json report.txt",
        [BANK, TWO_BATCHES, NOTHING],
        "differ at byte 0\n",
        0,
        [NO_LOG, NO_LOG],
    ),
];

/// Whether a call ends so where the write fails that comes after a number of bytes, or takes none.
fn ends_at_a_write<R: Threads + Wait + Sync + AllocGlobal>(
    rt: &R,
    tried: Tried,
    line: &str,
    [setup, log, report]: [&str; 3],
    written: &[u8],
    fault: &[u8],
) -> Result<bool, Fail> {
    let files = Folder {
        setup,
        report,
        is_full: false,
    };
    let mut ends = true;
    for takes_none in [false, true] {
        let mut source = Slow::new(log.as_bytes(), 0);
        let out = Narrow::new(rt.alloc(), written.len(), takes_none);
        let left = tried.leaves(rt, line, &files, &mut source, out)?;
        ends = left.is(4, written, fault) && ends;
    }
    Ok(ends)
}

#[test]
fn a_write_that_fails_ends_the_command(rt: HostRuntime) -> Result<(), Fail> {
    for (line, inputs, answer, first, [early, late]) in COMMANDS {
        for tried in EACH {
            if tried.serves(line) {
                for room in 0..answer.len() {
                    let (written, _) = answer.as_bytes().split_at(room);
                    let fault = if room < first {
                        early.as_bytes()
                    } else {
                        late.as_bytes()
                    };
                    let ends = ends_at_a_write(&rt, tried, line, inputs, written, fault)?;
                    assert!(rt; ends, "{tried:?} {line} at room {room}");
                }
            }
        }
    }
    Ok(())
}

#[test]
fn a_file_without_memory_is_fault_47(rt: HostRuntime) -> Result<(), Fail> {
    for (line, [_, log, _], _, _, _) in COMMANDS {
        let files = Folder {
            setup: BANK,
            report: NOTHING,
            is_full: true,
        };
        let mut source = Slow::new(log.as_bytes(), 0);
        let out = Narrow::new(rt.alloc(), 1000, false);
        let left = Tried::Program.leaves(&rt, line, &files, &mut source, out)?;
        assert!(rt; left.is(3, b"", b"fault 47\n"), "{line}");
    }
    Ok(())
}
