//! A log that is read batch by batch, from a source that fails, and after a fault.

use crate::test_world::{BANK, Slow};
use calvin::{LogReader, Setup, read_setup};
use std::alloc::Global;
use std::test::Fail;

/// The number of calls of the next batch, `end`, or the text of the fault; and the line that was begun last.
fn outcome(
    alloc: Global,
    setup: &Setup,
    reader: &mut LogReader<'_, Slow<'_>>,
) -> Result<String, Fail> {
    let read = reader.next_batch(alloc, &setup.procs);
    let last = reader.last_line();
    let outcome = match read {
        Ok(Some(calls)) => {
            let count = calls.len();
            format!(in alloc; "{count} calls, {last}")?
        }
        Ok(None) => format!(in alloc; "end, {last}")?,
        Err(fault) => format!(in alloc; "{fault}, {last}")?,
    };
    Ok(outcome)
}

const CUT_AND_PAY: &str = "[\"cut\"]\n[\"call\",\"pay\",[1,2,30]]\n";

const PEEK_TWICE: &str = "[\"call\",\"peek\",[1]]\n[\"call\",\"peek\",[1]]\n";

/// No byte is taken after a batch: the line of the cut has 8 bytes with its newline, so the ninth read is of the
/// second batch. A fault is answered again, and nothing is read after it.
#[test]
fn reads_fail_in_the_line_that_they_are_of(rt: HostRuntime) -> Result<(), Fail> {
    let alloc = rt.alloc();
    let setup = read_setup(alloc, BANK.as_bytes())?.setup;
    for (log, failing, outcomes) in [
        (CUT_AND_PAY, 0, ["0 calls, 1", "1 calls, 2", "end, 2"]),
        (
            CUT_AND_PAY,
            9,
            ["0 calls, 1", "fault 36 line 2, 1", "fault 36 line 2, 1"],
        ),
        (PEEK_TWICE, 1, ["fault 36 line 1, 0"; 3]),
        (PEEK_TWICE, 2, ["fault 36 line 1, 1"; 3]),
        (PEEK_TWICE, 20, ["fault 36 line 1, 1"; 3]),
        (PEEK_TWICE, 21, ["fault 36 line 2, 1"; 3]),
        (PEEK_TWICE, 22, ["fault 36 line 2, 2"; 3]),
        ("\n[\"call\",\"peek\",[1]]\n", 0, ["fault 31 line 1, 1"; 3]),
    ] {
        let mut source = Slow::new(log.as_bytes(), failing);
        let mut reader = LogReader::new(&mut source, 0);
        for want in outcomes {
            let found = outcome(alloc, &setup, &mut reader)?;
            assert_eq!(rt; found.as_str(), want, "{log} failing at {failing}");
        }
    }
    Ok(())
}
