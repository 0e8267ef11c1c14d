//! Lines that tell how far a run is: over each other on a terminal, and onto an error output that fails.

use crate::test_world::{BANK, Folder, Narrow, Slow, TWO_BATCH_REPORT, TWO_BATCHES, left_on};
use std::test::Fail;

const ALONE: &str = "run --alone --progress bank.json";

const ON_WORKERS: &str = "run --workers 2 --progress bank.json";

/// A line; how much the error output takes, and whether it is a terminal; how what is there must begin and end.
const RUNS: [(&str, usize, bool, &str, &str); 6] = [
    (
        ALONE,
        1000,
        false,
        "1 settled, 1 committed, 0 aborted, 0 stale\n",
        "\n2 settled, 2 committed, 0 aborted, 0 stale\n",
    ),
    (
        ALONE,
        1000,
        true,
        "\r1 settled, 1 committed, 0 aborted, 0 stale\r2 settled,",
        "\r2 settled, 2 committed, 0 aborted, 0 stale\n",
    ),
    (ALONE, 4, false, "1 se", "1 se"),
    (
        ON_WORKERS,
        1000,
        false,
        "",
        "2 settled, 2 committed, 0 aborted, 0 stale\n",
    ),
    (
        ON_WORKERS,
        1000,
        true,
        "\r",
        "\r2 settled, 2 committed, 0 aborted, 0 stale\n",
    ),
    (ON_WORKERS, 0, false, "", ""),
];

#[test]
fn progress_goes_to_the_error_output_alone(rt: HostRuntime) -> Result<(), Fail> {
    let alloc = rt.alloc();
    let files = Folder {
        setup: BANK,
        report: "",
        is_full: false,
    };
    for (line, room, is_terminal, first, last) in RUNS {
        let mut source = Slow::new(TWO_BATCHES.as_bytes(), 0);
        let out = Narrow::new(alloc, 1000, false);
        let err = Narrow::new(alloc, room, false);
        let left = left_on(&rt, line, &files, &mut source, out, err, is_terminal)?;
        assert_eq!(rt; left.status, 0, "{line}");
        assert!(rt;
            left.out.as_slice() == TWO_BATCH_REPORT.as_bytes(),
            "{line}"
        );
        assert!(rt; left.err.as_slice().starts_with(first.as_bytes()), "{line}");
        assert!(rt; left.err.as_slice().ends_with(last.as_bytes()), "{line}");
    }
    Ok(())
}
