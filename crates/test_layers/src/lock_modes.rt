//! The five modes, against the tables of Gray and others (1975 and 1976).

use modes::{Mode, compatible, join};
use std::test::Fail;

/// The modes with their words, and of each which it goes with and what it makes with each, in this order.
const MODES: [(Mode, &str, [bool; 5], [&str; 5]); 5] = [
    (
        Mode::IntentionShared,
        "IS",
        [true, true, true, true, false],
        ["IS", "IX", "S", "SIX", "X"],
    ),
    (
        Mode::IntentionExclusive,
        "IX",
        [true, true, false, false, false],
        ["IX", "IX", "SIX", "SIX", "X"],
    ),
    (
        Mode::Shared,
        "S",
        [true, false, true, false, false],
        ["S", "SIX", "S", "SIX", "X"],
    ),
    (
        Mode::SharedIntentionExclusive,
        "SIX",
        [true, false, false, false, false],
        ["SIX", "SIX", "SIX", "SIX", "X"],
    ),
    (
        Mode::Exclusive,
        "X",
        [false, false, false, false, false],
        ["X", "X", "X", "X", "X"],
    ),
];

#[test]
fn modes_go_together_and_join_as_in_grays_tables(rt: HostRuntime) -> Result<(), Fail> {
    for (first, word, goes_with, joins) in &MODES {
        let text = format!(in rt.alloc(); "{first}")?;
        assert_eq!(rt; text.as_str(), *word);
        for (place, (second, _, _, _)) in MODES.iter().enumerate() {
            if let (Some(fits), Some(joined)) = (goes_with.get(place), joins.get(place)) {
                assert_eq!(rt; compatible(*first, *second), *fits, "{first} {second}");
                let both = join(*first, *second);
                let text = format!(in rt.alloc(); "{both}")?;
                assert_eq!(rt; text.as_str(), *joined, "{first} {second}");
            }
        }
    }
    Ok(())
}
