//! Words that are no command.

use crate::texts::{ADDS, USAGE};
use crate::told::{Way, told};
use std::test::Fail;

/// Lines of words, each with a space between any two.
const REFUSED: [&str; 45] = [
    "",
    "--",
    "--help",
    "--version",
    "-h",
    "help",
    "RUN",
    "runs",
    "run run",
    "run --brief --brief",
    "run --brief --",
    "run --help",
    "run --seed 1",
    "make",
    "make --help",
    "make --seed 1",
    "make --count 1",
    "make --seed 1 --count 0",
    "make --seed 1 --count 000000000",
    "make --seed 1 --count 2001",
    "make --seed 1000000000 --count 1",
    "make --seed 1 --count 0000000001",
    "make --seed 1 --count 1 --count 1",
    "make --seed -- --count 1",
    "make --seed --count 1",
    "make --se 1 --cou 1",
    "check --",
    "check --brief",
    "check check",
    "checks",
    "advise",
    "advise --last",
    "advise --last=",
    "advise --last 0",
    "advise --last 2001",
    "advise --last -1",
    "advise --last x",
    "advise --last 0000000001",
    "advise --last 5 --last 5",
    "advise --last 5 5",
    "advise --la 5",
    "advise --count 5",
    "advise --last 5 --",
    "advise 5",
    "advises --last 5",
];

#[test]
fn other_words_are_told_the_usage_and_read_nothing(rt: HostRuntime) -> Result<(), Fail> {
    for line in REFUSED {
        let told = told(
            &rt,
            rt.alloc(),
            line,
            ADDS.as_bytes(),
            Way::Whole,
            Way::Whole,
        )?;
        assert_eq!(rt; told.status, 2, "{line}");
        assert_eq!(rt; told.written(), USAGE.as_bytes(), "{line}");
        assert_eq!(rt; told.left(), ADDS.as_bytes(), "{line}");
        assert!(rt; told.picks.is_empty());
    }
    Ok(())
}

#[test]
fn a_source_that_would_fail_is_not_asked(rt: HostRuntime) -> Result<(), Fail> {
    let told = told(
        &rt,
        rt.alloc(),
        "run --",
        ADDS.as_bytes(),
        Way::Failing(1),
        Way::Whole,
    )?;
    assert_eq!(rt; told.status, 2);
    Ok(())
}
