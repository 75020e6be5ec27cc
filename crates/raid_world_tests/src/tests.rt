//! How many picks are more than any run should have.

use crate::texts::{largest, rounds_of, transfers};
use std::test::Fail;

/// No program.
const NOTHING: &str = "workload 1\nsites 1 together 1\nitem a 7 at 1\nopen lock native\ndone\n";

/// A program adds 5 to an item.
const ADDS: &str =
    "workload 1\nsites 1 together 1\nitem a 100 at 1\nopen lock native\nprogram 1\nread a r0\nwrite a r0 + 5\nend\ndone\n";

/// A site stops once one transaction has ended, and returns once two have.
const STOPS: &str =
    "workload 1\nsites 2 together 1\nitem x 0 at 1 2\nopen lock native\nstop 2 after 1\nreturn 2 after 2\nprogram 1\nwrite x 1\nend\nprogram 1\nread x r0\nend\ndone\n";

/// The same, and each program may be tried once more.
const STOPS_AND_RESTARTS: &str =
    "workload 2\nsites 2 together 1\nrestarts 1\nitem x 0 at 1 2\nopen lock native\nstop 2 after 1\nreturn 2 after 2\nprogram 1\nwrite x 1\nend\nprogram 1\nread x r0\nend\ndone\n";

#[test]
fn the_bound_counts_programs_events_and_copies(rt: HostRuntime) -> Result<(), Fail> {
    let alloc = rt.alloc();
    for (text, picks) in [
        (NOTHING, 2),
        (ADDS, 138),
        (STOPS, 631),
        (STOPS_AND_RESTARTS, 935),
    ] {
        assert_eq!(rt; rounds_of(alloc, text)?, picks, "{text}");
    }
    assert_eq!(rt; rounds_of(alloc, transfers(alloc)?.as_str())?, 33_182);
    assert_eq!(rt; rounds_of(alloc, largest(alloc, 0)?.as_str())?, 3_230_665);
    assert_eq!(rt; rounds_of(alloc, largest(alloc, 3)?.as_str())?, 6_518_665);
    Ok(())
}
