//! Workloads whose reports are worked out by hand, but for that of two sites, which is the reference model's. Each has one report, whatever the
//! order in which its servers take letters.

use crate::texts::{ADDED, ADDS, NOTHING, NOTHING_DONE};
use crate::told::{Way, called, told};
use raid_io::{PlainSink, PlainSource};
use std::test::Fail;

/// Words, a text, and what is written then.
const RUNS: [(&str, &str, &str); 9] = [
    ("run", NOTHING, NOTHING_DONE),
    ("run", ADDS, ADDED),
    // The summary counts and sums.
    ("run --brief", ADDS, "transactions 1 ended 1 total 105\n"),
    // What was read is written.
    (
        "run",
        "workload 1\nsites 1 together 1\nitem a 100 at 1\nopen lock native\nprogram 1\nread a r0\nwrite a r0\nend\ndone\n",
        "report 1\n1 begin t1 at s1\n2 read t1 a at s1\n3 commit t1 reads a=100 writes a=100 under 1 applied s1\n4 ack t1 s1\norder t1\nfinal a 100\ncopy s1 a 100 3\ndone\n",
    ),
    // A program reads its own write.
    (
        "run",
        "workload 1\nsites 1 together 1\nitem a 100 at 1\nopen lock native\nprogram 1\nwrite a 9\nread a r0\nwrite a r0 + 1\nend\ndone\n",
        "report 1\n1 begin t1 at s1\n2 commit t1 reads - writes a=10 under 1 applied s1\n3 ack t1 s1\norder t1\nfinal a 10\ncopy s1 a 10 2\ndone\n",
    ),
    // A program ends itself.
    (
        "run",
        "workload 1\nsites 1 together 1\nitem a 100 at 1\nopen lock native\nprogram 1\nread a r0\nstop if r0 < 200\nend\ndone\n",
        "report 1\n1 begin t1 at s1\n2 read t1 a at s1\n3 abort t1 own reads a=100\norder -\nfinal a 100\ncopy s1 a 100 0\ndone\n",
    ),
    // A sum leaves the range.
    (
        "run",
        "workload 1\nsites 1 together 1\nitem a 9223372036854775807 at 1\nopen lock native\nprogram 1\nread a r0\nwrite a r0 + 1\nend\ndone\n",
        "report 1\n1 begin t1 at s1\n2 read t1 a at s1\n3 abort t1 overflow reads a=9223372036854775807\norder -\nfinal a 9223372036854775807\ncopy s1 a 9223372036854775807 0\ndone\n",
    ),
    // A text of version two has a report of version two.
    (
        "run",
        "workload 2\nsites 1 together 1\nrestarts 0\nitem a 100 at 1\nopen lock native\nprogram 1\nread a r0\nwrite a r0 + 5\nend\ndone\n",
        "report 2\n1 begin t1 at s1\n2 read t1 a at s1\n3 commit t1 reads a=100 writes a=105 under 1 applied s1\n4 ack t1 s1\norder t1\nfinal a 105\ncopy s1 a 105 3\ndone\n",
    ),
    // A read is served at another site.
    (
        "run",
        "workload 1\nsites 2 together 1\nitem x 5 at 2\nopen lock native\nprogram 1\nread x r0\nwrite x r0 + 1\nend\ndone\n",
        "report 1\n1 begin t1 at s1\n2 read t1 x at s2\n3 commit t1 reads x=5 writes x=6 under 1,1 applied s2\n4 ack t1 s2\norder t1\nfinal x 6\ncopy s2 x 6 3\ndone\n",
    ),
];

/// How many letters the servers take in the run that adds 5.
const STEPS: usize = 9;

#[test]
fn each_text_has_its_report(rt: HostRuntime) -> Result<(), Fail> {
    for (line, text, report) in RUNS {
        let told = told(
            &rt,
            rt.alloc(),
            line,
            text.as_bytes(),
            Way::Whole,
            Way::Whole,
        )?;
        assert_eq!(rt; told.status, 0, "{report}");
        assert_eq!(rt; told.written(), report.as_bytes());
        assert!(rt; told.left().is_empty());
    }
    Ok(())
}

#[test]
fn ends_that_never_fail_serve_as_well(rt: HostRuntime) -> Result<(), Fail> {
    let mut source = PlainSource::new(rt.alloc(), ADDS.as_bytes())?;
    let mut sink = PlainSink::new();
    let ended = called(&rt, rt.alloc(), "run", &mut source, &mut sink)?;
    assert_eq!(rt; ended.status, 0);
    assert_eq!(rt; ended.schedule.len(), STEPS);
    Ok(())
}
