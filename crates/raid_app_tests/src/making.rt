//! Workloads that are made, and run.

use crate::texts::ADDS;
use crate::told::{Way, told};
use std::test::Fail;

/// How the text begins, whatever the seed.
const HEAD: &str =
    "workload 1\nsites 4 together 8\nitem i0000 1000 at 1 2\nitem i0001 1000 at 2 3\n";

/// How the text of one program ends that the seed 1 makes.
const TAIL: &str =
    "item i1023 1000 at 1 4\nopen lock native\nswitch valid by suffix after 1\nswitch stamp by convert after 1\nswitch lock by suffix after 1\nprogram 1\nread i0136 r0\nread i0808 r1\nstop if r0 < 47\nwrite i0136 r0 - 47\nwrite i0808 r1 + 47\nend\ndone\n";

#[test]
fn a_seed_makes_its_program_and_reads_nothing(rt: HostRuntime) -> Result<(), Fail> {
    let line = "make --seed 1 --count 1";
    let told = told(
        &rt,
        rt.alloc(),
        line,
        ADDS.as_bytes(),
        Way::Whole,
        Way::Whole,
    )?;
    assert_eq!(rt; told.status, 0);
    assert!(rt; told.written().starts_with(HEAD.as_bytes()));
    assert!(rt; told.written().ends_with(TAIL.as_bytes()));
    assert_eq!(rt; told.left(), ADDS.as_bytes());
    assert!(rt; told.picks.is_empty());
    Ok(())
}

#[test]
fn each_spelling_makes_the_same(rt: HostRuntime) -> Result<(), Fail> {
    let line = "make --seed=1 --count 1";
    let first = told(&rt, rt.alloc(), line, b"", Way::Whole, Way::Whole)?;
    assert!(rt; first.written().ends_with(TAIL.as_bytes()));
    for line in [
        "make --count 1 --seed 000000001",
        "make --count=000000001 --seed=1",
    ] {
        let told = told(&rt, rt.alloc(), line, b"", Way::Whole, Way::Whole)?;
        assert_eq!(rt; told.status, 0, "{line}");
        assert_eq!(rt; told.written(), first.written(), "{line}");
    }
    Ok(())
}

#[test]
fn two_thousand_made_programs_all_end(rt: HostRuntime) -> Result<(), Fail> {
    let line = "make --seed 1 --count 2000";
    let made = told(&rt, rt.alloc(), line, b"", Way::Whole, Way::Whole)?;
    assert_eq!(rt; made.status, 0);
    let told = told(
        &rt,
        rt.alloc(),
        "run --brief",
        made.written(),
        Way::Whole,
        Way::Whole,
    )?;
    assert_eq!(rt; told.status, 0);
    assert_eq!(rt;
        told.written(),
        b"transactions 2000 ended 2000 total 1024000\n".as_slice()
    );
    Ok(())
}
