//! A source or a sink that fails at one of its calls.

use crate::texts::{ADDED, ADDS, USAGE};
use crate::told::{Way, told};
use std::test::Fail;

#[test]
fn a_failed_read_leaves_nothing_written(rt: HostRuntime) -> Result<(), Fail> {
    let told = told(
        &rt,
        rt.alloc(),
        "run",
        ADDS.as_bytes(),
        Way::Failing(3),
        Way::Whole,
    )?;
    assert_eq!(rt; told.status, 4);
    assert!(rt; told.written().is_empty() && told.picks.is_empty());
    // The two reads before it took ten bytes each.
    assert_eq!(rt; told.left(), &ADDS.as_bytes()[20..]);
    Ok(())
}

#[test]
fn every_read_fails_in_turn(rt: HostRuntime) -> Result<(), Fail> {
    // The 107 bytes take eleven calls, and a twelfth finds the end: a failure in a thirteenth never comes.
    for call in 1..=13 {
        let told = told(
            &rt,
            rt.alloc(),
            "run",
            ADDS.as_bytes(),
            Way::Failing(call),
            Way::Whole,
        )?;
        let (status, count) = if call < 13 { (4, 0) } else { (0, 154) };
        assert_eq!(rt; told.status, status, "call {call}");
        assert_eq!(rt; told.written(), &ADDED.as_bytes()[..count], "call {call}");
    }
    Ok(())
}

#[test]
fn every_write_fails_in_turn(rt: HostRuntime) -> Result<(), Fail> {
    // The 154 bytes take sixteen calls: a failure in a seventeenth never comes. The run is made all the same.
    for call in 1..=17 {
        let told = told(
            &rt,
            rt.alloc(),
            "run",
            ADDS.as_bytes(),
            Way::Whole,
            Way::Failing(call),
        )?;
        let (status, count) = if call < 17 {
            (5, 10 * (call as usize - 1))
        } else {
            (0, 154)
        };
        assert_eq!(rt; told.status, status, "call {call}");
        assert_eq!(rt; told.written(), &ADDED.as_bytes()[..count], "call {call}");
        assert_eq!(rt; told.picks.len(), 9, "call {call}");
    }
    Ok(())
}

#[test]
fn a_failed_write_hides_a_refusal(rt: HostRuntime) -> Result<(), Fail> {
    let told = told(&rt, rt.alloc(), "runs", b"", Way::Whole, Way::Failing(2))?;
    assert_eq!(rt; told.status, 5);
    assert_eq!(rt; told.written(), &USAGE.as_bytes()[..10]);
    Ok(())
}
