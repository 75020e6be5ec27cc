//! Reports of which it is asked what switch they speak for.

use crate::texts::{ADDED, ADDS, NOTHING, NOTHING_DONE, joined};
use crate::told::{Outcome, Way, told};
use raid_base::NoMemory;
use std::alloc::Global;
use std::test::Fail;
use std::thread::Threads;

/// Two transactions under locks want to write what both have read: one waits, and the other is aborted, since it would close a
/// cycle of waits.
const HELD_UP: &str =
    "workload 1\nsites 1 together 2\nitem balance 100 at 1\nopen lock native\nprogram 1\nread balance r0\nwrite balance r0 + 10\nend\nprogram 1\nread balance r0\nwrite balance r0 + 20\nend\ndone\n";

/// What the reference model reports of it.
const HELD_UP_DONE: &str =
    "report 1\n1 begin t1 at s1\n2 read t1 balance at s1\n3 begin t2 at s1\n4 read t2 balance at s1\n5 wait t1 reads balance=100 writes balance=110 under 1\n6 abort t2 deadlock commit reads balance=100 writes balance=120 under 1\n7 commit t1 reads balance=100 writes balance=110 under 1 applied s1\n8 ack t1 s1\norder t1\nfinal balance 110\ncopy s1 balance 110 7\ndone\n";

/// Two transactions under validation read the same two items, and each writes one of them: the second to commit is aborted.
const SKEWED: &str =
    "workload 1\nsites 1 together 2\nitem alice 1 at 1\nitem bob 1 at 1\nopen valid generic\nprogram 1\nread alice r0\nread bob r1\nstop if r0 + r1 < 2\nwrite alice 0\nend\nprogram 1\nread alice r0\nread bob r1\nstop if r0 + r1 < 2\nwrite bob 0\nend\ndone\n";

/// What the reference model reports of it.
const SKEWED_DONE: &str =
    "report 1\n1 begin t1 at s1\n2 read t1 alice at s1\n3 begin t2 at s1\n4 read t2 alice at s1\n5 read t1 bob at s1\n6 read t2 bob at s1\n7 commit t1 reads alice=1,bob=1 writes alice=0 under 1 applied s1\n8 abort t2 invalid commit reads alice=1,bob=1 writes bob=0 under 1\n9 ack t1 s1\norder t1\nfinal alice 0\nfinal bob 1\ncopy s1 alice 0 7\ncopy s1 bob 1 0\ndone\n";

/// The advice on the report of the program that adds 5.
const ADVICE: &str = "switch valid by suffix after 1\n";

/// Words, a workload, a report of it, and the advice. Under locks that held nobody up validation is advised, and where they cost more than
/// was committed timestamps; of which is the case the last ends alone decide.
const ADVISED: [(&str, &str, &str, &str); 6] = [
    ("advise --last 5", ADDS, ADDED, ADVICE),
    ("advise --last=000000001", ADDS, ADDED, ADVICE),
    ("advise --last 2000", NOTHING, NOTHING_DONE, "keep\n"),
    (
        "advise --last 2",
        HELD_UP,
        HELD_UP_DONE,
        "switch stamp by suffix after 2\n",
    ),
    (
        "advise --last 1",
        HELD_UP,
        HELD_UP_DONE,
        "switch valid by suffix after 2\n",
    ),
    (
        "advise --last 2",
        SKEWED,
        SKEWED_DONE,
        "switch lock by generic after 2\n",
    ),
];

/// What is replaced in an input, the program that adds 5 and its report, and what is said then, as `check` says it.
const UNADVISED: [(&str, &str, u8, &str); 5] = [
    ("writes a=105", "writes a=106", 8, "fails legal at 3\n"),
    ("final a 105", "final a 106", 8, "fails serial\n"),
    ("4 ack t1 s1\n", "", 8, "fails finished\n"),
    ("order t1\n", "order t2\n", 3, "refused report line 6\n"),
    ("sites 1", "sites 0", 3, "refused line 2 fault 3 range\n"),
];

/// What is advised by the last five ends of what stands in the input.
fn advised<R: Threads + Sync>(
    rt: &R,
    alloc: Global,
    input: &[u8],
    giving: Way,
    taking: Way,
) -> Result<Outcome, NoMemory> {
    told(rt, alloc, "advise --last 5", input, giving, taking)
}

#[test]
fn a_sound_report_has_its_advice(rt: HostRuntime) -> Result<(), Fail> {
    for (line, workload, report, advice) in ADVISED {
        let input = joined(rt.alloc(), workload, report)?;
        let told = told(
            &rt,
            rt.alloc(),
            line,
            input.as_bytes(),
            Way::Whole,
            Way::Whole,
        )?;
        assert_eq!(rt; told.status, 0, "{advice}");
        assert_eq!(rt; told.written(), advice.as_bytes(), "{line}");
        assert!(rt; told.left().is_empty() && told.picks.is_empty());
    }
    Ok(())
}

#[test]
fn a_report_is_judged_before_anything_is_advised(rt: HostRuntime) -> Result<(), Fail> {
    let sound = joined(rt.alloc(), ADDS, ADDED)?;
    for (old, new, status, line) in UNADVISED {
        let input = sound.replacen(rt.alloc(), old, new, 1)?;
        let told = advised(&rt, rt.alloc(), input.as_bytes(), Way::Whole, Way::Whole)?;
        assert_eq!(rt; told.status, status, "{new}");
        assert_eq!(rt; told.written(), line.as_bytes(), "{new}");
    }
    Ok(())
}

#[test]
fn every_read_and_every_write_fails_in_turn(rt: HostRuntime) -> Result<(), Fail> {
    let input = joined(rt.alloc(), ADDS, ADDED)?;
    // The 261 bytes take 27 calls, and one more finds the end; those of the advice take four.
    for call in 1..=29 {
        let unread = advised(
            &rt,
            rt.alloc(),
            input.as_bytes(),
            Way::Failing(call),
            Way::Whole,
        )?;
        let (status, count) = if call < 29 { (4, 0) } else { (0, ADVICE.len()) };
        assert_eq!(rt; unread.status, status, "call {call}");
        assert_eq!(rt;
            unread.written(),
            &ADVICE.as_bytes()[..count],
            "call {call}"
        );
    }
    for call in 1..=5 {
        let unwritten = advised(
            &rt,
            rt.alloc(),
            input.as_bytes(),
            Way::Whole,
            Way::Failing(call),
        )?;
        let (status, count) = if call < 5 {
            (5, 10 * (call as usize - 1))
        } else {
            (0, ADVICE.len())
        };
        assert_eq!(rt; unwritten.status, status, "call {call}");
        assert_eq!(rt;
            unwritten.written(),
            &ADVICE.as_bytes()[..count],
            "call {call}"
        );
    }
    Ok(())
}
