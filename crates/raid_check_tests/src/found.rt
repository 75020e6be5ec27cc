//! What is found of reports of two small workloads, by the reference model too.

ghost use Rattle.std.specs.Prelude.{◌≡◌, true, IfOk};
ghost use Rattle.raid_force.specs.Lasting.{AreClear, are_whole};

use raid_base::{NoMemory, Report};
use raid_check::{Finding, check, legal};
use raid_control::{Controller, Rack};
use raid_full_rack::{Controllers, full_rack};
use raid_workload::Workload;
use std::alloc::Global;
use std::test::Fail;

/// Two programs that write an item each, and a site that stops once both have ended and returns at once.
const WRITES: &str =
    "workload 1\nsites 2 together 2\nitem x 0 at 1 2\nitem y 0 at 2\nopen lock native\nstop 2 after 2\nreturn 2 after 2\nprogram 1\nwrite x 1\nend\nprogram 1\nwrite y 2\nend\ndone\n";

/// A report of it.
const WRITTEN: &str =
    "report 1\n1 begin t1 at s1\n2 begin t2 at s1\n3 commit t2 reads - writes y=2 under 1,1 applied s2\n4 commit t1 reads - writes x=1 under 1,1 applied s1,s2\n5 ack t1 s1\n6 ack t2 s2\n7 down s2\n8 up s2 session 2\n9 clear s2 x at 4\norder t2 t1\nfinal x 1\nfinal y 2\ncopy s1 x 1 4\ncopy s2 x 1 4\ncopy s2 y 2 3\ndone\n";

/// What is replaced in that report, by what, and what is found then.
const FOUND: [(&str, &str, Finding); 14] = [
    ("", "", Finding::Sound),
    // The first entry is looked at.
    ("1 begin t1 at s1", "1 begin t1 at s2", Finding::Legal(1)),
    ("1 begin t1 at s1", "1 begin t2 at s1", Finding::Legal(1)),
    // No stop is due before both have ended, and none for another site.
    ("2 begin t2 at s1", "2 down s2", Finding::Legal(2)),
    ("7 down s2", "7 down s1", Finding::Legal(7)),
    // A copy that isn't locked is not cleared.
    ("9 clear s2 x at 4", "9 clear s1 x at 4", Finding::Legal(9)),
    ("9 clear s2 x at 4", "9 clear s2 y at 3", Finding::Legal(9)),
    ("9 clear s2 x at 4", "9 clear s2 x at 3", Finding::Legal(9)),
    // Nothing leads from the one to the other, and yet the order is one alone.
    ("order t2 t1", "order t1 t2", Finding::Serial),
    ("final y 2", "final y 0", Finding::Serial),
    ("copy s2 y 2 3", "copy s2 y 2 4", Finding::Copies),
    ("copy s2 x 1 4", "copy s2 x 0 0", Finding::Copies),
    // A copy is still to be renewed.
    ("9 clear s2 x at 4\n", "", Finding::Finished),
    // It makes no difference who is done first.
    (
        "5 ack t1 s1\n6 ack t2 s2",
        "5 ack t2 s2\n6 ack t1 s1",
        Finding::Sound,
    ),
];

/// More bytes than a text here has.
const MOST: usize = 1000;

/// A rack with controllers of every kind.
fn rack(alloc: Global) -> Result<Rack, NoMemory>
    ensures whole { IfOk result (λ rack. are_whole ⟦<dyn Controller as Controller>⟧ rack.slots.items ≡ true) }
    ensures clear { IfOk result (λ rack. AreClear ⟦<dyn Controller as Controller>⟧ rack.slots.items) }
{
    let made = Controllers::new(alloc)?;
    full_rack(
        alloc,
        made.lock,
        made.stamp,
        made.valid,
        made.graph,
        made.first,
        made.second,
    )
}

/// The workload, and the report with the one text in place of the other.
fn texts(alloc: Global, old: &str, new: &str) -> Result<(Workload, Report), Fail> {
    let text = WRITTEN.replacen(alloc, old, new, 1)?;
    if WRITES.len() > MOST || text.len() > MOST {
        return Err(NoMemory)?;
    }
    let workload = raid_text::parse(alloc, WRITES.as_bytes())?;
    let report = raid_report::parse(alloc, &workload, text.as_bytes())?;
    Ok((workload, report))
}

#[test]
fn each_change_has_its_finding(rt: HostRuntime) -> Result<(), Fail> {
    for (old, new, finding) in FOUND {
        let (workload, report) = texts(rt.alloc(), old, new)?;
        let found = check(rt.alloc(), &workload, &report, rack(rt.alloc())?)?;
        assert_eq!(rt; found, finding, "{new}");
    }
    Ok(())
}

#[test]
fn legal_is_asked_of_the_entries_alone(rt: HostRuntime) -> Result<(), Fail> {
    for (old, new, finding) in FOUND {
        let (workload, report) = texts(rt.alloc(), old, new)?;
        let first = legal(rt.alloc(), &workload, &report.entries, rack(rt.alloc())?)?;
        let wanted = match finding {
            Finding::Legal(number) => Some(number),
            _ => None,
        };
        assert_eq!(rt; first, wanted, "{new}");
    }
    Ok(())
}
