//! Tests of the advice: reports worked out by hand, the switch that each speaks for, and the workload with it.
#![tactic(auto)]

#[cfg(test)]
mod tests {
    use raid_advise::{Advice, advise, may_be_added, with};
    use raid_base::{Bytes, Kind, Method};
    use raid_workload::Workload;
    use std::alloc::Global;

    /// Reads an item that is 100, and adds 5 to it.
    const ADDS: &str =
        "workload 1\nsites 1 together 1\nitem a 100 at 1\nopen lock native\nprogram 1\nread a r0\nwrite a r0 + 5\nend\ndone\n";

    /// What is reported of it.
    const ADDED: &str =
        "report 1\n1 begin t1 at s1\n2 read t1 a at s1\n3 commit t1 reads a=100 writes a=105 under 1 applied s1\n4 ack t1 s1\norder t1\nfinal a 105\ncopy s1 a 105 3\ndone\n";

    /// Two transactions that each read x and write it.
    const BOTH: &str =
        "workload 1\nsites 1 together 3\nitem x 0 at 1\nitem y 0 at 1\nitem z 0 at 1\nopen lock native\nprogram 1\nread x r0\nwrite x 1\nend\nprogram 1\nread x r0\nwrite x 2\nend\ndone\n";

    /// The first waits, the second would close a cycle of waits.
    const HELD_UP: &str =
        "report 1\n1 begin t1 at s1\n2 begin t2 at s1\n3 read t1 x at s1\n4 read t2 x at s1\n5 wait t1 reads x=0 writes x=1 under 1\n6 abort t2 deadlock commit reads x=0 writes x=2 under 1\n7 commit t1 reads x=0 writes x=1 under 1 applied s1\norder t1\nfinal x 1\nfinal y 0\nfinal z 0\ncopy s1 x 1 7\ncopy s1 y 0 0\ncopy s1 z 0 0\ndone\n";

    /// The workload that a text says; None where it is refused.
    fn workload(alloc: Global, text: &str) -> Option<Workload> {
        if text.len() > 1000 {
            return None;
        }
        raid_text::parse(alloc, text.as_bytes()).ok()
    }

    /// The advice on a workload after what a report says; None where a text is refused.
    fn advice(alloc: Global, text: &str, report: &str, last: u32) -> Option<Advice> {
        if report.len() > 1000 {
            return None;
        }
        let workload = workload(alloc, text)?;
        let report = raid_report::parse(alloc, &workload, report.as_bytes()).ok()?;
        if report.entries.len() > 1000 {
            return None;
        }
        advise(alloc, &workload, &report.entries, last).ok()
    }

    /// The text of the workload with one switch more; None where it may not be added.
    fn text_with(
        alloc: Global,
        text: &str,
        kind: Kind,
        method: Method,
        after: u32,
    ) -> Option<Bytes> {
        let workload = workload(alloc, text)?;
        if !may_be_added(&workload, kind, method, after) {
            return None;
        }
        let more = with(alloc, &workload, kind, method, after).ok()?;
        raid_text::print(alloc, &more).ok()
    }

    #[test]
    fn locks_that_hold_nobody_up_give_way_to_validation(rt: HostRuntime) {
        assert!(rt;
            advice(rt.alloc(), ADDS, ADDED, 5)
                == Some(Advice::Switch {
                    kind: Kind::Valid,
                    method: Method::Suffix,
                    after: 1
                })
        );
    }

    #[test]
    fn nothing_is_advised_where_nothing_ran(rt: HostRuntime) {
        let idle = "workload 1\nsites 1 together 1\nitem a 7 at 1\nopen lock native\ndone\n";
        let told = "report 1\norder -\nfinal a 7\ncopy s1 a 7 0\ndone\n";
        assert!(rt; advice(rt.alloc(), idle, told, 5) == Some(Advice::Keep));
    }

    #[test]
    fn only_the_last_ends_count(rt: HostRuntime) {
        assert!(rt;
            advice(rt.alloc(), BOTH, HELD_UP, 2)
                == Some(Advice::Switch {
                    kind: Kind::Stamp,
                    method: Method::Suffix,
                    after: 2
                })
        );
        assert!(rt;
            advice(rt.alloc(), BOTH, HELD_UP, 1)
                == Some(Advice::Switch {
                    kind: Kind::Valid,
                    method: Method::Suffix,
                    after: 2
                })
        );
    }

    #[test]
    fn the_switch_stands_behind_the_opening(rt: HostRuntime) {
        let more =
            "workload 1\nsites 1 together 1\nitem a 100 at 1\nopen lock native\nswitch valid by suffix after 1\nprogram 1\nread a r0\nwrite a r0 + 5\nend\ndone\n";
        match text_with(rt.alloc(), ADDS, Kind::Valid, Method::Suffix, 1) {
            Some(text) => assert!(rt; text.as_slice() == more.as_bytes()),
            None => assert!(rt; false),
        }
    }

    #[test]
    fn a_switch_to_the_kind_in_force_may_not_be_added(rt: HostRuntime) {
        for (kind, method, after) in [
            (Kind::Lock, Method::Suffix, 1u32),
            (Kind::Valid, Method::Generic, 1),
            (Kind::Valid, Method::Suffix, 0),
            (Kind::Valid, Method::Suffix, 2001),
        ] {
            assert!(rt; text_with(rt.alloc(), ADDS, kind, method, after).is_none());
        }
    }
}
