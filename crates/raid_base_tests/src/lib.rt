//! Tests of the base types: what their contracts say, at values worked out by hand, and that calls which
//! can refuse memory succeed where there is some.
#![tactic(auto)]

#[cfg(test)]
mod tests {
    use raid_base::{
        Duplicate, Item, Pairs, Refusal, Site, Sites, Txn, Vector, Verdict, attempt_of, find, meet,
        program_of,
    };
    use std::test::Fail;

    #[test]
    fn verdicts_meet(rt: HostRuntime) {
        let late = Verdict::Reject(Refusal::Late);
        let invalid = Verdict::Reject(Refusal::Invalid);
        for (a, b, met) in [
            (Verdict::Wait, late, late),
            (late, invalid, late),
            (invalid, late, invalid),
            (Verdict::Grant, Verdict::Wait, Verdict::Wait),
            (Verdict::Wait, Verdict::Grant, Verdict::Wait),
            (Verdict::Grant, late, late),
            (Verdict::Grant, Verdict::Grant, Verdict::Grant),
        ] {
            assert_eq!(rt; meet(a, b), met);
        }
    }

    #[test]
    fn the_first_pair_of_an_item_counts(rt: HostRuntime) -> Result<(), Fail> {
        let mut pairs = Pairs::new(rt.alloc());
        pairs.push((Item(3), 7))?;
        pairs.push((Item(5), -1))?;
        pairs.push((Item(3), 8))?;
        let copied = pairs.copy(rt.alloc())?;
        assert_eq!(rt; find(&copied, Item(3)), Some(7));
        assert_eq!(rt; find(&copied, Item(5)), Some(-1));
        assert_eq!(rt; find(&copied, Item(4)), None);
        Ok(())
    }

    #[test]
    fn attempts_share_a_program(rt: HostRuntime) {
        // Three programs: transaction 5 is the second attempt at program 2, and 9 the third at program 3.
        assert_eq!(rt; (program_of(Txn(5), 3), attempt_of(Txn(5), 3)), (2, 1));
        assert_eq!(rt; (program_of(Txn(9), 3), attempt_of(Txn(9), 3)), (3, 2));
        assert_eq!(rt; (program_of(Txn(1), 3), attempt_of(Txn(1), 3)), (1, 0));
    }

    #[test]
    fn sites_are_bits(rt: HostRuntime) {
        let sites = Sites::none().with(Site(8)).with(Site(1)).with(Site(8));
        assert_eq!(rt; sites, Sites(0b1000_0001));
        assert!(rt; sites.contains(Site(8)) && !sites.contains(Site(2)) && !sites.is_empty());
        let vector = Vector {
            count: 2,
            sessions: [4, 0, 0, 0, 0, 0, 0, 0],
        };
        assert_eq!(rt;
            (
                vector.session(Site(1)),
                vector.session(Site(2)),
                vector.session(Site(3))
            ),
            (4, 0, 0)
        );
    }
}
