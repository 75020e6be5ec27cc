//! Tests of the conflict graph, and of the controllers that judge by one, on entries worked out by hand. Each call that can refuse memory
//! succeeds where there is some.
#![tactic(auto)]

pub mod told;

#[cfg(test)]
mod tests {
    use crate::told::{
        Asks, Does, Listing, live_after_each, order_after, reach_after, says, says_generic,
    };
    use raid_base::{Refusal, Verdict};
    use std::test::Fail;

    const X: u16 = 0;

    const Y: u16 = 1;

    const Z: u16 = 2;

    const CYCLE: Verdict = Verdict::Reject(Refusal::Cycle);

    /// The second transaction writes what the first has read, commits before it, and comes after it.
    const OVERWRITTEN: [Does; 5] = [
        Does::Begins(1),
        Does::Begins(2),
        Does::Reads(1, X),
        Does::Commits(2, &[X]),
        Does::Commits(1, &[Y]),
    ];

    /// Each of two has read what the other wants to write.
    const CROSSED: [Does; 4] = [
        Does::Begins(1),
        Does::Begins(2),
        Does::Reads(1, X),
        Does::Reads(2, Y),
    ];

    #[test]
    fn who_runs_is_live_and_whom_it_reaches(rt: HostRuntime) -> Result<(), Fail> {
        let live = live_after_each(rt.alloc(), &OVERWRITTEN)?;
        assert_eq!(rt; live.as_slice(), [1, 2, 2, 2, 0].as_slice());
        Ok(())
    }

    #[test]
    fn an_abort_settles_whom_it_reached(rt: HostRuntime) -> Result<(), Fail> {
        let done = [
            Does::Begins(1),
            Does::Begins(2),
            Does::Reads(1, X),
            Does::Commits(2, &[X]),
            Does::IsAborted(1),
        ];
        let live = live_after_each(rt.alloc(), &done)?;
        assert_eq!(rt; live.as_slice(), [1, 2, 2, 2, 0].as_slice());
        Ok(())
    }

    #[test]
    fn the_order_is_not_that_of_the_commits(rt: HostRuntime) -> Result<(), Fail> {
        let order = order_after(rt.alloc(), &OVERWRITTEN)?;
        assert_eq!(rt; order.listing, Listing::Whole);
        assert_eq!(rt; order.txns.as_slice(), [1, 2].as_slice());
        Ok(())
    }

    #[test]
    fn two_that_read_what_the_other_wrote_are_a_cycle(rt: HostRuntime) -> Result<(), Fail> {
        let done = [
            Does::Begins(1),
            Does::Begins(2),
            Does::Begins(3),
            Does::Reads(1, X),
            Does::Reads(2, Y),
            Does::Commits(3, &[Z]),
            Does::Commits(1, &[Y]),
            Does::Commits(2, &[X]),
        ];
        let order = order_after(rt.alloc(), &done)?;
        assert_eq!(rt; order.listing, Listing::Cyclic);
        assert_eq!(rt; order.txns.len(), 2);
        assert!(rt; order.txns.contains(&1) && order.txns.contains(&2));
        Ok(())
    }

    #[test]
    fn a_new_transaction_reaches_an_old_one_once_that_has_overwritten_what_it_read(
        rt: HostRuntime,
    ) -> Result<(), Fail> {
        let done = [
            Does::Begins(1),
            Does::Begins(2),
            Does::Commits(2, &[Z]),
            Does::Begins(3),
            Does::Reads(3, X),
            Does::Commits(1, &[X]),
        ];
        let before = reach_after(rt.alloc(), &done[..5], 3, 4)?;
        let after = reach_after(rt.alloc(), &done, 3, 4)?;
        let further = reach_after(rt.alloc(), &done, 3, 1)?;
        assert_eq!(rt; (before, after, further), (false, true, false));
        Ok(())
    }

    #[test]
    fn the_action_that_closes_a_cycle_is_refused(rt: HostRuntime) -> Result<(), Fail> {
        let done = [
            Does::Begins(1),
            Does::Begins(2),
            Does::Reads(1, X),
            Does::Reads(2, Y),
            Does::Commits(1, &[Y]),
        ];
        let first = Asks::ToCommit(1, &[Y]);
        let second = Asks::ToCommit(2, &[X]);
        assert_eq!(rt; says(rt.alloc(), &CROSSED, first)?, Verdict::Grant);
        assert_eq!(rt; says(rt.alloc(), &done, second)?, CYCLE);
        assert_eq!(rt; says_generic(rt.alloc(), &CROSSED, first)?, Verdict::Grant);
        assert_eq!(rt; says_generic(rt.alloc(), &done, second)?, CYCLE);
        Ok(())
    }

    #[test]
    fn an_overwritten_read_alone_closes_no_cycle(rt: HostRuntime) -> Result<(), Fail> {
        let asked = Asks::ToCommit(1, &[Y]);
        assert_eq!(rt; says(rt.alloc(), &OVERWRITTEN[..4], asked)?, Verdict::Grant);
        assert_eq!(rt;
            says_generic(rt.alloc(), &OVERWRITTEN[..4], asked)?,
            Verdict::Grant
        );
        Ok(())
    }

    #[test]
    fn who_stands_on_a_cycle_is_refused_whatever_it_asks(rt: HostRuntime) -> Result<(), Fail> {
        let done = [
            Does::Begins(1),
            Does::Begins(2),
            Does::Begins(3),
            Does::Reads(1, X),
            Does::Commits(2, &[X, Y]),
            Does::Reads(1, Y),
            Does::Commits(3, &[Z]),
            Does::Begins(4),
        ];
        let reads = Asks::ToRead(4, Z);
        let commits = Asks::ToCommit(1, &[]);
        assert_eq!(rt; says_generic(rt.alloc(), &done, reads)?, Verdict::Grant);
        assert_eq!(rt; says_generic(rt.alloc(), &done, commits)?, CYCLE);
        assert_eq!(rt; says(rt.alloc(), &done, commits)?, CYCLE);
        Ok(())
    }
}
