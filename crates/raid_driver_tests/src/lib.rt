//! Tests of the programs that run at a site, at a workload worked out by hand, with calls that can refuse memory
//! succeeding where there is some.
#![tactic(auto)]

pub mod home;

#[cfg(test)]
mod tests {
    use crate::home::{Call, Sent, X, Y, all_sent, is_done, runs};
    use raid_base::{Cause, Txn};
    use std::test::Fail;

    #[test]
    fn programs_begin_until_as_many_run_as_may(rt: HostRuntime) -> Result<(), Fail> {
        let calls = [Call::Start, Call::Start];
        let all = all_sent(rt.alloc(), &calls)?;
        assert_eq!(rt;
            all.as_slice(),
            [Sent::Begin(1), Sent::Ask(1, 1, X), Sent::Begin(3)].as_slice()
        );
        assert!(rt; runs(rt.alloc(), &calls, &[Txn(1), Txn(3)], &[Txn(3)])?);
        Ok(())
    }

    #[test]
    fn another_begins_where_one_has_ended(rt: HostRuntime) -> Result<(), Fail> {
        let calls = [Call::Reset(3), Call::Start, Call::Ended(4), Call::Start];
        let all = all_sent(rt.alloc(), &calls)?;
        assert_eq!(rt;
            all.as_slice(),
            [
                Sent::Begin(3),
                Sent::Begin(4),
                Sent::Ask(4, 1, Y),
                Sent::Begin(5),
                Sent::Ask(5, 1, X)
            ]
            .as_slice()
        );
        assert!(rt; runs(rt.alloc(), &calls, &[Txn(3), Txn(5)], &[Txn(3)])?);
        Ok(())
    }

    #[test]
    fn a_program_that_reads_its_own_write_asks_nothing(rt: HostRuntime) -> Result<(), Fail> {
        let calls = [Call::Reset(3), Call::BeginNext];
        let all = all_sent(rt.alloc(), &calls)?;
        assert_eq!(rt; all.as_slice(), [Sent::Begin(3)].as_slice());
        assert!(rt; is_done(rt.alloc(), &calls, Txn(3), &[], &[(X, 3)])?);
        Ok(())
    }

    #[test]
    fn a_value_for_another_ask_is_nothing(rt: HostRuntime) -> Result<(), Fail> {
        let early = [Call::Start, Call::Value(1, 2, 5), Call::Value(4, 1, 5)];
        assert!(rt; runs(rt.alloc(), &early, &[Txn(1), Txn(3)], &[Txn(3)])?);
        let late = [Call::Start, Call::Value(1, 1, 5), Call::Value(1, 1, 8)];
        assert!(rt; runs(rt.alloc(), &late, &[Txn(1), Txn(3)], &[Txn(1), Txn(3)])?);
        assert!(rt; is_done(rt.alloc(), &late, Txn(1), &[(X, 5)], &[(Y, 6)])?);
        Ok(())
    }

    #[test]
    fn a_lost_read_is_asked_again_under_the_next_number(rt: HostRuntime) -> Result<(), Fail> {
        let calls = [
            Call::BeginNext,
            Call::Serving(1, 1, 2),
            Call::Down(1),
            Call::Down(2),
            Call::Serving(1, 1, 2),
            Call::Down(2),
        ];
        let all = all_sent(rt.alloc(), &calls)?;
        assert_eq!(rt;
            all.as_slice(),
            [Sent::Begin(1), Sent::Ask(1, 1, X), Sent::Ask(1, 2, X)].as_slice()
        );
        Ok(())
    }

    #[test]
    fn a_program_that_ends_by_itself_tells_what_it_read(rt: HostRuntime) -> Result<(), Fail> {
        let own = [Call::Reset(4), Call::BeginNext, Call::Value(4, 1, 7)];
        let all = all_sent(rt.alloc(), &own)?;
        assert_eq!(rt;
            all.as_slice(),
            [
                Sent::Begin(4),
                Sent::Ask(4, 1, Y),
                Sent::End(4, Cause::Own, Y, 7)
            ]
            .as_slice()
        );
        let over = [Call::Reset(5), Call::BeginNext, Call::Value(5, 1, 5)];
        let all = all_sent(rt.alloc(), &over)?;
        assert_eq!(rt;
            all.as_slice(),
            [
                Sent::Begin(5),
                Sent::Ask(5, 1, X),
                Sent::End(5, Cause::Overflow, X, 5)
            ]
            .as_slice()
        );
        assert!(rt; runs(rt.alloc(), &over, &[Txn(5)], &[])?);
        Ok(())
    }

    #[test]
    fn a_reset_driver_begins_at_the_next_transaction(rt: HostRuntime) -> Result<(), Fail> {
        let calls = [Call::Start, Call::Reset(5), Call::Start];
        assert!(rt; runs(rt.alloc(), &calls, &[Txn(5)], &[])?);
        let none = [Call::Start, Call::Reset(0), Call::Start, Call::BeginNext];
        assert!(rt; runs(rt.alloc(), &none, &[], &[])?);
        Ok(())
    }

    #[test]
    fn another_attempt_begins_anew(rt: HostRuntime) -> Result<(), Fail> {
        let calls = [Call::BeginNext, Call::Again(1)];
        let all = all_sent(rt.alloc(), &calls)?;
        assert_eq!(rt;
            all.as_slice(),
            [
                Sent::Begin(1),
                Sent::Ask(1, 1, X),
                Sent::Begin(6),
                Sent::Ask(6, 1, X)
            ]
            .as_slice()
        );
        assert!(rt; runs(rt.alloc(), &calls, &[Txn(6)], &[])?);
        Ok(())
    }
}
