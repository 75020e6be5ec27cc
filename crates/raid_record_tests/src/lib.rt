//! Tests of the sequencer's record, entry by entry, with calls that can refuse memory succeeding where there is some. The letters are
//! those that the reading of the papers in another language sends.
#![tactic(auto)]

pub mod desk;

#[cfg(test)]
mod tests {
    use crate::desk::{Said, Sent, Step, X, after_first, beginners, sent_after};
    use raid_base::Sites;
    use std::test::Fail;

    const STEPS: [Step; 8] = [
        Step::Begin(1),
        Step::Read(1, 1, 2),
        Step::Down(3),
        Step::Commit(1, Sites(3)),
        Step::Begin(2),
        Step::Abort(2),
        Step::Up(3, 2),
        Step::Down(1),
    ];

    #[test]
    fn a_read_tells_its_site_and_its_home(rt: HostRuntime) -> Result<(), Fail> {
        let all = sent_after(rt.alloc(), &STEPS[..2], 0)?;
        assert_eq!(rt;
            all.as_slice(),
            [
                Sent(3, 1, Said::ReadDo(1, 1, 1, 1)),
                Sent(2, 1, Said::Serving(1, 1, 2))
            ]
            .as_slice()
        );
        Ok(())
    }

    #[test]
    fn a_commit_past_a_stop_tells_those_that_apply_it(rt: HostRuntime) -> Result<(), Fail> {
        let all = sent_after(rt.alloc(), &STEPS[..4], 2)?;
        assert_eq!(rt;
            all.as_slice(),
            [
                Sent(2, 1, Said::Down(3)),
                Sent(3, 1, Said::Down(3)),
                Sent(2, 1, Said::Apply(1, 4)),
                Sent(2, 1, Said::Done(1)),
                Sent(3, 1, Said::Apply(1, 4)),
                Sent(0, 0, Said::Ends(1))
            ]
            .as_slice()
        );
        Ok(())
    }

    #[test]
    fn a_return_is_welcomed_and_its_copies_are_asked_for(rt: HostRuntime) -> Result<(), Fail> {
        let all = sent_after(rt.alloc(), &STEPS, 8)?;
        assert_eq!(rt;
            all.as_slice(),
            [
                Sent(2, 1, Said::Drop(2, true)),
                Sent(3, 1, Said::Drop(2, true)),
                Sent(0, 0, Said::Ends(2)),
                Sent(4, 2, Said::Welcome(1, 1, 2, 0)),
                Sent(2, 1, Said::Up(3, 2)),
                Sent(3, 1, Said::Up(3, 2)),
                Sent(2, 1, Said::Copy(X, 3, 2)),
                Sent(3, 1, Said::Down(1)),
                Sent(4, 2, Said::Down(1)),
                Sent(3, 1, Said::Copy(X, 3, 2))
            ]
            .as_slice()
        );
        Ok(())
    }

    #[test]
    fn a_copy_that_did_not_help_is_asked_for_again(rt: HostRuntime) -> Result<(), Fail> {
        let steps = [
            Step::Begin(1),
            Step::Down(3),
            Step::Commit(1, Sites(3)),
            Step::Up(3, 2),
            Step::Close(3),
        ];
        let all = sent_after(rt.alloc(), &steps, 9)?;
        assert_eq!(rt;
            all.as_slice(),
            [
                Sent(2, 1, Said::Copy(X, 3, 2)),
                Sent(2, 1, Said::Copy(X, 3, 2))
            ]
            .as_slice()
        );
        Ok(())
    }

    #[test]
    fn the_next_of_each_home_and_new_attempts_may_begin(rt: HostRuntime) -> Result<(), Fail> {
        assert_eq!(rt; beginners(rt.alloc(), &[])?.as_slice(), [1, 2].as_slice());
        assert_eq!(rt;
            beginners(rt.alloc(), &STEPS[..6])?.as_slice(),
            [3, 5].as_slice()
        );
        assert_eq!(rt; beginners(rt.alloc(), &STEPS)?.as_slice(), [5].as_slice());
        Ok(())
    }

    #[test]
    fn the_first_transaction_is_placed(rt: HostRuntime) -> Result<(), Fail> {
        assert_eq!(rt; after_first(rt.alloc())?, (1, 0));
        Ok(())
    }
}
