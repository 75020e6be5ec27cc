//! Tests of the merge of journals, at values worked out by hand.
#![tactic(auto)]

pub mod merging;

#[cfg(test)]
mod tests {
    use crate::merging::{merged, pick, step};
    use raid_message::Step;
    use std::test::Fail;

    #[test]
    fn steps_are_merged_by_clock(rt: HostRuntime) -> Result<(), Fail> {
        let monitor = [step(1, 1), step(4, 2)];
        let sequencer = [step(2, 0), step(3, 0), step(6, 2)];
        let site = [step(1, 1), step(5, 0), step(6, 0)];
        let journals = [monitor.as_slice(), sequencer.as_slice(), site.as_slice()];
        assert_eq!(rt;
            merged(rt.alloc(), &journals)?.as_slice(),
            [
                pick(0, 1),
                pick(2, 1),
                pick(1, 0),
                pick(1, 0),
                pick(0, 2),
                pick(2, 0),
                pick(1, 2),
                pick(2, 0)
            ]
            .as_slice()
        );
        Ok(())
    }

    #[test]
    fn equal_clocks_are_merged_by_server(rt: HostRuntime) -> Result<(), Fail> {
        let first = [step(7, 2)];
        let second = [step(7, 1)];
        let third = [step(7, 0)];
        let journals = [first.as_slice(), second.as_slice(), third.as_slice()];
        assert_eq!(rt;
            merged(rt.alloc(), &journals)?.as_slice(),
            [pick(0, 2), pick(1, 1), pick(2, 0)].as_slice()
        );
        Ok(())
    }

    #[test]
    fn servers_without_steps_add_none(rt: HostRuntime) -> Result<(), Fail> {
        let none: [Step; 0] = [];
        let one = [step(9, 0)];
        assert_eq!(rt; merged(rt.alloc(), &[])?.as_slice(), [].as_slice());
        assert_eq!(rt;
            merged(rt.alloc(), &[none.as_slice(), none.as_slice()])?.as_slice(),
            [].as_slice()
        );
        assert_eq!(rt;
            merged(
                rt.alloc(),
                &[none.as_slice(), one.as_slice(), none.as_slice()]
            )?
            .as_slice(),
            [pick(1, 0)].as_slice()
        );
        Ok(())
    }

    #[test]
    fn the_greatest_clocks_are_in_order(rt: HostRuntime) -> Result<(), Fail> {
        let first = [step(u64::MAX, 1)];
        let second = [step(u64::MAX - 1, 0), step(u64::MAX, 65_535)];
        assert_eq!(rt;
            merged(rt.alloc(), &[first.as_slice(), second.as_slice()])?.as_slice(),
            [pick(1, 0), pick(0, 1), pick(1, 65_535)].as_slice()
        );
        Ok(())
    }

    #[test]
    fn clocks_that_do_not_rise_are_found(rt: HostRuntime) -> Result<(), Fail> {
        let rising = [step(1, 0), step(2, 0), step(4, 1)];
        let standing = [step(1, 0), step(3, 0), step(3, 1)];
        let falling = [step(2, 0), step(1, 0)];
        assert!(rt; merged(rt.alloc(), &[rising.as_slice()]).is_ok());
        assert!(rt; merged(rt.alloc(), &[rising.as_slice(), standing.as_slice()]).is_err());
        assert!(rt; merged(rt.alloc(), &[falling.as_slice()]).is_err());
        Ok(())
    }
}
