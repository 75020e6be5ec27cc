use crate::{link, settle};
use raid_message::{Letter, Message};
use std::test::Fail;

/// A letter that can be told from others by its clock.
fn letter(clock: u64) -> Letter {
    Letter {
        clock,
        from: 0,
        to: 0,
        message: Message::Hello,
    }
}

#[test]
fn one_place_gives_one_letter_after_each_settling(rt: HostRuntime) -> Result<(), Fail> {
    let (mut sender, mut receiver) = link(rt.alloc(), 1)?;
    for clock in 1..4u64 {
        sender.send(letter(clock))?;
    }
    for clock in 1..4u64 {
        assert!(rt; settle(&mut sender, &mut receiver));
        let taken = receiver.take();
        assert!(rt; taken.is_some_and(|letter| letter.clock == clock));
        assert!(rt; receiver.take().is_none());
    }
    assert!(rt; !settle(&mut sender, &mut receiver));
    Ok(())
}
