use crate::play::{numbers, play};
use raid_base::{Bytes, Kind, NoMemory, Structure};
use raid_control::Controller;
use raid_generic::GenericControl;
use raid_lock::LockControl;
use raid_stamp::StampControl;
use raid_valid::ValidControl;
use std::alloc::{AllocGlobal, Global};
use std::process::Abort;

fn locks_say<R: Abort + AllocGlobal>(rt: &R, text: &str, says: &[u8]) -> Result<(), NoMemory> {
    let mut control = LockControl::new(rt.alloc(), 0, 0)?;
    let said = play(rt.alloc(), &mut control, 0, text)?;
    assert_eq!(rt; said.as_slice(), says);
    Ok(())
}

fn stamps_say<R: Abort + AllocGlobal>(rt: &R, text: &str, says: &[u8]) -> Result<(), NoMemory> {
    let mut control = StampControl::new(rt.alloc(), 0, 0)?;
    let said = play(rt.alloc(), &mut control, 0, text)?;
    assert_eq!(rt; said.as_slice(), says);
    Ok(())
}

fn validation_says<R: Abort + AllocGlobal>(
    rt: &R,
    text: &str,
    says: &[u8],
) -> Result<(), NoMemory> {
    let mut control = ValidControl::new(rt.alloc(), 0, 0)?;
    let said = play(rt.alloc(), &mut control, 0, text)?;
    assert_eq!(rt; said.as_slice(), says);
    Ok(())
}

fn generic_says<R: Abort + AllocGlobal>(
    rt: &R,
    kind: Kind,
    text: &str,
    says: &[u8],
) -> Result<(), NoMemory> {
    let mut control = GenericControl::new(rt.alloc(), kind, 0, 0)?;
    let said = play(rt.alloc(), &mut control, 0, text)?;
    assert_eq!(rt; said.as_slice(), says);
    Ok(())
}

/// Both have read x, and each keeps the other from writing it: the first waits, and a wait of the second would close a deadlock.
const LOCKS: &str = "b1 b2 ?r1x r1x ?r2x r2x ?c1x /21x ?c2x /12x /22x /21y a2 ?c1x /21x c1x <1";

const LOCKS_SAY: &[u8] = b"ggwywynngnn";

/// The first has read x before the second wrote it, which the order of the Begins allows; it is backward, and blocks none.
const STAMPS: &str = "b1 b2 ?r1x r1x ?c2x c2x ?c1y /12x <1 c1y";

const STAMPS_SAY: &[u8] = b"gggny";

/// The same is invalid, and was not yet before the write.
const VALIDATES: &str = "b1 b2 ?r1x r1x <1 ?c1y ?c2x c2x <1 ?c1y /12x";

const VALIDATES_SAY: &[u8] = b"gnggyin";

/// The second has overwritten what the first had read, and the third still runs and has read z.
const KINDS: &str =
    "b1 b2 b3 r3z r1x c2x =l ?c1y ?c1z ?c1x =s ?c1y ?c1z ?c1x =v ?c1y ?c1z ?c1x =g ?c1y ?c1z ?c1x";

#[test]
fn a_commit_waits_for_running_readers(rt: HostRuntime) -> Result<(), NoMemory> {
    locks_say(&rt, LOCKS, LOCKS_SAY)
}

#[test]
fn a_generic_commit_waits_for_running_readers(rt: HostRuntime) -> Result<(), NoMemory> {
    generic_says(&rt, Kind::Lock, LOCKS, LOCKS_SAY)
}

#[test]
fn a_read_before_the_write_is_in_time(rt: HostRuntime) -> Result<(), NoMemory> {
    stamps_say(&rt, STAMPS, STAMPS_SAY)
}

#[test]
fn a_generic_read_before_the_write_is_in_time(rt: HostRuntime) -> Result<(), NoMemory> {
    generic_says(&rt, Kind::Stamp, STAMPS, STAMPS_SAY)
}

#[test]
fn a_read_after_a_later_write_is_late(rt: HostRuntime) -> Result<(), NoMemory> {
    stamps_say(&rt, "b1 b2 ?c2x c2x ?r1x ?r2x", b"glg".as_slice())
}

#[test]
fn the_stamp_of_an_aborted_reader_stays(rt: HostRuntime) -> Result<(), NoMemory> {
    stamps_say(&rt, "b1 b2 r2x a2 ?c1x ?c1y", b"lg".as_slice())
}

#[test]
fn a_commit_after_an_overwrite_is_invalid(rt: HostRuntime) -> Result<(), NoMemory> {
    validation_says(&rt, VALIDATES, VALIDATES_SAY)
}

#[test]
fn a_generic_commit_after_an_overwrite_is_invalid(rt: HostRuntime) -> Result<(), NoMemory> {
    generic_says(&rt, Kind::Valid, VALIDATES, VALIDATES_SAY)
}

#[test]
fn a_read_after_the_write_is_invalid_but_not_backward(rt: HostRuntime) -> Result<(), NoMemory> {
    validation_says(&rt, "b1 b2 c2x r1x <1 ?c1y b3 r3x ?c3y", b"nig".as_slice())
}

#[test]
fn a_generic_commit_that_closes_a_cycle_is_refused(rt: HostRuntime) -> Result<(), NoMemory> {
    generic_says(
        &rt,
        Kind::Graph,
        "b1 b2 r1x r2y ?c1y c1y ?c2x ?c2z",
        b"gcg".as_slice(),
    )
}

#[test]
fn each_kind_judges_the_same_view(rt: HostRuntime) -> Result<(), NoMemory> {
    generic_says(&rt, Kind::Valid, KINDS, b"ygwgygllyiiiyggc".as_slice())
}

#[test]
fn a_native_kind_stays(rt: HostRuntime) -> Result<(), NoMemory> {
    locks_say(&rt, "b1 b2 r1x =v ?c2x =l ?c2x", b"nwnw".as_slice())?;
    stamps_say(&rt, "b1 b2 c2x =v ?r1x =s ?r1x", b"nlnl".as_slice())?;
    validation_says(&rt, "b1 b2 r1x c2x =l ?c1y =v ?c1y", b"nini".as_slice())
}

#[test]
fn kind_and_structure_are_told(rt: HostRuntime) -> Result<(), NoMemory> {
    let native = LockControl::new(rt.alloc(), 0, 0)?;
    assert_eq!(rt;
        (native.kind(), native.structure()),
        (Kind::Lock, Structure::Native)
    );
    let generic = GenericControl::new(rt.alloc(), Kind::Valid, 0, 0)?;
    assert_eq!(rt;
        (generic.kind(), generic.structure()),
        (Kind::Valid, Structure::GenericState)
    );
    Ok(())
}

#[test]
fn reads_are_kept_until_their_transaction_ends(rt: HostRuntime) -> Result<(), NoMemory> {
    let mut control = GenericControl::new(rt.alloc(), Kind::Stamp, 0, 0)?;
    play(rt.alloc(), &mut control, 0, "b1 b2 r1x c2x")?;
    assert_eq!(rt; control.kept(), 1);
    play(rt.alloc(), &mut control, 4, "c1y")?;
    assert_eq!(rt; control.kept(), 0);
    Ok(())
}

/// Plays a view, hands what is running in it to another controller, and answers the numbers that this one would carry.
fn hand_over<A: Controller, B: Controller>(
    alloc: Global,
    control: &mut A,
    next: &mut B,
) -> Result<Vec<u32>, NoMemory> {
    play(alloc, control, 0, "b1 b2 r1x r2y a2 r1z")?;
    let carry = control.carry(alloc)?;
    next.load(&carry)?;
    let again = next.carry(alloc)?;
    numbers(alloc, &again)
}

#[test]
fn the_next_controller_starts_with_what_runs(rt: HostRuntime) -> Result<(), NoMemory> {
    let mut control = LockControl::new(rt.alloc(), 0, 0)?;
    let mut next = ValidControl::new(rt.alloc(), 0, 0)?;
    let carried = hand_over(rt.alloc(), &mut control, &mut next)?;
    assert_eq!(rt; carried.as_slice(), [1, 3, 6].as_slice());
    let said = play(rt.alloc(), &mut next, 6, "<1 b3 c3x <1")?;
    assert_eq!(rt; said.as_slice(), b"ny".as_slice());
    Ok(())
}

#[test]
fn a_controller_by_stamps_starts_with_what_runs(rt: HostRuntime) -> Result<(), NoMemory> {
    let mut control = ValidControl::new(rt.alloc(), 0, 0)?;
    let mut next = StampControl::new(rt.alloc(), 0, 0)?;
    let carried = hand_over(rt.alloc(), &mut control, &mut next)?;
    assert_eq!(rt; carried.as_slice(), [1, 3, 6].as_slice());
    Ok(())
}

#[test]
fn a_controller_by_locks_starts_with_what_runs(rt: HostRuntime) -> Result<(), NoMemory> {
    let mut control = GenericControl::new(rt.alloc(), Kind::Valid, 0, 0)?;
    let mut next = LockControl::new(rt.alloc(), 0, 0)?;
    let carried = hand_over(rt.alloc(), &mut control, &mut next)?;
    assert_eq!(rt; carried.as_slice(), [1, 3, 6].as_slice());
    let said = play(rt.alloc(), &mut next, 6, "b3 ?c3x ?c3y /13z")?;
    assert_eq!(rt; said.as_slice(), b"wgy".as_slice());
    Ok(())
}

#[test]
fn a_generic_controller_starts_with_what_runs(rt: HostRuntime) -> Result<(), NoMemory> {
    let mut control = StampControl::new(rt.alloc(), 0, 0)?;
    let mut next = GenericControl::new(rt.alloc(), Kind::Lock, 0, 0)?;
    let carried = hand_over(rt.alloc(), &mut control, &mut next)?;
    assert_eq!(rt; carried.as_slice(), [1, 3, 6].as_slice());
    assert_eq!(rt; next.kept(), 2);
    let said = play(rt.alloc(), &mut next, 6, "b3 ?c3x ?c3y /13z")?;
    assert_eq!(rt; said.as_slice(), b"wgy".as_slice());
    Ok(())
}

/// What is said of a view after the controller had another and was cleared.
fn said_after_clear<C: Controller>(alloc: Global, control: &mut C) -> Result<Bytes, NoMemory> {
    play(alloc, control, 0, "b1 b2 r1x r2x a2 r1y b3 c3x")?;
    control.clear();
    play(alloc, control, 0, "b1 b2 ?c2x ?r1x r1z ?c1z <1 /12x")
}

#[test]
fn cleared_controllers_are_as_new(rt: HostRuntime) -> Result<(), NoMemory> {
    let mut locks = LockControl::new(rt.alloc(), 0, 0)?;
    let said = said_after_clear(rt.alloc(), &mut locks)?;
    assert_eq!(rt; said.as_slice(), b"gggnn".as_slice());
    let mut generic = GenericControl::new(rt.alloc(), Kind::Stamp, 0, 0)?;
    let said = said_after_clear(rt.alloc(), &mut generic)?;
    assert_eq!(rt; said.as_slice(), b"gggnn".as_slice());
    assert_eq!(rt; generic.kept(), 1);
    Ok(())
}
