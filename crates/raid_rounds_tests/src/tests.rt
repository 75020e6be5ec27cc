ghost use Rattle.std.specs.Prelude.{◌+◌, ◌*◌, ◌≤◌, All, IsTrue};

use crate::{Relay, Ring, ring_of_three};
use raid_link::{Gate, Open};
use raid_rounds::{Rounds, run_rounds};
use std::hint;
use std::sync::atomic::{AtomicU64, Ordering};
use std::test::Fail;

/// The plan of every test.
const PLAN: Ring = Ring {
    members: 3,
    turn: 64,
};

/// The plan of long turns.
const LONG: Ring = Ring {
    members: 3,
    turn: 1_000_000,
};

/// A letter with so many hops is taken one time more, by one relay after the other: that of 200 is taken by each 67 times,
/// that of 100 by the relays 2, 0 and 1 in turn, and the last by relay 0.
#[test]
fn rounds_end_idle_when_no_letter_is_left(rt: HostRuntime) -> Result<(), Fail> {
    let mut members = ring_of_three(rt.alloc(), 4, [200, 100, 0])?;
    let end = run_rounds(&rt, rt.alloc(), &mut members, &PLAN, &Open, 1000)?;
    assert_eq!(rt; end, Rounds::Idle);
    assert_eq!(rt; members[0].heard, 102);
    assert_eq!(rt; members[1].heard, 100);
    assert_eq!(rt; members[2].heard, 101);
    Ok(())
}

/// Whether no relay comes to more letters than it may take, in so many rounds.
fn have_room(members: &[Relay], most: u64) -> bool
    requires { most ≤ 1000000 }
    ensures { IsTrue result → All (λ m. m.heard + 64 * most ≤ 640000000) members.now }
{
    members
        .iter()
        .all(|relay| relay.heard <= 640_000_000 - 64 * most)
}

/// Ten rounds have 1,920 steps at most, and there are 10,001 to take. Rounds go on from there, each with a step at least.
#[test]
fn ten_rounds_are_spent(rt: HostRuntime) -> Result<(), Fail> {
    let mut members = ring_of_three(rt.alloc(), 1, [9_998, 0, 0])?;
    let end = run_rounds(&rt, rt.alloc(), &mut members, &PLAN, &Open, 10)?;
    assert_eq!(rt; end, Rounds::Spent);
    assert!(rt; have_room(&members, 10_000));
    let end = run_rounds(&rt, rt.alloc(), &mut members, &PLAN, &Open, 10_000)?;
    assert_eq!(rt; end, Rounds::Idle);
    assert_eq!(rt; members[0].heard, 3_334);
    assert_eq!(rt; members[1].heard, 3_333);
    assert_eq!(rt; members[2].heard, 3_334);
    Ok(())
}

/// At its first step each of the servers 0 and 1 waits until the other has come to its own.
#[derive(Drop)]
struct Meeting {
    first: AtomicU64,
    second: AtomicU64,
    /// How often one of them has waited in vain.
    gave_up: AtomicU64,
}

impl Gate for Meeting {
    fn at(&self, server: u16, step: u64) {
        if step > 0 || server > 1 {
            return;
        }
        let (mine, other) = if server == 0 {
            (&self.first, &self.second)
        } else {
            (&self.second, &self.first)
        };
        mine.store(1, Ordering::SeqCst);
        for _ in 0..10_000_000u32 {
            if other.load(Ordering::SeqCst) == 1 {
                return;
            }
            hint::spin_loop();
        }
        self.gave_up.fetch_add(1, Ordering::SeqCst);
    }
}

#[test]
fn two_servers_meet_at_a_gate(rt: HostRuntime) -> Result<(), Fail> {
    let gate = Meeting {
        first: AtomicU64::new(0),
        second: AtomicU64::new(0),
        gave_up: AtomicU64::new(0),
    };
    let mut members = ring_of_three(rt.alloc(), 4, [3, 3, 3])?;
    let end = run_rounds(&rt, rt.alloc(), &mut members, &PLAN, &gate, 1000)?;
    assert_eq!(rt; end, Rounds::Idle);
    assert_eq!(rt; gate.first.load(Ordering::SeqCst), 1);
    assert_eq!(rt; gate.second.load(Ordering::SeqCst), 1);
    assert_eq!(rt; gate.gave_up.load(Ordering::SeqCst), 0);
    Ok(())
}

/// With long turns a letter of very many hops is through after few rounds.
#[test]
fn long_turns_end_idle(rt: HostRuntime) -> Result<(), Fail> {
    let mut members = ring_of_three(rt.alloc(), 1, [200_000, 100, 0])?;
    let end = run_rounds(&rt, rt.alloc(), &mut members, &LONG, &Open, 1000)?;
    assert_eq!(rt; end, Rounds::Idle);
    assert_eq!(rt; members[0].heard, 66_702);
    assert_eq!(rt; members[1].heard, 66_700);
    assert_eq!(rt; members[2].heard, 66_701);
    Ok(())
}
