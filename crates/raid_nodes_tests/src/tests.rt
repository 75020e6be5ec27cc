use crate::gates::{Late, Meeting};
use crate::texts::{STOPS, TWO, workload};
use raid_full_rack::{Controllers, full_rack};
use raid_nodes::Nodes;
use raid_rounds::Rounds;
use std::test::Fail;

/// More rounds than these workloads have letters.
const ROUNDS: u64 = 1000;

/// Each site's server holds up at its first step until the other's has come to its own: no thread waits for the end of another's turn.
#[test]
fn two_servers_run_at_the_same_moment(rt: HostRuntime) -> Result<(), Fail> {
    let alloc = rt.alloc();
    let workload = workload(alloc, TWO)?;
    let made = Controllers::new(alloc)?;
    let rack = full_rack(
        alloc,
        made.lock,
        made.stamp,
        made.valid,
        made.graph,
        made.first,
        made.second,
    )?;
    let gate = Meeting::new();
    let mut world = Nodes::new(alloc, &workload, 64, rack)?;
    let end = world.run(&rt, alloc, &workload, &gate, ROUNDS)?;
    assert_eq!(rt; end, Rounds::Idle);
    assert!(rt; gate.have_come());
    assert_eq!(rt; gate.gave_up(), 0);
    Ok(())
}

/// The most steps that the monitor is held up for.
const HELD: u64 = 100;

/// However long the monitor is held up, so wherever the stop comes, and though each link has one place: no letter is left at the end.
#[test]
fn runs_end_with_a_stop_at_every_place_over_links_of_one_place(
    rt: HostRuntime,
) -> Result<(), Fail> {
    let alloc = rt.alloc();
    let workload = workload(alloc, STOPS)?;
    for held in 0..HELD + 1 {
        let made = Controllers::new(alloc)?;
        let rack = full_rack(
            alloc,
            made.lock,
            made.stamp,
            made.valid,
            made.graph,
            made.first,
            made.second,
        )?;
        let gate = Late::new(held);
        let mut world = Nodes::new(alloc, &workload, 1, rack)?;
        let end = world.run(&rt, alloc, &workload, &gate, ROUNDS)?;
        assert_eq!(rt; end, Rounds::Idle);
    }
    Ok(())
}
