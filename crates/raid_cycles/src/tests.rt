ghost use Rattle.std.specs.Prelude.{◌==◌, ◌&&◌, [], ◌∷◌};
ghost use Rattle.std.specs.List.{list_any};

use crate::graph::Graph;
use crate::search::least_cycle;
use raid_base::{NoMemory, Txn, TxnList};
use std::alloc::AllocGlobal;
use std::process::Abort;
use std::test::Fail;

const FIVE: [Txn; 5] = [Txn(1), Txn(2), Txn(3), Txn(4), Txn(5)];

/// Five transactions, and which of them leads to which.
#[derive(Drop)]
struct Arrows<'a> {
    arrows: &'a [(u32, u32)],
}

impl Graph for Arrows<'_> {
    ghost transactions = { λ _. record { 0 = 1 } ∷ record { 0 = 2 } ∷ record { 0 = 3 } ∷ record { 0 = 4 } ∷ record { 0 = 5 } ∷ [] };

    ghost edges = { λ a from to. list_any (λ e. e.0 == from.0 && e.1 == to.0) a.arrows.now };

    fn members(&self) -> &[Txn] {
        &FIVE
    }

    fn leads(&self, from: Txn, to: Txn) -> bool {
        self.arrows
            .iter()
            .any(|(first, second)| *first == from.0 && *second == to.0)
    }
}

/// The cycle through a transaction is the list, which is empty for none.
fn is_cycle<R: Abort + AllocGlobal>(
    rt: &R,
    arrows: &[(u32, u32)],
    start: u32,
    cycle: &[Txn],
) -> Result<(), NoMemory> {
    let found = least_cycle(&Arrows { arrows }, Txn(start), rt.alloc())?;
    let list = found.unwrap_or(TxnList::new(rt.alloc()));
    assert_eq!(rt; list.as_slice(), cycle);
    Ok(())
}

#[test]
fn one_that_leads_to_itself_is_a_cycle(rt: HostRuntime) -> Result<(), Fail> {
    is_cycle(&rt, &[(3, 3)], 3, &[Txn(3)])?;
    is_cycle(&rt, &[(3, 1), (1, 3), (3, 3)], 3, &[Txn(3)])?;
    Ok(())
}

#[test]
fn of_the_shortest_the_least_counts(rt: HostRuntime) -> Result<(), Fail> {
    // Three of three: 3 5 1, 3 2 4 and 3 2 1.
    let arrows = [(3, 5), (5, 1), (1, 3), (3, 2), (2, 4), (4, 3), (2, 1)];
    is_cycle(&rt, &arrows, 3, &[Txn(3), Txn(2), Txn(1)])?;
    is_cycle(&rt, &arrows, 5, &[Txn(5), Txn(1), Txn(3)])?;
    Ok(())
}

#[test]
fn a_shorter_one_counts_before_a_longer_one_of_smaller_numbers(
    rt: HostRuntime,
) -> Result<(), Fail> {
    let arrows = [(4, 1), (1, 2), (2, 4), (4, 5), (5, 4)];
    is_cycle(&rt, &arrows, 4, &[Txn(4), Txn(5)])?;
    is_cycle(&rt, &arrows, 2, &[Txn(2), Txn(4), Txn(1)])?;
    Ok(())
}

#[test]
fn all_of_them_can_be_on_it(rt: HostRuntime) -> Result<(), Fail> {
    let arrows = [(1, 2), (2, 3), (3, 4), (4, 5), (5, 1)];
    is_cycle(&rt, &arrows, 1, &[Txn(1), Txn(2), Txn(3), Txn(4), Txn(5)])?;
    is_cycle(&rt, &arrows, 3, &[Txn(3), Txn(4), Txn(5), Txn(1), Txn(2)])?;
    Ok(())
}

#[test]
fn there_may_be_none(rt: HostRuntime) -> Result<(), Fail> {
    is_cycle(&rt, &[(1, 2), (2, 3), (1, 3)], 1, &[])?;
    // Others have one, to which it leads.
    is_cycle(&rt, &[(1, 2), (2, 3), (3, 2)], 1, &[])?;
    is_cycle(&rt, &[(9, 9)], 9, &[])?;
    Ok(())
}
