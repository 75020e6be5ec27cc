ghost use Rattle.std.specs.Prelude.{◌≡◌, ◌<◌, ℕ, true, List, length, position, slice_index, IfOk, MatchOption};
ghost use Rattle.raid_base.specs.declared.names.Txn.{Txn};
ghost use Rattle.raid_base.specs.Names.{is_txn};
ghost use Rattle.raid_cycles.specs.Cycles.{IsAscending, IsCycle, IsLeastCycle};
ghost use Rattle.raid_cycles.specs.Marks.{member_at, AreMarked, AreSettled};

use crate::graph::Graph;
use crate::marks;
use raid_base::{NoMemory, Txn, TxnList};
use std::alloc::Global;

/// The transaction's place among the members.
fn place_of(members: &[Txn], txn: Txn) -> Option<usize>
    ensures { result ≡ position (is_txn txn) members.now }
{
    members.iter().position(|member| *member == txn)
}

/// The first member with a mark that a transaction leads to.
fn first_onward<G: Graph>(
    graph: &G,
    members: &[Txn],
    marks: &[usize],
    from: Txn,
    mark: usize,
) -> usize
    requires long { length marks.now ≡ length members.now }
    requires one { (k : ℕ) × (k < length members.now) × (slice_index marks.now k ≡ mark) × (G.edges graph.now from (member_at members.now k) ≡ true) }
    ensures place { result < length members.now }
    ensures mark { slice_index marks.now result ≡ mark }
    ensures leads { G.edges graph.now from (member_at members.now result) ≡ true }
    ensures first { (k : ℕ) → k < result → slice_index marks.now k ≡ mark → G.edges graph.now from (member_at members.now k) ≡ true → ⊥ }
{
    for k in 0..members.len() {
        if marks[k] == mark && graph.leads(from, members[k]) {
            return k;
        }
    }
    unreachable!()
}

/// The least cycle through the member at a place, which has a mark: from each of it to the first that has one edge less to go.
fn follow<G: Graph>(
    alloc: Global,
    graph: &G,
    members: &[Txn],
    marks: &[usize],
    place: usize,
) -> Result<TxnList, NoMemory>
    requires place { place < length members.now }
    requires ascending { IsAscending members.now }
    requires settled { AreSettled members.now (G.edges graph.now) (member_at members.now place) place marks.now }
    requires mark { 0 < slice_index marks.now place }
    ensures { IfOk result (IsLeastCycle members.now (G.edges graph.now) (member_at members.now place)) }
{
    let mut cycle = TxnList::new(alloc);
    cycle.push(members[place])?;
    let mut last = place;
    let mut edges = marks[place];
    while edges > 1 {
        edges -= 1;
        last = first_onward(graph, members, marks, members[last], edges);
        cycle.push(members[last])?;
    }
    Ok(cycle)
}

/// Of all cycles through a transaction the shortest, and among the shortest the least by numbers; None exactly where no cycle goes
/// through it. It begins with the transaction. Asks each question of the graph at most twice. Want of memory is the only error.
pub fn least_cycle<G: Graph>(
    graph: &G,
    start: Txn,
    alloc: Global,
) -> Result<Option<TxnList>, NoMemory>
    ensures { IfOk result (λ found. MatchOption found ((cycle : List Txn) → IsCycle (G.transactions graph.now) (G.edges graph.now) start cycle → ⊥) (IsLeastCycle (G.transactions graph.now) (G.edges graph.now) start)) }
{
    let members = graph.members();
    let Some(place) = place_of(members, start) else {
        return Ok(None);
    };
    let marks = marks::marks_to(alloc, graph, members, place)?;
    if marks[place] == 0 {
        return Ok(None);
    }
    let cycle = follow(alloc, graph, members, &marks, place)?;
    Ok(Some(cycle))
}
