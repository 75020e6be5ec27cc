ghost use Rattle.std.specs.Prelude.{◌≡◌, ◌<◌, ◌≤◌, ◌+◌, ◌==◌, ◌&&◌, ℕ, true, false, length, map, count_by, slice_index, IfOk, if◌then◌else◌};
ghost use Rattle.raid_base.specs.declared.names.Txn.{Txn};
ghost use Rattle.raid_cycles.specs.Marks.{member_at, AreMarked, AreSettled};

use crate::graph::Graph;
use raid_base::{NoMemory, Txn};
use std::alloc::Global;

/// Marks of the members that lead to the start by one edge.
fn first_marks<G: Graph>(
    alloc: Global,
    graph: &G,
    members: &[Txn],
    start: Txn,
) -> Result<Vec<usize>, NoMemory>
    ensures { IfOk result (λ marks. marks.items ≡ map (λ t. if G.edges graph.now t start then 1 else 0) members.now) }
{
    let mut marks = Vec::new(alloc);
    for member in members {
        marks.push(usize::from(graph.leads(*member, start)))?;
    }
    Ok(marks)
}

/// Marks those that have no mark and lead to a transaction, and says whether there are any.
fn mark_sources<G: Graph>(
    graph: &G,
    members: &[Txn],
    marks: &mut [usize],
    to: Txn,
    mark: usize,
) -> bool
    requires long { length marks.old ≡ length members.now }
    requires mark { 0 < mark }
    ensures marks { (k : ℕ) → k < length members.now → slice_index marks.new k ≡ (if slice_index marks.old k == 0 && G.edges graph.now (member_at members.now k) to then mark else slice_index marks.old k) }
    ensures none { result ≡ false → marks.new ≡ marks.old }
    ensures fewer { count_by (λ m. m == 0) marks.new + (if result then 1 else 0) ≤ count_by (λ m. m == 0) marks.old }
{
    let mut found = false;
    for k in 0..members.len() {
        if marks[k] == 0 && graph.leads(members[k], to) {
            marks[k] = mark;
            found = true;
        }
    }
    found
}

/// Marks those that have no mark and lead to one with the mark `most`, by the next mark, and says whether there are any.
fn mark_more<G: Graph>(
    graph: &G,
    members: &[Txn],
    marks: &mut [usize],
    most: usize,
    next: usize,
) -> bool
    requires long { length marks.old ≡ length members.now }
    requires most { 0 < most }
    requires next { next ≡ most + 1 }
    ensures marked { (start : Txn) → AreMarked members.now (G.edges graph.now) start most marks.old → AreMarked members.now (G.edges graph.now) start next marks.new }
    ensures none { result ≡ false → marks.new ≡ marks.old }
    ensures fewer { count_by (λ m. m == 0) marks.new + (if result then 1 else 0) ≤ count_by (λ m. m == 0) marks.old }
{
    let mut found = false;
    for k in 0..members.len() {
        if marks[k] == most && mark_sources(graph, members, marks, members[k], next) {
            found = true;
        }
    }
    found
}

/// Marks one more edge's way at a time, until the start has a mark or no other gets one.
fn settle<G: Graph>(graph: &G, members: &[Txn], marks: &mut [usize], place: usize)
    requires place { place < length members.now }
    requires marked { AreMarked members.now (G.edges graph.now) (member_at members.now place) 1 marks.old }
    ensures { AreSettled members.now (G.edges graph.now) (member_at members.now place) place marks.new }
{
    for most in 1..members.len() + 1 {
        if marks[place] != 0 {
            return;
        }
        if !mark_more(graph, members, marks, most, most + 1) {
            return;
        }
    }
}

/// How many edges each member has to go to the one at the place, where it leads to it, as far as the shortest way from that one to
/// itself.
pub fn marks_to<G: Graph>(
    alloc: Global,
    graph: &G,
    members: &[Txn],
    place: usize,
) -> Result<Vec<usize>, NoMemory>
    requires { place < length members.now }
    ensures { IfOk result (λ marks. AreSettled members.now (G.edges graph.now) (member_at members.now place) place marks.items) }
{
    let mut marks = first_marks(alloc, graph, members, members[place])?;
    settle(graph, members, &mut marks, place);
    Ok(marks)
}
