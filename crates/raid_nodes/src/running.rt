//! The run of all nodes on threads.
ghost use Rattle.std.specs.Prelude.{◌≡◌, ◌≤◌, true, false, IfOk, OnOk};
ghost use Rattle.std.specs.Bool.{OnTrue, OnFalse};
ghost use Rattle.raid_nodes.specs.Ran.{AllGo, AreOpen, BelowLimit, Ran, all_steps};

use crate::node::ServerNode;
use raid_base::NoMemory;
use raid_control::Controller;
use raid_link::Gate;
use raid_rounds::{Rounds, run_rounds};
use raid_workload::Workload;
use std::alloc::Global;
use std::thread::Threads;

/// Lets all servers take letters, each in a thread of its own, until none is left on any link or so many rounds were made, each of them with
/// a step at least. What they have done then is a run of the definitions, as long as no clock has come to its greatest value. After want of
/// memory nothing is said of them.
pub fn run_nodes<R: Threads + Sync, G: Gate>(
    rt: &R,
    alloc: Global,
    nodes: &mut [ServerNode],
    workload: &Workload,
    gate: &G,
    most: u64,
) -> Result<Rounds, NoMemory>
    requires open { AreOpen ⟦<dyn Controller as Controller>⟧ workload.now nodes.old }
    requires few { most ≤ 10000000 }
    ensures idle { IfOk result (λ r. r ≡ Rounds.Idle → BelowLimit nodes.new → Ran workload.now true nodes.new) }
    ensures spent { IfOk result (λ r. r ≡ Rounds.Spent → BelowLimit nodes.new → Ran workload.now false nodes.new × (most ≤ all_steps nodes.new)) }
    ensures go { OnOk result (AllGo ⟦<dyn Controller as Controller>⟧ workload.now nodes.new) }
{
    run_rounds(rt, alloc, nodes, workload, gate, most)
}

/// The greatest clock.
const LIMIT: u64 = u64::MAX;

/// Whether no node's clock has come to the greatest one.
pub fn are_below_limit(nodes: &[ServerNode]) -> bool
    ensures below { OnTrue result (BelowLimit nodes.now) }
    ensures reached { OnFalse result (BelowLimit nodes.now → ⊥) }
{
    for node in nodes {
        if node.clock == LIMIT {
            return false;
        }
    }
    true
}
