//! What is told of the nodes at the end.
ghost use Rattle.std.specs.Prelude.{◌≡◌, ℕ, ◌<◌, false, length, flat_map, IfOk};
ghost use Rattle.raid_workload.specs.declared.workload.Workload.{Workload};
ghost use Rattle.raid_steps.specs.World as steps;
ghost use Rattle.raid_steps.specs.World.{copy_lines};
ghost use Rattle.raid_sequencer.specs.Runs as deciding;
ghost use Rattle.raid_nodes.specs.Nodes.{IsServer, Goes};
ghost use Rattle.raid_nodes.specs.Ran.{AllGo, AreServers, lines_at};

use crate::node::ServerNode;
use crate::server::Server;
use raid_base::{CopyList, NoMemory, Report};
use raid_control::Controller;
use raid_sequencer::Sequencer;
use raid_workload::Workload;
use raid_world::telling::{copies_at, entries, finals, order};
use std::alloc::Global;

/// The sequencer among the nodes.
fn sequencer_of(nodes: &[ServerNode]) -> &Sequencer
    requires go { (w : Workload) × AllGo ⟦<dyn Controller as Controller>⟧ w nodes.now }
    requires are { (w : Workload) × (s : steps.Servers) × AreServers w nodes.now s }
    ensures runs { deciding.Runs ⟦<dyn Controller as Controller>⟧ result.now }
    ensures goes_on { deciding.is_finished result.now ≡ false }
    ensures tells { (w : Workload) (s : steps.Servers) → AreServers w nodes.now s → deciding.Tells result.now s.sequencer }
{
    match &nodes[1].server {
        Server::Sequencer(sequencer) => sequencer,
        _ => unreachable!(),
    }
}

/// The copies of the node's site; none of the monitor and of the sequencer.
fn lines_of(alloc: Global, workload: &Workload, node: &ServerNode) -> Result<CopyList, NoMemory>
    requires { Goes ⟦<dyn Controller as Controller>⟧ workload.now node.now }
    ensures { IfOk result (λ lines. (k : ℕ) (s : steps.Servers) → IsServer k node.now.server s → lines ≡ lines_at k s) }
{
    match &node.server {
        Server::Site(site) => copies_at(alloc, workload, site),
        Server::Monitor(_) => Ok(CopyList::new(alloc)),
        Server::Sequencer(_) => Ok(CopyList::new(alloc)),
    }
}

/// The copies of all sites, in the order of the sites.
fn copies_of(alloc: Global, workload: &Workload, nodes: &[ServerNode]) -> Result<CopyList, NoMemory>
    requires go { AllGo ⟦<dyn Controller as Controller>⟧ workload.now nodes.now }
    requires are { (s : steps.Servers) × AreServers workload.now nodes.now s }
    ensures { IfOk result (λ lines. (s : steps.Servers) → AreServers workload.now nodes.now s → lines ≡ flat_map copy_lines s.sites) }
{
    let mut copies = CopyList::new(alloc);
    for node in nodes {
        let lines = lines_of(alloc, workload, node)?;
        copies.push_all(lines.as_slice())?;
    }
    Ok(copies)
}

/// What is told of the nodes: the history, its serial order, each item's final value, and all copies. A history that is too long to be
/// numbered counts as want of memory, which is the only error.
pub fn report_of(
    alloc: Global,
    workload: &Workload,
    nodes: &[ServerNode],
) -> Result<Report, NoMemory>
    requires go { AllGo ⟦<dyn Controller as Controller>⟧ workload.now nodes.now }
    requires are { (s : steps.Servers) × AreServers workload.now nodes.now s }
    ensures is { IfOk result (λ report. (s : steps.Servers) → AreServers workload.now nodes.now s → report ≡ steps.report workload.now s) }
    ensures short { IfOk result (λ report. length report.entries < 4294967295) }
{
    let sequencer = sequencer_of(nodes);
    let history = sequencer.history();
    if history.len() == u32::MAX {
        return Err(NoMemory);
    }
    let entries = entries(alloc, history)?;
    let order = order(alloc, sequencer)?;
    let finals = finals(alloc, workload, history)?;
    let copies = copies_of(alloc, workload, nodes)?;
    Ok(Report {
        entries,
        order,
        finals,
        copies,
    })
}
