//! The world on threads.
ghost use Rattle.std.specs.Prelude.{◌≡◌, ◌≤◌, ◌<◌, Bool, true, false, length, map, IfOk, OnOk};
ghost use Rattle.raid_force.specs.Lasting.{AreClear, are_whole};
ghost use Rattle.raid_workload.specs.declared.workload.Workload.{Workload};
ghost use Rattle.raid_steps.specs.World as steps;
ghost use Rattle.raid_nodes.specs.Ran.{AllGo, AreOpen, AreServers, Ran, all_steps};

use crate::making::nodes;
use crate::node::ServerNode;
use crate::running::{are_below_limit, run_nodes};
use crate::server::Server;
use crate::telling;
use crate::telling::report_of;
use raid_base::{NoMemory, Report};
use raid_control::{Controller, Rack};
use raid_link::Gate;
use raid_merge::{Journal, Journals, Schedule, merge};
use raid_rounds::Rounds;
use raid_workload::Workload;
use std::alloc::Global;
use std::thread::Threads;

/// All servers of a workload, each as a node that can run in a thread of its own. After want of memory nothing is said of them.
#[derive(Drop)]
pub struct Nodes {
    pub nodes: Vec<ServerNode>,
}

impl Nodes {
    /// The servers before any letter, with a Welcome on its way to each site. The rack has to be whole and its controllers cleared.
    /// `places` is how many letters the ring of a link holds, 1 to 1,024; beyond that letters wait, and none is lost. Want of memory is
    /// the only error.
    pub fn new(
        alloc: Global,
        workload: &Workload,
        places: u32,
        rack: Rack,
    ) -> Result<Nodes, NoMemory>
        requires least { 1 ≤ places }
        requires most { places ≤ 1024 }
        requires whole { are_whole ⟦<dyn Controller as Controller>⟧ rack.slots.items ≡ true }
        requires clear { AreClear ⟦<dyn Controller as Controller>⟧ rack.slots.items }
        ensures { IfOk result (λ world. AreOpen ⟦<dyn Controller as Controller>⟧ workload.now world.nodes.items) }
    {
        let nodes = nodes(alloc, workload, places, rack)?;
        Ok(Nodes { nodes })
    }

    /// Runs the servers from the start on, each in a thread of its own, with this gate before each step. Idle where no letter is left on any
    /// link; Spent after `most` rounds, each of them with a step, where one is left. What they have done is a run of the definitions then.
    /// Want of memory is the only error, and a clock at its greatest value counts as that.
    pub fn run<R: Threads + Sync, G: Gate>(
        &mut self,
        rt: &R,
        alloc: Global,
        workload: &Workload,
        gate: &G,
        most: u64,
    ) -> Result<Rounds, NoMemory>
        requires open { AreOpen ⟦<dyn Controller as Controller>⟧ workload.now self.old.nodes.items }
        requires few { most ≤ 10000000 }
        ensures idle { IfOk result (λ r. r ≡ Rounds.Idle → Ran workload.now true self.new.nodes.items) }
        ensures spent { IfOk result (λ r. r ≡ Rounds.Spent → Ran workload.now false self.new.nodes.items × (most ≤ all_steps self.new.nodes.items)) }
        ensures ran { OnOk result ((b : Bool) × Ran workload.now b self.new.nodes.items) }
        ensures go { OnOk result (AllGo ⟦<dyn Controller as Controller>⟧ workload.now self.new.nodes.items) }
    {
        let rounds = run_nodes(rt, alloc, &mut self.nodes, workload, gate, most)?;
        if !are_below_limit(&self.nodes) {
            return Err(NoMemory);
        }
        Ok(rounds)
    }
}

impl Nodes {
    /// The journal of each server, by its number.
    fn journals(&self, alloc: Global) -> Result<Journals, NoMemory>
        ensures { IfOk result (λ journals. journals ≡ map (λ x. x.journal) self.now.nodes.items) }
    {
        let mut journals = Journals::new(alloc);
        for node in &self.nodes {
            let mut journal = Journal::new(alloc);
            journal.push_all(node.journal.as_slice())?;
            journals.push(journal)?;
        }
        Ok(journals)
    }

    /// The picks of the run: all steps of all servers, by the clocks of their steps and then by the servers' numbers. They are a schedule,
    /// and what the definitions make of it are these servers. Want of memory is the only error.
    pub fn schedule(&self, alloc: Global) -> Result<Schedule, NoMemory>
        requires ran { (w : Workload) × (b : Bool) × Ran w b self.now.nodes.items }
        ensures schedule { IfOk result (λ s. (w : Workload) (b : Bool) → Ran w b self.now.nodes.items → steps.is_schedule w s ≡ true) }
        ensures idle { IfOk result (λ s. (w : Workload) (b : Bool) → Ran w b self.now.nodes.items → steps.is_idle (steps.run w s) ≡ b) }
        ensures servers { IfOk result (λ s. (w : Workload) (b : Bool) → Ran w b self.now.nodes.items → AreServers w self.now.nodes.items (steps.run w s).servers) }
        ensures long { IfOk result (λ s. length s ≡ all_steps self.now.nodes.items) }
    {
        let journals = self.journals(alloc)?;
        merge(alloc, &journals)
    }
}

impl Nodes {
    /// What is told of the servers at the end: the history, its serial order, each item's final value, and all copies. A history that is
    /// too long to be numbered counts as want of memory, which is the only error.
    pub fn report(&self, alloc: Global, workload: &Workload) -> Result<Report, NoMemory>
        requires go { AllGo ⟦<dyn Controller as Controller>⟧ workload.now self.now.nodes.items }
        requires are { (s : steps.Servers) × AreServers workload.now self.now.nodes.items s }
        ensures is { IfOk result (λ report. (s : steps.Servers) → AreServers workload.now self.now.nodes.items s → report ≡ steps.report workload.now s) }
        ensures short { IfOk result (λ report. length report.entries < 4294967295) }
    {
        report_of(alloc, workload, &self.nodes)
    }

    /// The rack that they were made with: all controllers are back in it and cleared; but those for `once` that were taken are dropped.
    /// Takes no memory.
    pub fn close(self) -> Rack
        requires go { (w : Workload) × AllGo ⟦<dyn Controller as Controller>⟧ w self.nodes.items }
        requires are { (w : Workload) × (s : steps.Servers) × AreServers w self.nodes.items s }
        ensures whole { are_whole ⟦<dyn Controller as Controller>⟧ result.slots.items ≡ true }
        ensures clear { AreClear ⟦<dyn Controller as Controller>⟧ result.slots.items }
    {
        let mut nodes = self.nodes;
        let node = nodes.swap_remove(1);
        let server = node.server;
        match server {
            Server::Sequencer(sequencer) => sequencer.close(),
            _ => unreachable!(),
        }
    }
}
