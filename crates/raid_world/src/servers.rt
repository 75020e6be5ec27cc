//! All servers of a workload.
ghost use Rattle.std.specs.Prelude.{◌≡◌, ◌<◌, ◌≤◌, ◌+◌, ◌==◌, ℕ, true, map, length, IfOk, OnOk, if◌then◌else◌};
ghost use Rattle.raid_workload.specs.declared.workload.Workload.{Workload};
ghost use Rattle.raid_sequencer.specs.Runs as deciding;
ghost use Rattle.raid_force.specs.Lasting.{AreClear, are_whole};
ghost use Rattle.raid_steps.specs.World as steps;
ghost use Rattle.raid_world.specs.Stands as words;
ghost use Rattle.raid_world.specs.Stands.{Are, Go, NoneHeard};

use crate::telling::{copies, entries, finals, order};
use raid_base::{NoMemory, Report, Site};
use raid_control::{Controller, Rack};
use raid_message::{Letter, Outs};
use raid_monitor::Monitor;
use raid_sequencer::Sequencer;
use raid_site::SiteServer;
use raid_workload::Workload;
use std::alloc::Global;

/// The servers of a workload: the monitor is number 0, the sequencer number 1, and site `s` number `s + 1`.
#[derive(Drop)]
pub struct Servers {
    monitor: Monitor,
    sequencer: Sequencer,
    sites: Vec<SiteServer>,
}

/// The servers of the sites, as before any letter.
fn sites(alloc: Global, workload: &Workload) -> Result<Vec<SiteServer>, NoMemory>
    ensures { IfOk result (λ sites. words.AreFirst workload.now workload.now.sites sites.items) }
{
    let mut sites = Vec::new(alloc);
    for k in 0..workload.sites {
        sites.push(SiteServer::new(alloc, workload, Site(k + 1))?)?;
    }
    Ok(sites)
}

impl Servers {
    /// The servers as before any letter, with a whole rack of cleared controllers.
    pub fn new(alloc: Global, workload: &Workload, rack: Rack) -> Result<Servers, NoMemory>
        requires whole { are_whole ⟦<dyn Controller as Controller>⟧ rack.slots.items ≡ true }
        requires clear { AreClear ⟦<dyn Controller as Controller>⟧ rack.slots.items }
        ensures are { IfOk result (λ s. Are s (steps.first_servers workload.now)) }
        ensures go { IfOk result (λ s. Go ⟦<dyn Controller as Controller>⟧ workload.now s) }
        ensures heard { IfOk result (λ s. NoneHeard s) }
    {
        let sequencer = Sequencer::new(alloc, workload, rack)?;
        let sites = sites(alloc, workload)?;
        Ok(Servers {
            monitor: Monitor::new(),
            sequencer,
            sites,
        })
    }

    /// The monitor's step.
    fn hear_monitor(
        &mut self,
        alloc: Global,
        workload: &Workload,
        from: u16,
        letter: &Letter,
    ) -> Result<Outs, NoMemory>
        requires go { Go ⟦<dyn Controller as Controller>⟧ workload.now self.old }
        requires from { from < workload.now.sites + 2 }
        ensures state { OnOk result ((s : steps.Servers) → Are self.old s → Are self.new (steps.hear workload.now s 0 from letter.now).0) }
        ensures outs { IfOk result (λ outs. (s : steps.Servers) → Are self.old s → outs ≡ (steps.hear workload.now s 0 from letter.now).1) }
        ensures go { OnOk result (Go ⟦<dyn Controller as Controller>⟧ workload.now self.new) }
        ensures heard { OnOk result ((k : ℕ) → words.heard self.new k ≤ words.heard self.old k) }
    {
        self.monitor.hear(alloc, workload, from, letter)
    }

    /// The sequencer's step.
    fn hear_sequencer(
        &mut self,
        alloc: Global,
        workload: &Workload,
        from: u16,
        letter: &Letter,
    ) -> Result<Outs, NoMemory>
        requires go { Go ⟦<dyn Controller as Controller>⟧ workload.now self.old }
        requires from { from < workload.now.sites + 2 }
        requires few { words.heard self.old 1 < 1000000000 }
        ensures state { OnOk result ((s : steps.Servers) → Are self.old s → Are self.new (steps.hear workload.now s 1 from letter.now).0) }
        ensures outs { IfOk result (λ outs. (s : steps.Servers) → Are self.old s → outs ≡ (steps.hear workload.now s 1 from letter.now).1) }
        ensures go { OnOk result (Go ⟦<dyn Controller as Controller>⟧ workload.now self.new) }
        ensures heard { OnOk result ((k : ℕ) → words.heard self.new k ≤ (if k == 1 then words.heard self.old k + 1 else words.heard self.old k)) }
    {
        self.sequencer.hear(alloc, from, letter)
    }

    /// The step of a site.
    fn hear_site(
        &mut self,
        alloc: Global,
        workload: &Workload,
        server: u16,
        from: u16,
        letter: &Letter,
    ) -> Result<Outs, NoMemory>
        requires go { Go ⟦<dyn Controller as Controller>⟧ workload.now self.old }
        requires site { 2 ≤ server }
        requires server { server < workload.now.sites + 2 }
        requires from { from < workload.now.sites + 2 }
        requires few { words.heard self.old server < 1000000000 }
        ensures state { OnOk result ((s : steps.Servers) → Are self.old s → Are self.new (steps.hear workload.now s server from letter.now).0) }
        ensures outs { IfOk result (λ outs. (s : steps.Servers) → Are self.old s → outs ≡ (steps.hear workload.now s server from letter.now).1) }
        ensures go { OnOk result (Go ⟦<dyn Controller as Controller>⟧ workload.now self.new) }
        ensures heard { OnOk result ((k : ℕ) → words.heard self.new k ≤ (if k == server then words.heard self.old k + 1 else words.heard self.old k)) }
    {
        self.sites[server as usize - 2].hear(alloc, workload, from, letter)
    }

    /// The step of a server that takes a letter of another: what it sends. After want of memory the servers don't go on.
    pub fn hear(
        &mut self,
        alloc: Global,
        workload: &Workload,
        server: u16,
        from: u16,
        letter: &Letter,
    ) -> Result<Outs, NoMemory>
        requires go { Go ⟦<dyn Controller as Controller>⟧ workload.now self.old }
        requires server { server < workload.now.sites + 2 }
        requires from { from < workload.now.sites + 2 }
        requires few { words.heard self.old server < 1000000000 }
        ensures state { OnOk result ((s : steps.Servers) → Are self.old s → Are self.new (steps.hear workload.now s server from letter.now).0) }
        ensures outs { IfOk result (λ outs. (s : steps.Servers) → Are self.old s → outs ≡ (steps.hear workload.now s server from letter.now).1) }
        ensures go { OnOk result (Go ⟦<dyn Controller as Controller>⟧ workload.now self.new) }
        ensures heard { OnOk result ((k : ℕ) → words.heard self.new k ≤ (if k == server then words.heard self.old k + 1 else words.heard self.old k)) }
    {
        if server == 0 {
            self.hear_monitor(alloc, workload, from, letter)
        } else if server == 1 {
            self.hear_sequencer(alloc, workload, from, letter)
        } else {
            self.hear_site(alloc, workload, server, from, letter)
        }
    }

    /// The session that a server is in, 0 for the monitor and the sequencer.
    pub fn session_of(&self, server: u16) -> u32
        ensures { (s : steps.Servers) → Are self.now s → result ≡ steps.session_of s server }
    {
        if server < 2 || server as usize - 2 >= self.sites.len() {
            return 0;
        }
        self.sites[server as usize - 2].session()
    }

    /// What is told of the servers: the history, its serial order, each item's final value, and all copies.
    pub fn report(&self, alloc: Global, workload: &Workload) -> Result<Report, NoMemory>
        requires go { Go ⟦<dyn Controller as Controller>⟧ workload.now self.now }
        ensures is { IfOk result (λ report. (s : steps.Servers) → Are self.now s → report ≡ steps.report workload.now s) }
        ensures short { IfOk result (λ report. deciding.heard self.now.sequencer ≤ 1000000000 → length report.entries < 4294967295) }
    {
        let history = self.sequencer.history();
        let entries = entries(alloc, history)?;
        let order = order(alloc, &self.sequencer)?;
        let finals = finals(alloc, workload, history)?;
        let copies = copies(alloc, workload, &self.sites)?;
        Ok(Report {
            entries,
            order,
            finals,
            copies,
        })
    }

    /// The rack with all controllers back in it and cleared; but those for `once` that were taken are dropped. Takes no memory.
    pub fn close(self) -> Rack
        requires go { (w : Workload) × Go ⟦<dyn Controller as Controller>⟧ w self }
        ensures whole { are_whole ⟦<dyn Controller as Controller>⟧ result.slots.items ≡ true }
        ensures clear { AreClear ⟦<dyn Controller as Controller>⟧ result.slots.items }
    {
        let sequencer = self.sequencer;
        sequencer.close()
    }
}
