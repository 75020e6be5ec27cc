//! One server of a workload.
ghost use Rattle.std.specs.Prelude.{◌≡◌, ◌<◌, ◌≤◌, ◌+◌, ℕ, IfOk, OnOk};
ghost use Rattle.raid_steps.specs.World as steps;
ghost use Rattle.raid_nodes.specs.Nodes.{IsServer, GoesOn, heard};

use raid_base::NoMemory;
use raid_control::Controller;
use raid_message::{Letter, Outs};
use raid_monitor::Monitor;
use raid_sequencer::Sequencer;
use raid_site::SiteServer;
use raid_workload::Workload;
use std::alloc::Global;

/// A server: the monitor, which is number 0, the sequencer, number 1, or that of site `s`, number `s + 1`.
#[derive(Drop)]
pub enum Server {
    Monitor(Monitor),
    Sequencer(Sequencer),
    Site(SiteServer),
}

impl Server {
    /// The server's step for a letter of the server with this number: what it sends. After want of memory the server doesn't go on.
    pub fn hear(
        &mut self,
        alloc: Global,
        workload: &Workload,
        from: u16,
        letter: &Letter,
    ) -> Result<Outs, NoMemory>
        requires goes { GoesOn ⟦<dyn Controller as Controller>⟧ workload.now self.old }
        requires from { from < workload.now.sites + 2 }
        requires few { heard self.old < 1000000000 }
        ensures state { OnOk result ((number : ℕ) (s : steps.Servers) → IsServer number self.old s → IsServer number self.new (steps.hear workload.now s number from letter.now).0) }
        ensures outs { IfOk result (λ outs. (number : ℕ) (s : steps.Servers) → IsServer number self.old s → outs ≡ (steps.hear workload.now s number from letter.now).1) }
        ensures goes { OnOk result (GoesOn ⟦<dyn Controller as Controller>⟧ workload.now self.new) }
        ensures heard { OnOk result (heard self.new ≤ heard self.old + 1) }
    {
        match self {
            Server::Monitor(monitor) => monitor.hear(alloc, workload, from, letter),
            Server::Sequencer(sequencer) => sequencer.hear(alloc, from, letter),
            Server::Site(site) => site.hear(alloc, workload, from, letter),
        }
    }

    /// The session that the server is in, 0 for the monitor and the sequencer.
    pub fn session(&self) -> u32
        ensures { (number : ℕ) (s : steps.Servers) → IsServer number self.now s → result ≡ steps.session_of s number }
    {
        match self {
            Server::Monitor(_) => 0,
            Server::Sequencer(_) => 0,
            Server::Site(site) => site.session(),
        }
    }
}
