//! A server as a node on threads.
ghost use Rattle.std.specs.Prelude.{◌≡◌, ◌<◌, ◌+◌, min, max, length, OnOk};
ghost use Rattle.raid_nodes.specs.Nodes.{Goes, Heard, limit};

use crate::sending::send_all;
use crate::server::Server;
use raid_base::NoMemory;
use raid_control::Controller;
use raid_link::{OnTheWay, Receiver, Sender};
use raid_merge::Journal;
use raid_message::{Letter, Step};
use raid_workload::Workload;
use std::alloc::Global;
use std::marker::PhantomData;
use std::sync::Arc;

/// A server with its clock and its journal, and its ends of the links to all servers and from all, itself too.
#[derive(Drop)]
pub struct ServerNode {
    pub number: u16,
    pub server: Server,
    pub clock: u64,
    /// The steps that it has taken.
    pub journal: Journal,
    /// Its ends of the links to the servers, by their numbers.
    pub outs: Vec<Sender>,
    /// Its ends of the links from the servers, by their numbers.
    pub inputs: Vec<Receiver>,
    /// The link that gave the last letter; the next is looked for there first.
    pub at: u16,
    /// How many letters it has fetched since its letters that wait for room were moved on.
    pub since: u32,
    /// What the nodes of one world tell one another of letters on their way.
    pub way: Arc<OnTheWay>,
    /// How many letters it may send that are counted as on their way already: those that it has taken stand for them.
    pub tokens: u64,
    /// What its controllers are, which contracts ask.
    pub told: PhantomData<Box<dyn Controller>>,
}

/// The clock of a server's next step, for a letter that was sent at this clock. A clock at its greatest value stays there.
fn next_clock(own: u64, sent: u64) -> u64
    ensures { result ≡ min (1 + max own sent) limit }
{
    own.max(sent).saturating_add(1)
}

impl ServerNode {
    /// Takes in a letter of the server with this number: its clock goes on, or stays at its greatest value, what it sends goes into its
    /// links, and its journal has one step more. After want of memory nothing is said of it.
    pub fn hear(
        &mut self,
        alloc: Global,
        workload: &Workload,
        from: u16,
        letter: &Letter,
    ) -> Result<(), NoMemory>
        requires goes { Goes ⟦<dyn Controller as Controller>⟧ workload.now self.old }
        requires from { from < workload.now.sites + 2 }
        requires few { length self.old.journal < 1000000000 }
        ensures heard { OnOk result (Heard workload.now self.old (from, letter.now) self.new) }
        ensures goes { OnOk result (Goes ⟦<dyn Controller as Controller>⟧ workload.now self.new) }
    {
        let clock = next_clock(self.clock, letter.clock);
        let outs = self.server.hear(alloc, workload, from, letter)?;
        let session = self.server.session();
        self.tokens = tokens_after(&self.way, self.tokens, outs.len() as u64);
        send_all(alloc, &mut self.outs, session, clock, &outs)?;
        self.clock = clock;
        self.journal.push(Step { clock, from })?;
        Ok(())
    }
}

/// How many tokens are left once a letter was taken and so many are to be sent. Where they are too few, the letters that they don't
/// stand for are counted first.
fn tokens_after(way: &OnTheWay, tokens: u64, sent: u64) -> u64 {
    let tokens = tokens.wrapping_add(1);
    if tokens < sent {
        way.add(sent - tokens);
        return 0;
    }
    tokens - sent
}
