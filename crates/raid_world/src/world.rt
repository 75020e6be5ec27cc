//! The world: servers, links, clocks and journals.
ghost use Rattle.std.specs.Prelude.{◌≡◌, ◌≤◌, ◌<◌, ◌+◌, true, false, length, drop, slice_get, IfOk, OnOk, OnErr, IfSome, is_none};
ghost use Rattle.raid_message.specs.declared.letter.Letter.{Letter};
ghost use Rattle.raid_workload.specs.declared.workload.Workload.{Workload};
ghost use Rattle.raid_force.specs.Lasting.{AreClear, are_whole};
ghost use Rattle.raid_steps.specs.World as steps;
ghost use Rattle.raid_links.specs.First.{IsFirst};
ghost use Rattle.raid_world.specs.Stands as words;
ghost use Rattle.raid_world.specs.Stands.{AreLinks, Live, Stands, Runs, all_steps};

use crate::opening::open_links;
use crate::posting::post_all;
use crate::servers::Servers;
use crate::times::Times;
use raid_base::{NoMemory, Report};
use raid_control::{Controller, Rack};
use raid_links::Links;
use raid_message::{Letter, Pick, Step};
use raid_workload::Workload;
use std::alloc::Global;

/// All servers of a workload, the letters on their way between them, and each server's clock and journal.
///
/// A run is a list of picks: each lets one server take the front letter of one of its links. After want of memory the world is finished:
/// each later pick answers NoMemory.
#[derive(Drop)]
pub struct World {
    servers: Servers,
    links: Links,
    times: Times,
    finished: bool,
}

impl World {
    /// The world at the start, in which a Welcome waits for each site. The rack has to be whole and its controllers cleared. `places` is
    /// how many letters a link of bounded room is to hold, 1 to 1,024; these links hold as many as come, and it makes no difference. Want
    /// of memory is the only error.
    pub fn new(
        alloc: Global,
        workload: &Workload,
        _places: u32,
        rack: Rack,
    ) -> Result<World, NoMemory>
        requires least { 1 ≤ _places }
        requires most { _places ≤ 1024 }
        requires whole { are_whole ⟦<dyn Controller as Controller>⟧ rack.slots.items ≡ true }
        requires clear { AreClear ⟦<dyn Controller as Controller>⟧ rack.slots.items }
        ensures stands { IfOk result (λ world. Stands world (steps.open_world workload.now)) }
        ensures runs { IfOk result (λ world. Runs ⟦<dyn Controller as Controller>⟧ workload.now world) }
        ensures goes_on { IfOk result (λ world. words.is_finished world ≡ false) }
    {
        let servers = Servers::new(alloc, workload, rack)?;
        let links = open_links(alloc, workload)?;
        let times = Times::new(alloc, workload.sites as usize + 2)?;
        Ok(World {
            servers,
            links,
            times,
            finished: false,
        })
    }

    /// Lets a server hear a letter that is on no link any more.
    fn step(
        &mut self,
        alloc: Global,
        workload: &Workload,
        pick: Pick,
        letter: &Letter,
    ) -> Result<(), NoMemory>
        requires links { AreLinks (workload.now.sites + 2) self.old.links }
        requires live { Live ⟦<dyn Controller as Controller>⟧ workload.now self.old }
        requires server { pick.server < workload.now.sites + 2 }
        requires from { pick.from < workload.now.sites + 2 }
        requires clock { letter.now.clock ≤ all_steps self.old.times.journals.items }
        requires few { words.steps_of self.old < 1000000000 }
        ensures stands { OnOk result ((s : steps.World) → Stands self.old s → Stands self.new (steps.take_letter workload.now s pick.server pick.from letter.now (steps.link s.links pick.server pick.from))) }
        ensures live { OnOk result (Live ⟦<dyn Controller as Controller>⟧ workload.now self.new) }
        ensures links { AreLinks (workload.now.sites + 2) self.new.links }
        ensures finished { self.new.finished ≡ self.old.finished }
        ensures steps { OnOk result (words.steps_of self.new ≤ words.steps_of self.old + 1) }
    {
        let clock = self.times.next(pick.server, letter.clock);
        let outs = self
            .servers
            .hear(alloc, workload, pick.server, pick.from, letter)?;
        let session = self.servers.session_of(pick.server);
        let step = Step {
            clock,
            from: pick.from,
        };
        self.times.note(pick.server, step)?;
        post_all(alloc, &mut self.links, pick.server, session, clock, &outs)
    }

    /// Lets a server take the front letter of a link, if there is one. False exactly where there is none.
    fn take(&mut self, alloc: Global, workload: &Workload, pick: Pick) -> Result<bool, NoMemory>
        requires links { AreLinks (workload.now.sites + 2) self.old.links }
        requires live { Live ⟦<dyn Controller as Controller>⟧ workload.now self.old }
        requires server { pick.server < workload.now.sites + 2 }
        requires from { pick.from < workload.now.sites + 2 }
        requires few { words.steps_of self.old < 1000000000 }
        ensures found { IfOk result (λ found. (s : steps.World) → Stands self.old s → found ≡ steps.finds s pick) }
        ensures stands { OnOk result ((s : steps.World) → Stands self.old s → Stands self.new (steps.pick workload.now s pick)) }
        ensures live { OnOk result (Live ⟦<dyn Controller as Controller>⟧ workload.now self.new) }
        ensures links { AreLinks (workload.now.sites + 2) self.new.links }
        ensures finished { self.new.finished ≡ self.old.finished }
        ensures steps { OnOk result (words.steps_of self.new ≤ words.steps_of self.old + 1) }
    {
        match self.links.pop(pick.server, pick.from) {
            None => Ok(false),
            Some(letter) => {
                self.step(alloc, workload, pick, &letter)?;
                Ok(true)
            }
        }
    }

    /// Lets a server take the front letter of the link from another, both by number: it changes its state and its clock, notes the step in
    /// its journal, and sends what the letter makes it send. False exactly where no letter is on the link; then nothing changes. The
    /// workload has to be that of the world, and no server may have taken 1,000,000,000 steps.
    ///
    /// After want of memory the world is finished: each later pick answers NoMemory. There is no other error.
    pub fn pick(&mut self, alloc: Global, workload: &Workload, pick: Pick) -> Result<bool, NoMemory>
        requires runs { Runs ⟦<dyn Controller as Controller>⟧ workload.now self.old }
        requires server { pick.server < workload.now.sites + 2 }
        requires from { pick.from < workload.now.sites + 2 }
        requires few { words.steps_of self.old < 1000000000 }
        ensures found { IfOk result (λ found. (s : steps.World) → Stands self.old s → found ≡ steps.finds s pick) }
        ensures stands { OnOk result ((s : steps.World) → Stands self.old s → Stands self.new (steps.pick workload.now s pick)) }
        ensures runs { Runs ⟦<dyn Controller as Controller>⟧ workload.now self.new }
        ensures steps { OnOk result (words.steps_of self.new ≤ words.steps_of self.old + 1) }
        ensures before { OnOk result (words.is_finished self.old ≡ false) }
        ensures after { OnOk result (words.is_finished self.new ≡ false) }
        ensures finished { OnErr result (words.is_finished self.new ≡ true) }
    {
        if self.finished {
            return Err(NoMemory);
        }
        self.finished = true;
        let found = self.take(alloc, workload, pick)?;
        self.finished = false;
        Ok(found)
    }

    /// The most steps that one server has taken. Takes no memory.
    pub fn steps(&self) -> u64
        ensures is { result ≡ words.steps_of self.now }
        ensures told { (s : steps.World) → Stands self.now s → result ≡ words.most_steps s.journals }
    {
        self.times.most() as u64
    }

    /// A pick that finds a letter; None exactly where all links are empty. It is that of the least server that has one, and for it of the
    /// least sender. Takes no memory.
    pub fn first(&self) -> Option<Pick>
        requires { (w : Workload) × Runs ⟦<dyn Controller as Controller>⟧ w self.now }
        ensures servers { IfSome result (λ p. (w : Workload) → Runs ⟦<dyn Controller as Controller>⟧ w self.now → (p.server < w.sites + 2) × (p.from < w.sites + 2)) }
        ensures finds { IfSome result (λ p. (s : steps.World) → Stands self.now s → steps.finds s p ≡ true) }
        ensures first { IfSome result (λ p. (s : steps.World) → Stands self.now s → IsFirst s.links (p.server, p.from)) }
        ensures idle { (s : steps.World) → Stands self.now s → is_none result ≡ steps.is_idle s }
    {
        let (server, from) = self.links.first()?;
        Some(Pick {
            server: server as u16,
            from: from as u16,
        })
    }

    /// What is told of the world: the history, its serial order, each item's final value, and all copies. The workload has to be that of
    /// the world, and the world not finished; while no server has taken more than 1,000,000,000 steps the entries can be numbered. Want of
    /// memory is the only error.
    pub fn report(&self, alloc: Global, workload: &Workload) -> Result<Report, NoMemory>
        requires runs { Runs ⟦<dyn Controller as Controller>⟧ workload.now self.now }
        requires goes_on { words.is_finished self.now ≡ false }
        ensures is { IfOk result (λ report. (s : steps.World) → Stands self.now s → report ≡ steps.report workload.now s.servers) }
        ensures short { IfOk result (λ report. words.steps_of self.now ≤ 1000000000 → length report.entries < 4294967295) }
    {
        let report = self.servers.report(alloc, workload)?;
        Ok(report)
    }

    /// The rack that it was made with: all controllers are back in it and cleared; but those for `once` that were taken are dropped. The
    /// world must not be finished. Takes no memory.
    pub fn close(self) -> Rack
        requires runs { (w : Workload) × Runs ⟦<dyn Controller as Controller>⟧ w self }
        requires goes_on { words.is_finished self ≡ false }
        ensures whole { are_whole ⟦<dyn Controller as Controller>⟧ result.slots.items ≡ true }
        ensures clear { AreClear ⟦<dyn Controller as Controller>⟧ result.slots.items }
    {
        let servers = self.servers;
        servers.close()
    }

    /// Whether it was refused memory.
    pub fn is_finished(&self) -> bool
        ensures { result ≡ words.is_finished self.now }
    {
        self.finished
    }
}
