ghost use Rattle.std.specs.Prelude.{◌≡◌, ◌≤◌, ◌<◌, ℕ, true, not, List, [], ◌∷◌, ◌++◌, filter, length, IfOk, OnOk};
ghost use Rattle.raid_base.specs.declared.entry.Entry.{Entry};
ghost use Rattle.raid_workload.specs.declared.workload.Workload.{Workload};
ghost use Rattle.raid_rules.specs.History as rules;
ghost use Rattle.raid_legal.specs.Seen as seen;
ghost use Rattle.raid_legal.specs.Legal as legal;
ghost use Rattle.raid_faillock.specs.Stands.{names_sites, is_of_sites};
ghost use Rattle.raid_copier.specs.Copiers as ways;
ghost use Rattle.raid_steps.specs.State.{Copying, Out, Turn, Sequencer};
ghost use Rattle.raid_steps.specs.Sequencer as sequencer;
ghost use Rattle.raid_steps.specs.World.{first_servers};
ghost use Rattle.raid_placed.specs.Placed.{Placeable};
ghost use Rattle.raid_record.specs.Keeps.{Stands};
ghost use Rattle.raid_record.specs.Tells.{IsKept, Tells, Turns, Suits};

use crate::announced::Announced;
use crate::homes::{self, Nexts};
use crate::left::Left;
use crate::sends::{self, session_of};
use crate::{copies, notes};
use raid_base::{Entry, Item, NoMemory, Site, Txn};
use raid_conflict::Graph;
use raid_copier::Copiers;
use raid_faillock::FailLocks;
use raid_history::History;
use raid_message::{Message, Outs};
use raid_waits::Waits;
use raid_workload::{Workload, placement};
use std::alloc::Global;

/// The sequencer's history, with all that is kept of it. After want of memory in a call that changes it, nothing is said of a record.
#[derive(Drop, Debug)]
pub struct Record {
    pub history: History,
    /// The conflict graph of the whole history.
    pub graph: Graph,
    pub locks: FailLocks,
    pub waits: Waits,
    pub nexts: Nexts,
    pub left: Left,
    /// The copies that are under way.
    pub copiers: Copiers,
    pub announced: Announced,
}

impl Record {
    /// The record of the sequencer before any letter.
    pub fn new(alloc: Global, workload: &Workload) -> Result<Record, NoMemory>
        ensures { IfOk result (λ r. Tells workload.now r (first_servers workload.now).sequencer) }
    {
        let programs = workload.programs.len() as u32;
        let items = workload.items.len() as u32;
        let placement = placement(alloc, workload)?;
        let history = History::new(alloc, programs, items)?;
        let graph = Graph::new(alloc, programs, items)?;
        let locks = FailLocks::new(alloc, &placement, workload.sites)?;
        let nexts = Nexts::new(alloc, workload, &history)?;
        Ok(Record {
            history,
            graph,
            locks,
            waits: Waits::new(alloc),
            nexts,
            left: Left::new(alloc),
            copiers: Copiers::new(alloc),
            announced: Announced::new(workload.sites),
        })
    }

    /// The tables note the entry that comes next.
    fn note(&mut self, alloc: Global, workload: &Workload, entry: &Entry) -> Result<(), NoMemory>
        requires tables { Stands workload.now self.old.graph self.old.locks self.old.waits self.old.nexts self.old.left (rules.noted self.old.history) }
        requires suits { Suits workload.now (rules.noted self.old.history) entry.now }
        requires short { length self.old.history < 4294967295 }
        ensures history { self.new.history ≡ self.old.history }
        ensures announced { self.new.announced ≡ self.old.announced }
        ensures tables { OnOk result (Stands workload.now self.new.graph self.new.locks self.new.waits self.new.nexts self.new.left (rules.add (rules.noted self.old.history) entry.now)) }
        ensures copying { OnOk result ((out : List Copying) → ways.Stands self.old.copiers out → ways.Stands self.new.copiers (filter (λ c. not (sequencer.ends_copying entry.now c)) out)) }
    {
        let number = self.history.len() + 1;
        let stamp = notes::stamp_of(&self.history, number, entry);
        self.graph.note(number, stamp, entry)?;
        self.locks.note(entry)?;
        notes::turn_waits(&mut self.waits, alloc, entry)?;
        notes::turn_left(&mut self.left, workload, entry)?;
        notes::turn_nexts(&mut self.nexts, workload, &self.history, entry);
        notes::turn_copiers(&mut self.copiers, entry);
        Ok(())
    }

    /// Places the entry and sends what it sends; `ask` is the number of the ask that it answers, 0 where it answers none.
    pub fn place(
        &mut self,
        alloc: Global,
        workload: &Workload,
        ask: u32,
        entry: Entry,
        outs: &mut Outs,
    ) -> Result<(), NoMemory>
        requires kept { IsKept workload.now self.old }
        requires placeable { Placeable workload.now (rules.noted self.old.history) entry }
        requires sites { names_sites workload.now.sites entry ≡ true }
        requires short { length self.old.history < 4294967295 }
        ensures history { OnOk result (self.new.history ≡ self.old.history ++ entry ∷ []) }
        ensures kept { OnOk result (IsKept workload.now self.new) }
        ensures turns { OnOk result (Turns workload.now self.old outs.old self.new outs.new (λ turn. sequencer.place workload.now ask turn entry)) }
    {
        self.note(alloc, workload, &entry)?;
        let number = self.history.len() + 1;
        let vector = self.locks.vector();
        sends::sends(workload, vector, &self.nexts, number, ask, &entry, outs)?;
        self.history.push(entry)
    }

    /// Sends for each copy at an up site that is to be renewed: locked, with a source, and not under way. Looks only at the
    /// copies of sites that have a locked one.
    pub fn send_copies(&mut self, workload: &Workload, outs: &mut Outs) -> Result<(), NoMemory>
        ensures kept { (w : Workload) → IsKept w self.old → IsKept w self.new }
        ensures history { self.new.history ≡ self.old.history }
        ensures turns { OnOk result (Turns workload.now self.old outs.old self.new outs.new (sequencer.send_copies workload.now)) }
    {
        if !self.locks.is_any_locked() {
            return Ok(());
        }
        let vector = self.locks.vector();
        copies::renew_all(workload, &self.locks, &mut self.copiers, vector, outs)
    }

    /// Tells the monitor how many transactions have ended, where that is more than it was before.
    pub fn send_ends(&self, before: u32, outs: &mut Outs) -> Result<(), NoMemory>
        ensures { OnOk result ((w : Workload) → Turns w self.now outs.old self.now outs.new (sequencer.send_ends before)) }
    {
        let count = self.history.ends();
        if before < count {
            return outs.push((0, 0, Message::Ends { count }));
        }
        Ok(())
    }

    /// The end of a session of the site is announced.
    pub fn announce(&mut self, site: Site, session: u32)
        requires { is_of_sites (length self.old.announced) site ≡ true }
        ensures kept { (w : Workload) → IsKept w self.old → IsKept w self.new }
        ensures history { self.new.history ≡ self.old.history }
        ensures turns { (w : Workload) (outs : List Out) → Turns w self.old outs self.new outs (λ turn. sequencer.announce turn site session) }
    {
        self.announced.announce(site, session);
    }

    /// The largest session of the site whose end was announced, 0 where none was.
    pub fn announced(&self, site: Site) -> u32
        requires { 1 ≤ site.0 }
        ensures { (w : Workload) (turn : Turn Sequencer) → Tells w self.now turn.state → result ≡ sequencer.announced turn site }
    {
        self.announced.session(site)
    }

    /// No copy of the item is under way to the site any longer.
    pub fn close_copy(&mut self, site: Site, item: Item)
        requires least { 1 ≤ site.0 }
        requires most { site.0 ≤ 8 }
        ensures kept { (w : Workload) → IsKept w self.old → IsKept w self.new }
        ensures history { self.new.history ≡ self.old.history }
        ensures turns { (w : Workload) (outs : List Out) → Turns w self.old outs self.new outs (λ turn. sequencer.close turn site item) }
    {
        self.copiers.close(site, item);
    }

    /// Whether the transaction may ask for something: it runs, and doesn't wait.
    pub fn is_free(&self, txn: Txn) -> bool
        ensures { (w : Workload) → IsKept w self.now → result ≡ legal.is_free (rules.noted self.now.history) txn }
    {
        self.history.is_running(txn) && !self.waits.is_waiting(txn)
    }

    /// Whether the site is up. Site 0, which isn't one, is taken for site 1.
    pub fn is_up(&self, site: Site) -> bool
        ensures { (w : Workload) → IsKept w self.now → result ≡ seen.is_up w (rules.noted self.now.history) site }
    {
        session_of(self.locks.vector(), site) > 0
    }

    /// Whether the transaction may begin: it is one of the workload's and hasn't begun, its home is up, and it is what its home begins
    /// next or a new attempt that is due.
    pub fn may_begin(&self, workload: &Workload, txn: Txn) -> bool
        ensures { IsKept workload.now self.now → result ≡ legal.may_begin workload.now (rules.noted self.now.history) txn }
    {
        if !homes::is_known(workload, txn) || self.history.stamp(txn) > 0 {
            return false;
        }
        let home = homes::home(workload, txn);
        self.is_up(home) && (self.nexts.is_next(home, txn) || self.left.is_again(workload, txn))
    }
}
