ghost use Rattle.std.specs.Prelude.{◌≡◌, ◌≤◌, ◌<◌, ◌∷◌, ◌++◌, ◌↔◌, ◌+◌, ◌&&◌, ◌==◌, nat_lt, not, true, false, [], length, IsTrue, IfOk, OnOk};
ghost use Rattle.raid_workload.specs.declared.workload.Workload.{Workload};
ghost use Rattle.raid_rules.specs.History as rules;
ghost use Rattle.raid_rules.specs.Sessions as sessions;
ghost use Rattle.raid_legal.specs.Seen as seen;
ghost use Rattle.raid_legal.specs.Legal as words;
ghost use Rattle.raid_legal.specs.Legal.{Allowed};
ghost use Rattle.raid_seen.specs.Tables.{AreValues, AreReadings, AreOutages};
ghost use Rattle.raid_record.specs.Keeps.{Stands};
ghost use Rattle.raid_record.specs.Tells.{Suits};
ghost use Rattle.raid_check.specs.Replay.{AreOf};

use crate::sites::{due, has_site};
use raid_base::{Cause, Duplicate, Entry, Item, NoMemory, Pairs, Request, Site, Txn};
use raid_conflict::Graph;
use raid_decide::homes::is_up;
use raid_faillock::FailLocks;
use raid_history::History;
use raid_record::{Left, Nexts, homes, notes};
use raid_seen::{Outages, Readings, Values, courses};
use raid_waits::Waits;
use raid_workload::{Workload, placement};
use std::alloc::Global;

/// A legal history, with all that is kept of it. After want of memory in a call that changes them, nothing is said of tables.
#[derive(Drop, Debug)]
pub struct Tables {
    pub history: History,
    /// The conflict graph of the whole history.
    pub graph: Graph,
    pub locks: FailLocks,
    pub waits: Waits,
    pub nexts: Nexts,
    pub left: Left,
    pub values: Values,
    pub readings: Readings,
    pub outages: Outages,
}

impl Tables {
    /// The tables before any entry.
    pub fn new(alloc: Global, workload: &Workload) -> Result<Tables, NoMemory>
        ensures of { IfOk result (λ t. AreOf workload.now t) }
        ensures start { IfOk result (λ t. t.history ≡ []) }
    {
        let programs = workload.programs.len() as u32;
        let items = workload.items.len() as u32;
        let placement = placement(alloc, workload)?;
        let history = History::new(alloc, programs, items)?;
        let graph = Graph::new(alloc, programs, items)?;
        let locks = FailLocks::new(alloc, &placement, workload.sites)?;
        let nexts = Nexts::new(alloc, workload, &history)?;
        let values = Values::new(alloc, workload)?;
        Ok(Tables {
            history,
            graph,
            locks,
            waits: Waits::new(alloc),
            nexts,
            left: Left::new(alloc),
            values,
            readings: Readings::new(alloc),
            outages: Outages::new(alloc),
        })
    }

    /// All but the history note the entry that comes next.
    fn keep(&mut self, alloc: Global, workload: &Workload, entry: &Entry) -> Result<(), NoMemory>
        requires of { AreOf workload.now self.old }
        requires suits { Suits workload.now (rules.noted self.old.history) entry.now }
        requires short { length self.old.history < 4294967295 }
        ensures history { self.new.history ≡ self.old.history }
        ensures kept { OnOk result (Stands workload.now self.new.graph self.new.locks self.new.waits self.new.nexts self.new.left (rules.add (rules.noted self.old.history) entry.now)) }
        ensures values { OnOk result (AreValues workload.now self.new.values (rules.add (rules.noted self.old.history) entry.now)) }
        ensures readings { OnOk result (AreReadings workload.now self.new.readings (rules.add (rules.noted self.old.history) entry.now)) }
        ensures outages { OnOk result (AreOutages self.new.outages (rules.add (rules.noted self.old.history) entry.now)) }
    {
        let number = self.history.len() + 1;
        let stamp = notes::stamp_of(&self.history, number, entry);
        self.graph.note(number, stamp, entry)?;
        self.locks.note(entry)?;
        notes::turn_waits(&mut self.waits, alloc, entry)?;
        notes::turn_left(&mut self.left, workload, entry)?;
        notes::turn_nexts(&mut self.nexts, workload, &self.history, entry);
        self.outages.turn(number, entry)?;
        self.readings.turn(&self.values, number, entry)?;
        self.values.turn(entry)
    }

    /// Notes the entry that comes next, which has to be allowed.
    pub fn note(
        &mut self,
        alloc: Global,
        workload: &Workload,
        entry: &Entry,
    ) -> Result<(), NoMemory>
        requires of { AreOf workload.now self.old }
        requires allowed { Allowed workload.now (rules.noted self.old.history) entry.now }
        requires short { length self.old.history < 4294967295 }
        ensures of { OnOk result (AreOf workload.now self.new) }
        ensures history { OnOk result (self.new.history ≡ self.old.history ++ entry.now ∷ []) }
    {
        self.keep(alloc, workload, entry)?;
        let own = entry.copy(alloc)?;
        self.history.push(own)
    }

    /// Whether the transaction may ask for something: it runs, and doesn't wait.
    pub fn is_free(&self, txn: Txn) -> bool
        ensures { (w : Workload) → AreOf w self.now → result ≡ words.is_free (rules.noted self.now.history) txn }
    {
        self.history.is_running(txn) && !self.waits.is_waiting(txn)
    }

    /// Whether the site is up. Site 0, which isn't one, is taken for site 1.
    pub fn is_up(&self, site: Site) -> bool
        ensures { (w : Workload) → AreOf w self.now → result ≡ seen.is_up w (rules.noted self.now.history) site }
    {
        is_up(self.locks.vector(), site)
    }

    /// Whether the transaction may begin: it is one of the workload's and hasn't begun, its home is up, and it is what its home begins
    /// next or a new attempt that is due.
    pub fn may_begin(&self, workload: &Workload, txn: Txn) -> bool
        ensures { AreOf workload.now self.now → result ≡ words.may_begin workload.now (rules.noted self.now.history) txn }
    {
        if !homes::is_known(workload, txn) || self.history.stamp(txn) > 0 {
            return false;
        }
        let home = homes::home(workload, txn);
        self.is_up(home) && (self.nexts.is_next(home, txn) || self.left.is_again(workload, txn))
    }

    /// Whether a transaction that runs may ask for the item: its program wants it, or the value that was granted may be lost.
    pub fn is_asked(
        &self,
        alloc: Global,
        workload: &Workload,
        txn: Txn,
        item: Item,
    ) -> Result<bool, NoMemory>
        requires of { AreOf workload.now self.now }
        requires running { rules.is_running (rules.noted self.now.history) txn ≡ true }
        ensures { IfOk result (λ b. b ≡ words.is_asked workload.now (rules.noted self.now.history) txn item) }
    {
        let asked = courses::is_asked(alloc, workload, &self.readings, &self.outages, txn, item)?;
        Ok(asked)
    }

    /// Whether the request is what the program of a transaction that runs makes of what the transaction has seen.
    pub fn makes(
        &self,
        alloc: Global,
        workload: &Workload,
        txn: Txn,
        request: &Request,
    ) -> Result<bool, NoMemory>
        requires of { AreOf workload.now self.now }
        requires running { rules.is_running (rules.noted self.now.history) txn ≡ true }
        ensures { IfOk result (λ b. IsTrue b ↔ words.Makes workload.now (rules.noted self.now.history) txn request.now) }
    {
        let makes = courses::makes(alloc, workload, &self.readings, txn, request)?;
        Ok(makes)
    }

    /// Whether that program itself ends in an abort with this cause, having read these.
    pub fn ends_so(
        &self,
        alloc: Global,
        workload: &Workload,
        txn: Txn,
        cause: Cause,
        reads: &Pairs,
    ) -> Result<bool, NoMemory>
        requires of { AreOf workload.now self.now }
        requires running { rules.is_running (rules.noted self.now.history) txn ≡ true }
        ensures { IfOk result (λ b. IsTrue b ↔ words.EndsSo workload.now (rules.noted self.now.history) txn cause reads.now) }
    {
        let ends = courses::ends_so(alloc, workload, &self.readings, txn, cause, reads)?;
        Ok(ends)
    }

    /// Whether the site owes the acknowledgement of the transaction's Commit.
    pub fn owes(&self, workload: &Workload, site: Site, txn: Txn) -> bool
        requires { AreOf workload.now self.now }
        ensures { result ≡ sessions.owes (rules.noted self.now.history) site txn }
    {
        if !has_site(workload, site) {
            return false;
        }
        self.locks.owes(site, txn)
    }

    /// Whether a stop of the site is due that hasn't come.
    fn is_stop_due(&self, workload: &Workload, site: Site) -> bool
        requires { AreOf workload.now self.now }
        ensures { result ≡ nat_lt (words.downs (rules.noted self.now.history) site) (words.due workload.now (rules.noted self.now.history) true site) }
    {
        let ends = self.history.ends();
        let due = due(workload, true, site, ends);
        let outage = self.outages.get(site);
        (outage.downs as usize) < due
    }

    /// Whether a return of it is.
    fn is_return_due(&self, workload: &Workload, site: Site) -> bool
        requires { AreOf workload.now self.now }
        ensures { result ≡ nat_lt (words.ups (rules.noted self.now.history) site) (words.due workload.now (rules.noted self.now.history) false site) }
    {
        let ends = self.history.ends();
        let due = due(workload, false, site, ends);
        let outage = self.outages.get(site);
        (outage.ups as usize) < due
    }

    /// Whether the session follows the site's last one.
    fn is_next_session(&self, workload: &Workload, site: Site, session: u32) -> bool
        requires { AreOf workload.now self.now }
        ensures { result ≡ (session == sessions.last_session (rules.noted self.now.history) site + 1) }
    {
        session > 0 && session - 1 == self.outages.get(site).session
    }

    /// Whether the site may go down: it is up, and a stop of it is due that hasn't come.
    pub fn may_go_down(&self, workload: &Workload, site: Site) -> bool
        requires { AreOf workload.now self.now }
        ensures { result ≡ (seen.is_up workload.now (rules.noted self.now.history) site && nat_lt (words.downs (rules.noted self.now.history) site) (words.due workload.now (rules.noted self.now.history) true site)) }
    {
        self.is_up(site) && self.is_stop_due(workload, site)
    }

    /// Whether the site may come up in the session: it is down, the session follows its last one, and a return of it is due that hasn't come.
    pub fn may_come_up(&self, workload: &Workload, site: Site, session: u32) -> bool
        requires { AreOf workload.now self.now }
        ensures { result ≡ (not (seen.is_up workload.now (rules.noted self.now.history) site) && session == sessions.last_session (rules.noted self.now.history) site + 1 && nat_lt (words.ups (rules.noted self.now.history) site) (words.due workload.now (rules.noted self.now.history) false site)) }
    {
        if self.is_up(site) || !self.is_next_session(workload, site, session) {
            return false;
        }
        self.is_return_due(workload, site)
    }

    /// Whether the site holds a copy of the item, and it is locked.
    pub fn is_locked(&self, workload: &Workload, site: Site, item: Item) -> bool
        requires { AreOf workload.now self.now }
        ensures { result ≡ seen.is_locked workload.now (rules.noted self.now.history) site item }
    {
        if !has_site(workload, site) {
            return false;
        }
        self.locks.is_locked(site, item)
    }

    /// Whether the site's copy of the item may be unlocked at the version: the site is up, the copy is locked, and the version is the
    /// item's.
    pub fn may_clear(&self, workload: &Workload, site: Site, item: Item, version: u32) -> bool
        requires { AreOf workload.now self.now }
        ensures { result ≡ (seen.is_up workload.now (rules.noted self.now.history) site && seen.is_locked workload.now (rules.noted self.now.history) site item && version == rules.version (rules.noted self.now.history) item) }
    {
        if !self.is_up(site) || !self.is_locked(workload, site, item) {
            return false;
        }
        version == self.history.version_of(item)
    }
}
