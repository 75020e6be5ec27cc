ghost use Rattle.std.specs.Prelude.{◌≡◌, ◌≤◌, ◌<◌, ◌+◌, true, List, ◌∷◌, ◌++◌, [], ◌==◌, ◌&&◌, None, Some, IfOk, OnOk};
ghost use Rattle.raid_base.specs.declared.entry.Entry.{Entry};
ghost use Rattle.raid_rules.specs.History.{noted};
ghost use Rattle.raid_legal.specs.Answers as answers;
ghost use Rattle.raid_legal.specs.Forced as words;
ghost use Rattle.raid_base.specs.declared.names.Site.{Site};
ghost use Rattle.raid_legal.specs.Legal.{is_free};
ghost use Rattle.raid_legal.specs.Seen.{is_up, is_locked, vector};
ghost use Rattle.raid_base.specs.Sites as sites;
ghost use Rattle.raid_rules.specs.History as rules;
ghost use Rattle.raid_rules.specs.Sessions.{owes};
ghost use Rattle.raid_faillock.specs.Stands.{names_sites, is_of_sites};
ghost use Rattle.raid_steps.specs.State.{Turn, Out, Sequencer};
ghost use Rattle.raid_steps.specs.Sequencer as steps;
ghost use Rattle.raid_placed.specs.Placed.{Placeable, to_force};
ghost use Rattle.raid_record.specs.Tells.{Turns};
ghost use Rattle.raid_sequencer.specs.Kept.{IsKept};
ghost use Rattle.raid_sequencer.specs.Extent.{extent};

use raid_base::{Entry, Item, NoMemory, Request, Site, Txn};
use raid_control::Controller;
use raid_decide::asked::{answer_to_commit, answer_to_read};
use raid_decide::forced::forced;
use raid_force::Force;
use raid_message::Outs;
use raid_record::Record;
use raid_record::notes::stamp_of;
use raid_record::sends::session_of;
use raid_workload::Workload;
use std::alloc::Global;

/// What the sequencer decides from: its history with all that is kept of it, and the controllers in force.
#[derive(Drop)]
pub struct Parts {
    pub record: Record,
    pub force: Force,
}

impl Parts {
    /// The entry that must come next, if one must. What the core stands for stays, after want of memory too.
    fn forced(&mut self, alloc: Global, workload: &Workload) -> Result<Option<Entry>, NoMemory>
        requires kept { IsKept ⟦<dyn Controller as Controller>⟧ workload.now self.old }
        ensures is { IfOk result (λ e. e ≡ words.forced workload.now (noted self.old.record.history)) }
        ensures kept { IsKept ⟦<dyn Controller as Controller>⟧ workload.now self.new }
        ensures history { self.new.record.history ≡ self.old.record.history }
        ensures turns { (outs : List Out) → Turns workload.now self.old.record outs self.new.record outs (λ turn. turn) }
    {
        let Record {
            history,
            graph,
            locks,
            waits,
            ..
        } = &mut self.record;
        let force = &mut self.force;
        forced(
            alloc,
            workload,
            history,
            locks,
            waits,
            graph,
            &mut force.eras,
            &force.off,
            force.switches,
        )
    }

    /// Places an entry that may come next, and sends what it sends; `ask` is the number of the ask that it answers, 0 where it answers
    /// none. Nothing is said of the core after want of memory.
    pub fn place(
        &mut self,
        alloc: Global,
        workload: &Workload,
        ask: u32,
        entry: Entry,
        outs: &mut Outs,
    ) -> Result<(), NoMemory>
        requires kept { IsKept ⟦<dyn Controller as Controller>⟧ workload.now self.old }
        requires placeable { Placeable workload.now (noted self.old.record.history) entry }
        requires sites { names_sites workload.now.sites entry ≡ true }
        requires room { extent workload.now self.old.record.history < 4294967295 }
        ensures kept { OnOk result (IsKept ⟦<dyn Controller as Controller>⟧ workload.now self.new) }
        ensures history { OnOk result (self.new.record.history ≡ self.old.record.history ++ entry ∷ []) }
        ensures turns { OnOk result (Turns workload.now self.old.record outs.old self.new.record outs.new (λ turn. steps.place workload.now ask turn entry)) }
        ensures extent { OnOk result (extent workload.now self.new.record.history ≤ extent workload.now self.old.record.history + 1) }
    {
        let number = self.record.history.len() + 1;
        let stamp = stamp_of(&self.record.history, number, &entry);
        let history = &self.record.history;
        self.force
            .note(alloc, workload, history, number, stamp, &entry)?;
        self.record.place(alloc, workload, ask, entry, outs)?;
        Ok(())
    }

    /// Places a forced entry.
    fn place_forced(
        &mut self,
        alloc: Global,
        workload: &Workload,
        entry: Entry,
        outs: &mut Outs,
    ) -> Result<(), NoMemory>
        requires kept { IsKept ⟦<dyn Controller as Controller>⟧ workload.now self.old }
        requires forced { words.forced workload.now (noted self.old.record.history) ≡ Some entry }
        requires room { extent workload.now self.old.record.history < 4294967295 }
        ensures kept { OnOk result (IsKept ⟦<dyn Controller as Controller>⟧ workload.now self.new) }
        ensures turns { OnOk result (Turns workload.now self.old.record outs.old self.new.record outs.new (λ turn. steps.place workload.now 0 turn entry)) }
        ensures placed { OnOk result (self.new.record.history ≡ self.old.record.history ++ entry ∷ []) }
        ensures falls { OnOk result (to_force workload.now (noted self.new.record.history) < to_force workload.now (noted self.old.record.history)) }
        ensures extent { OnOk result (extent workload.now self.new.record.history ≤ extent workload.now self.old.record.history) }
    {
        self.place(alloc, workload, 0, entry, outs)?;
        Ok(())
    }

    /// Places all forced entries, one after the other, until none is forced.
    pub fn settle(
        &mut self,
        alloc: Global,
        workload: &Workload,
        outs: &mut Outs,
    ) -> Result<(), NoMemory>
        requires kept { IsKept ⟦<dyn Controller as Controller>⟧ workload.now self.old }
        requires room { extent workload.now self.old.record.history < 4294967295 }
        ensures kept { OnOk result (IsKept ⟦<dyn Controller as Controller>⟧ workload.now self.new) }
        ensures quiet { OnOk result (words.forced workload.now (noted self.new.record.history) ≡ None) }
        ensures turns { OnOk result (Turns workload.now self.old.record outs.old self.new.record outs.new (steps.settle workload.now)) }
        ensures still { OnOk result ((s : Site) → is_up workload.now (noted self.new.record.history) s ≡ is_up workload.now (noted self.old.record.history) s) }
        ensures extent { OnOk result (extent workload.now self.new.record.history ≤ extent workload.now self.old.record.history) }
    {
        while let Some(entry) = self.forced(alloc, workload)? {
            self.place_forced(alloc, workload, entry, outs)?;
        }
        Ok(())
    }

    /// The answer to a read of a transaction that may ask. What the core stands for stays. Takes no memory.
    pub fn answer_to_read(&mut self, workload: &Workload, txn: Txn, item: Item) -> Entry
        requires kept { IsKept ⟦<dyn Controller as Controller>⟧ workload.now self.old }
        requires free { is_free (noted self.old.record.history) txn ≡ true }
        ensures is { result ≡ answers.answer_read workload.now (noted self.old.record.history) txn item }
        ensures kept { IsKept ⟦<dyn Controller as Controller>⟧ workload.now self.new }
        ensures record { self.new.record ≡ self.old.record }
    {
        let Record { history, locks, .. } = &self.record;
        answer_to_read(workload, history, locks, &mut self.force.eras, txn, item)
    }

    /// The answer to a commit request of a transaction that may ask, with a copy of the request. What the core stands for stays, after want
    /// of memory too.
    pub fn answer_to_commit(
        &mut self,
        alloc: Global,
        workload: &Workload,
        txn: Txn,
        request: &Request,
    ) -> Result<Option<Entry>, NoMemory>
        requires kept { IsKept ⟦<dyn Controller as Controller>⟧ workload.now self.old }
        requires free { is_free (noted self.old.record.history) txn ≡ true }
        ensures is { IfOk result (λ e. e ≡ answers.answer_commit workload.now (noted self.old.record.history) txn request.now) }
        ensures kept { IsKept ⟦<dyn Controller as Controller>⟧ workload.now self.new }
        ensures history { self.new.record.history ≡ self.old.record.history }
        ensures turns { (outs : List Out) → Turns workload.now self.old.record outs self.new.record outs (λ turn. turn) }
    {
        let Record {
            history,
            locks,
            waits,
            ..
        } = &mut self.record;
        let eras = &mut self.force.eras;
        answer_to_commit(alloc, workload, history, locks, waits, eras, txn, request)
    }

    /// Sends for the copies that are to be renewed.
    pub fn send_copies(&mut self, workload: &Workload, outs: &mut Outs) -> Result<(), NoMemory>
        requires kept { IsKept ⟦<dyn Controller as Controller>⟧ workload.now self.old }
        ensures kept { OnOk result (IsKept ⟦<dyn Controller as Controller>⟧ workload.now self.new) }
        ensures history { OnOk result (self.new.record.history ≡ self.old.record.history) }
        ensures turns { OnOk result (Turns workload.now self.old.record outs.old self.new.record outs.new (steps.send_copies workload.now)) }
    {
        self.record.send_copies(workload, outs)?;
        Ok(())
    }

    /// The end of a session of the site is announced.
    pub fn announce(&mut self, workload: &Workload, site: Site, session: u32)
        requires kept { IsKept ⟦<dyn Controller as Controller>⟧ workload.now self.old }
        requires site { is_of_sites workload.now.sites site ≡ true }
        ensures kept { IsKept ⟦<dyn Controller as Controller>⟧ workload.now self.new }
        ensures history { self.new.record.history ≡ self.old.record.history }
        ensures turns { (outs : List Out) → Turns workload.now self.old.record outs self.new.record outs (λ turn. steps.announce turn site session) }
    {
        self.record.announce(site, session);
    }

    /// No copy of the item is under way to the site any longer.
    pub fn close_copy(&mut self, workload: &Workload, site: Site, item: Item)
        requires kept { IsKept ⟦<dyn Controller as Controller>⟧ workload.now self.old }
        requires site { is_of_sites workload.now.sites site ≡ true }
        ensures kept { IsKept ⟦<dyn Controller as Controller>⟧ workload.now self.new }
        ensures history { self.new.record.history ≡ self.old.record.history }
        ensures turns { (outs : List Out) → Turns workload.now self.old.record outs self.new.record outs (λ turn. steps.close turn site item) }
    {
        self.record.close_copy(site, item);
    }

    /// Whether the site owes the transaction's acknowledgement.
    pub fn owes(&self, workload: &Workload, site: Site, txn: Txn) -> bool
        requires kept { IsKept ⟦<dyn Controller as Controller>⟧ workload.now self.now }
        requires site { is_of_sites workload.now.sites site ≡ true }
        ensures { result ≡ owes (noted self.now.record.history) site txn }
    {
        self.record.locks.owes(site, txn)
    }

    /// Whether the site's copy of the item is locked, and the version is the item's.
    pub fn may_clear(&self, workload: &Workload, site: Site, item: Item, version: u32) -> bool
        requires kept { IsKept ⟦<dyn Controller as Controller>⟧ workload.now self.now }
        requires site { is_of_sites workload.now.sites site ≡ true }
        ensures { result ≡ (is_locked workload.now (noted self.now.record.history) site item && version == rules.version (noted self.now.record.history) item) }
    {
        let is_current = version == self.record.history.version_of(item);
        self.record.locks.is_locked(site, item) && is_current
    }

    /// The session of the site, 0 where it is down.
    pub fn session(&self, workload: &Workload, site: Site) -> u32
        requires kept { IsKept ⟦<dyn Controller as Controller>⟧ workload.now self.now }
        ensures { result ≡ sites.session (vector workload.now (noted self.now.record.history)) site }
    {
        session_of(self.record.locks.vector(), site)
    }

    /// Whether the site is up in the session.
    pub fn is_in(&self, workload: &Workload, site: Site, session: u32) -> bool
        requires kept { IsKept ⟦<dyn Controller as Controller>⟧ workload.now self.now }
        ensures { result ≡ (is_up workload.now (noted self.now.record.history) site && sites.session (vector workload.now (noted self.now.record.history)) site == session) }
    {
        let is_same = self.session(workload, site) == session;
        self.record.is_up(site) && is_same
    }
}
