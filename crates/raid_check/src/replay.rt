ghost use Rattle.std.specs.Prelude.{◌≡◌, ◌<◌, ◌∷◌, ◌++◌, ◌↔◌, true, false, [], length, None, IsTrue, IfOk, OnOk};
ghost use Rattle.raid_force.specs.Lasting.{AreClear, are_whole};
ghost use Rattle.raid_rules.specs.History.{noted};
ghost use Rattle.raid_legal.specs.Forced as words;
ghost use Rattle.raid_legal.specs.Legal.{Allowed};
ghost use Rattle.raid_check.specs.Finding.{IsFirstIllegal};
ghost use Rattle.raid_check.specs.Replay.{Stands, Takes};

use crate::allowed::may_come;
use crate::tables::Tables;
use raid_base::{Entry, NoMemory};
use raid_control::{Controller, Rack};
use raid_decide::forced::forced;
use raid_force::Force;
use raid_record::notes::stamp_of;
use raid_seen::same::is_same;
use raid_workload::Workload;
use std::alloc::Global;

/// A replay of a history, as far as it is legal: what is kept of the entries, and the controllers in force after them.
#[derive(Drop)]
pub struct Replay {
    pub tables: Tables,
    pub force: Force,
}

impl Replay {
    /// The replay before any entry.
    pub fn new(alloc: Global, workload: &Workload, rack: Rack) -> Result<Replay, NoMemory>
        requires whole { are_whole ⟦<dyn Controller as Controller>⟧ rack.slots.items ≡ true }
        requires clear { AreClear ⟦<dyn Controller as Controller>⟧ rack.slots.items }
        ensures stands { IfOk result (λ r. Stands ⟦<dyn Controller as Controller>⟧ workload.now r) }
        ensures start { IfOk result (λ r. r.tables.history ≡ []) }
    {
        let tables = Tables::new(alloc, workload)?;
        Ok(Replay {
            tables,
            force: Force::new(alloc, workload, rack),
        })
    }

    /// The entry that must come next, if one must.
    pub fn forced(&mut self, alloc: Global, workload: &Workload) -> Result<Option<Entry>, NoMemory>
        requires stands { Stands ⟦<dyn Controller as Controller>⟧ workload.now self.old }
        ensures is { IfOk result (λ e. e ≡ words.forced workload.now (noted self.old.tables.history)) }
        ensures stands { Stands ⟦<dyn Controller as Controller>⟧ workload.now self.new }
        ensures history { self.new.tables.history ≡ self.old.tables.history }
    {
        let Tables {
            history,
            graph,
            locks,
            waits,
            ..
        } = &mut self.tables;
        let force = &mut self.force;
        forced(
            alloc,
            workload,
            history,
            locks,
            waits,
            graph,
            &mut force.eras,
            &force.off,
            force.switches,
        )
    }

    /// Whether the entry may come next.
    fn allows(
        &mut self,
        alloc: Global,
        workload: &Workload,
        entry: &Entry,
    ) -> Result<bool, NoMemory>
        requires stands { Stands ⟦<dyn Controller as Controller>⟧ workload.now self.old }
        ensures allowed { IfOk result (λ b. IsTrue b ↔ Allowed workload.now (noted self.old.tables.history) entry.now) }
        ensures stands { Stands ⟦<dyn Controller as Controller>⟧ workload.now self.new }
        ensures history { self.new.tables.history ≡ self.old.tables.history }
    {
        match self.forced(alloc, workload)? {
            Some(must) => Ok(is_same(&must, entry)),
            None => {
                let may = may_come(self, alloc, workload, entry)?;
                Ok(may)
            }
        }
    }

    /// The entry comes next.
    fn note(&mut self, alloc: Global, workload: &Workload, entry: &Entry) -> Result<(), NoMemory>
        requires stands { Stands ⟦<dyn Controller as Controller>⟧ workload.now self.old }
        requires allowed { Allowed workload.now (noted self.old.tables.history) entry.now }
        requires short { length self.old.tables.history < 4294967295 }
        ensures stands { OnOk result (Stands ⟦<dyn Controller as Controller>⟧ workload.now self.new) }
        ensures history { OnOk result (self.new.tables.history ≡ self.old.tables.history ++ entry.now ∷ []) }
    {
        let history = &self.tables.history;
        let number = history.len() + 1;
        let stamp = stamp_of(history, number, entry);
        self.force
            .note(alloc, workload, history, number, stamp, entry)?;
        self.tables.note(alloc, workload, entry)?;
        Ok(())
    }

    /// Takes the entry, where it may come next; else the number that it would have had is answered.
    fn take(
        &mut self,
        alloc: Global,
        workload: &Workload,
        entry: &Entry,
    ) -> Result<Option<u32>, NoMemory>
        requires { Stands ⟦<dyn Controller as Controller>⟧ workload.now self.old }
        ensures stands { OnOk result (Stands ⟦<dyn Controller as Controller>⟧ workload.now self.new) }
        ensures takes { IfOk result (λ refused. Takes workload.now self.old.tables.history entry.now refused self.new.tables.history) }
    {
        let before = self.tables.history.len();
        if before == u32::MAX {
            return Err(NoMemory);
        }
        let allowed = self.allows(alloc, workload, entry)?;
        if !allowed {
            return Ok(Some(before + 1));
        }
        self.note(alloc, workload, entry)?;
        Ok(None)
    }

    /// Goes through a history, up to the first entry that isn't allowed, and answers its number; None exactly where the history is legal,
    /// and then the replay is of all of it.
    pub fn go(
        &mut self,
        alloc: Global,
        workload: &Workload,
        entries: &[Entry],
    ) -> Result<Option<u32>, NoMemory>
        requires stands { Stands ⟦<dyn Controller as Controller>⟧ workload.now self.old }
        requires start { self.old.tables.history ≡ [] }
        ensures first { IfOk result (λ first. IsFirstIllegal workload.now entries.now first) }
        ensures stands { OnOk result (Stands ⟦<dyn Controller as Controller>⟧ workload.now self.new) }
        ensures all { IfOk result (λ first. first ≡ None → self.new.tables.history ≡ entries.now) }
    {
        for entry in entries {
            if let Some(number) = self.take(alloc, workload, entry)? {
                return Ok(Some(number));
            }
        }
        Ok(None)
    }
}
