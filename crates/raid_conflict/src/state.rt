ghost use Rattle.std.specs.Prelude.{◌≡◌, ◌<◌, ◌≤◌, max, ℕ, List, [], ◌∷◌, ◌++◌, All, vec_len, IfOk, OnOk, OnErr};
ghost use Rattle.raid_base.specs.declared.entry.Noted.{Noted};
ghost use Rattle.raid_conflict.specs.Listed.{noted_as};
ghost use Rattle.raid_conflict.specs.Live as live;
ghost use Rattle.raid_conflict.specs.Live.{Stands, Within};
ghost use Rattle.raid_conflict.specs.Tables as words;

use crate::running::{self, Running};
use crate::tables::Tables;
use raid_base::{Entry, NoMemory};
use std::alloc::Global;

/// What a graph knows of the list: the tables, and who runs.
#[derive(Drop, Debug)]
pub struct State {
    pub tables: Tables,
    pub running: Running,
}

impl State {
    /// That of the empty list, with room for so many transactions and items.
    pub fn new(alloc: Global, transactions: u32, items: u32) -> Result<State, NoMemory>
        ensures stands { IfOk result (λ g. Stands g []) }
        ensures few { IfOk result (λ g. vec_len g.tables.own ≡ 0) }
        ensures none { IfOk result (λ g. g.running.list.items ≡ []) }
    {
        let tables = Tables::new(alloc, transactions, items)?;
        let running = Running::new(alloc);
        Ok(State { tables, running })
    }

    /// Notes an entry under its number. After want of memory the state stands for what it stood for.
    pub fn note(&mut self, at: u32, entry: &Entry) -> Result<(), NoMemory>
        ensures ok { OnOk result ((view : List Noted) (stamp : ℕ) → Stands self.old view → All (λ m. m.at < at) view → Stands self.new (view ++ noted_as at stamp entry.now ∷ [])) }
        ensures err { OnErr result ((view : List Noted) → Stands self.old view → Stands self.new view) }
        ensures few { vec_len self.new.tables.own ≤ max (vec_len self.old.tables.own) (words.places_of entry.now) }
        ensures within { (places : ℕ) → Within places self.old.running.list.items → live.place_of entry.now < places → Within places self.new.running.list.items }
    {
        self.running.make_room(running::place_of(entry))?;
        self.tables.note(at, entry)?;
        self.running.note(entry);
        Ok(())
    }

    /// Forgets all entries.
    pub fn clear(&mut self)
        ensures stands { Stands self.new [] }
        ensures few { vec_len self.new.tables.own ≡ 0 }
        ensures none { self.new.running.list.items ≡ [] }
    {
        self.tables.clear();
        self.running.clear();
    }
}
