ghost use Rattle.std.specs.Prelude.{◌≡◌, ◌<◌, ◌||◌, ◌&&◌, not, true, false, ℕ, ◌∷◌, [], ◌++◌, List, filter, vec_len, vec_capacity, length, OnOk};
ghost use Rattle.std.specs.Bool.{OnTrue};
ghost use Rattle.raid_base.specs.declared.names.Txn.{Txn};
ghost use Rattle.raid_base.specs.declared.entry.Noted.{Noted};
ghost use Rattle.raid_base.specs.Names.{is_txn, has_txn};
ghost use Rattle.raid_conflict.specs.Found.{is_marked};
ghost use Rattle.raid_conflict.specs.Listed.{noted_as};
ghost use Rattle.raid_conflict.specs.Live as words;
ghost use Rattle.raid_conflict.specs.Live.{Runs, Within};

use crate::{ahead, tables};
use raid_base::{Entry, NoMemory, Txn};
use raid_rules::conflict;
use std::alloc::Global;

/// Which transactions have ended, by number, and those that have begun, read or committed and have not ended.
#[derive(Drop, Debug)]
pub struct Running {
    pub ended: Vec<bool>,
    pub list: Vec<Txn>,
}

/// The number of the transaction that an entry begins, goes on with or ends, 0 where there is none.
pub fn place_of(entry: &Entry) -> usize
    ensures is { result ≡ words.place_of entry.now }
    ensures small { result < 4294967296 }
{
    match entry {
        Entry::Begin { txn, .. }
        | Entry::Read { txn, .. }
        | Entry::Commit { txn, .. }
        | Entry::Abort { txn, .. } => txn.0 as usize,
        _ => 0,
    }
}

/// Takes a transaction out of a list.
fn take_out(list: &mut Vec<Txn>, txn: Txn)
    ensures { list.new.items ≡ filter (λ u. not (is_txn txn u)) list.old.items }
{
    list.retain(|other| *other != txn);
}

impl Running {
    /// Of the empty list.
    pub fn new(alloc: Global) -> Running
        ensures runs { Runs result [] }
        ensures none { result.list.items ≡ [] }
    {
        Running {
            ended: Vec::new(alloc),
            list: Vec::new(alloc),
        }
    }

    /// Makes room for what an entry of the transaction with this number adds.
    pub fn make_room(&mut self, place: usize) -> Result<(), NoMemory>
        ensures ended { (t : Txn) → is_marked self.new.ended.items t ≡ is_marked self.old.ended.items t }
        ensures list { self.new.list.items ≡ self.old.list.items }
        ensures place { OnOk result (place < vec_len self.new.ended) }
        ensures room { OnOk result (vec_len self.new.list < vec_capacity self.new.list) }
    {
        self.list.reserve(1)?;
        tables::grow(&mut self.ended, place, false)
    }

    /// Lists a transaction that goes on, once.
    fn go_on(&mut self, txn: Txn)
        requires { vec_len self.old.list < vec_capacity self.old.list }
        ensures ended { self.new.ended.items ≡ self.old.ended.items }
        ensures list { (t : Txn) → has_txn self.new.list.items t ≡ (has_txn self.old.list.items t || (is_txn t txn && not (is_marked self.old.ended.items txn))) }
    {
        if ahead::is_left(self.ended.as_slice(), txn) {
            return;
        }
        if conflict::is_listed(self.list.as_slice(), txn) {
            return;
        }
        self.list.push_reserved(txn);
    }

    /// Marks that a transaction has ended.
    fn end(&mut self, txn: Txn)
        requires { txn.0 < vec_len self.old.ended }
        ensures ended { (t : Txn) → is_marked self.new.ended.items t ≡ (is_marked self.old.ended.items t || is_txn t txn) }
        ensures list { self.new.list.items ≡ filter (λ u. not (is_txn txn u)) self.old.list.items }
    {
        self.ended[txn.0 as usize] = true;
        take_out(&mut self.list, txn);
    }

    /// Notes an entry, for which there is room.
    pub fn note(&mut self, entry: &Entry)
        requires place { words.place_of entry.now < vec_len self.old.ended }
        requires room { vec_len self.old.list < vec_capacity self.old.list }
        ensures runs { (view : List Noted) (at stamp : ℕ) → Runs self.old view → Runs self.new (view ++ noted_as at stamp entry.now ∷ []) }
        ensures within { (places : ℕ) → Within places self.old.list.items → words.place_of entry.now < places → Within places self.new.list.items }
    {
        match entry {
            Entry::Begin { txn, .. } | Entry::Read { txn, .. } => self.go_on(*txn),
            Entry::Commit { txn, .. } | Entry::Abort { txn, .. } => self.end(*txn),
            Entry::Wait { .. }
            | Entry::Ack { .. }
            | Entry::SwitchOn { .. }
            | Entry::SwitchEnd { .. }
            | Entry::Down { .. }
            | Entry::Up { .. }
            | Entry::Clear { .. } => {}
        }
    }

    /// Forgets all.
    pub fn clear(&mut self)
        ensures runs { Runs self.new [] }
        ensures none { self.new.list.items ≡ [] }
    {
        self.ended.clear();
        self.list.clear();
    }
}
