ghost use Rattle.std.specs.Prelude.{◌≡◌, ◌==◌, ◌&&◌, ℕ, ◌≤◌, not, List, [], ◌∷◌, ◌++◌, filter, IfOk, OnOk, vec_len, vec_capacity, if◌then◌else◌};
ghost use Rattle.std.specs.List.{list_any};
ghost use Rattle.raid_base.specs.Names.{is_txn};
ghost use Rattle.raid_base.specs.declared.entry.Entry.TheVariants as entries;
ghost use Rattle.raid_base.specs.declared.entry.Noted.{Noted};
ghost use Rattle.raid_rules.specs.Verdicts.{is_held, is_blocked_by};
ghost use Rattle.raid_tables.specs.Rows.{row_of, HasRoom};
ghost use Rattle.raid_tables.specs.Running.{marked, KnowsRunning};
ghost use Rattle.raid_tables.specs.Readers.{KnowsReaders, HasReaderRoom};

use crate::rows::{reserve_in, row};
use crate::running::Running;
use raid_base::{Entry, Item, NoMemory, Site, Txn};
use std::alloc::Global;

/// For each item the running transactions that have read it: the read locks.
///
/// Those that have ended are taken out of an item's row when it gets its next reader, so a row is never much longer than there are
/// readers at one time.
#[derive(Drop, Debug)]
pub struct Readers {
    alloc: Global,
    rows: Vec<Vec<Txn>>,
}

/// Whether a transaction of the row, not ended, is another than the writer.
fn has_other(row: &[Txn], running: &Running, writer: Txn) -> bool
    ensures { result ≡ list_any (λ t. not (is_txn writer t) && not (marked running.now.ended.items t)) row.now }
{
    row.iter().any(|t| *t != writer && !running.has_ended(*t))
}

/// Whether the row of an item of the pairs has such a transaction.
fn any_has_other(rows: &[Vec<Txn>], running: &Running, writer: Txn, pairs: &[(Item, i64)]) -> bool
    ensures { result ≡ list_any (λ p. list_any (λ t. not (is_txn writer t) && not (marked running.now.ended.items t)) (row_of rows.now p.0.0)) pairs.now }
{
    pairs.iter().any(|(item, _)| has_other(row(rows, item.0 as usize), running, writer))
}

/// Whether the row has the transaction.
fn has_reader(row: &[Txn], reader: Txn) -> bool
    ensures { result ≡ list_any (is_txn reader) row.now }
{
    row.iter().any(|t| *t == reader)
}

/// Whether the row of an item of the pairs has the transaction.
fn any_has_reader(rows: &[Vec<Txn>], reader: Txn, pairs: &[(Item, i64)]) -> bool
    ensures { result ≡ list_any (λ p. list_any (is_txn reader) (row_of rows.now p.0.0)) pairs.now }
{
    pairs
        .iter()
        .any(|(item, _)| has_reader(row(rows, item.0 as usize), reader))
}

/// Takes out of the row the transactions that have ended.
fn drop_ended(row: &mut Vec<Txn>, running: &Running)
    ensures items { row.new.items ≡ filter (λ t. not (marked running.now.ended.items t)) row.old.items }
    ensures shorter { vec_len row.new ≤ vec_len row.old }
    ensures capacity { vec_capacity row.new ≡ vec_capacity row.old }
{
    row.retain(|t| !running.has_ended(*t));
}

/// Adds the transaction to a row that has room, and takes out those that have ended.
fn add_reader(rows: &mut Vec<Vec<Txn>>, running: &Running, item: Item, txn: Txn)
    requires room { HasRoom rows.old.items item.0 }
    ensures { (k : ℕ) → row_of rows.new.items k ≡ (if k == item.0 then filter (λ t. not (marked running.now.ended.items t)) (row_of rows.old.items k) ++ txn ∷ [] else row_of rows.old.items k) }
{
    let row = &mut rows[item.0 as usize];
    drop_ended(row, running);
    row.push_reserved(txn);
}

impl Readers {
    /// The table of the empty view, with room for so many items at first. It answers for all items.
    pub fn new(alloc: Global, items: u32) -> Result<Readers, NoMemory>
        ensures { IfOk result (λ r. KnowsReaders r []) }
    {
        let rows = Vec::with_capacity(alloc, items as usize)?;
        Ok(Readers { alloc, rows })
    }

    /// Whether a running transaction other than the writer has read one of the items.
    pub fn is_held(&self, running: &Running, writer: Txn, writes: &[(Item, i64)]) -> bool
        ensures { (view : List Noted) → KnowsRunning running.now view → KnowsReaders self.now view → result ≡ is_held view writer writes.now }
    {
        any_has_other(&self.rows, running, writer, writes)
    }

    /// Whether the reader is such a transaction.
    pub fn is_blocked_by(
        &self,
        running: &Running,
        reader: Txn,
        writer: Txn,
        writes: &[(Item, i64)],
    ) -> bool
        ensures { (view : List Noted) → KnowsRunning running.now view → KnowsReaders self.now view → result ≡ is_blocked_by reader view writer writes.now }
    {
        reader != writer && !running.has_ended(reader) && any_has_reader(&self.rows, reader, writes)
    }

    /// Takes the memory for noting the entry. No answer changes, also after want of memory.
    pub fn reserve(&mut self, entry: &Entry) -> Result<(), NoMemory>
        ensures ok { OnOk result (HasReaderRoom self.new entry.now) }
        ensures same { (view : List Noted) → KnowsReaders self.old view → KnowsReaders self.new view }
    {
        match entry {
            Entry::Read { item, .. } => reserve_in(self.alloc, &mut self.rows, item.0 as usize),
            _ => Ok(()),
        }
    }

    /// Notes a Read.
    fn note_read(
        &mut self,
        running: &Running,
        number: u32,
        stamp: u32,
        txn: Txn,
        item: Item,
        site: Site,
    )
        requires room { HasRoom self.old.rows.items item.0 }
        ensures { (view : List Noted) → KnowsRunning running.now view → KnowsReaders self.old view → KnowsReaders self.new (view ++ record { at = number; stamp = stamp; entry = entries.Read txn item site } ∷ []) }
    {
        add_reader(&mut self.rows, running, item, txn);
    }

    /// Adds an entry to each view that the table knows and the running transactions are known of.
    pub fn note(&mut self, running: &Running, number: u32, stamp: u32, entry: &Entry)
        requires room { HasReaderRoom self.old entry.now }
        ensures { (view : List Noted) → KnowsRunning running.now view → KnowsReaders self.old view → KnowsReaders self.new (view ++ record { at = number; stamp = stamp; entry = entry.now } ∷ []) }
    {
        if let Entry::Read { txn, item, site } = entry {
            self.note_read(running, number, stamp, *txn, *item, *site);
        }
    }

    /// Forgets all: it knows the empty view.
    pub fn clear(&mut self)
        ensures { KnowsReaders self.new [] }
    {
        self.rows.clear();
    }
}
