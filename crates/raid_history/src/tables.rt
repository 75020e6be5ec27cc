ghost use Rattle.std.specs.Prelude.{◌≡◌, ◌<◌, ◌≤◌, ◌+◌, ◌||◌, not, nat_lt, ◌^◌, true, ℕ, List, ◌∷◌, [], ◌++◌, filter, length, vec_len, slice_index_or, slice_index, All, IfOk, OnOk, OnErr, if◌then◌else◌};
ghost use Rattle.raid_base.specs.declared.names.Txn.{Txn};
ghost use Rattle.raid_base.specs.declared.names.Item.{Item};
ghost use Rattle.raid_base.specs.Names.{is_txn, has_txn, holds};
ghost use Rattle.raid_base.specs.declared.entry.Noted.{Noted};
ghost use Rattle.raid_rules.specs.History.{add};
ghost use Rattle.raid_history.specs.Tables.{row, version_in, AnswersAlike, Begins, Ends, Stands, may_follow, placed};

use raid_base::{Entry, Item, NoMemory, Pairs, Txn, TxnList};
use std::alloc::Global;

/// What is known of a transaction: its stamp, 0 where it hasn't begun, and whether it is running.
#[derive(Clone, Copy, Debug)]
pub struct Row {
    pub stamp: u32,
    pub runs: bool,
}

impl Row {
    /// The row of a transaction that hasn't begun.
    const BLANK: Row = Row {
        stamp: 0,
        runs: false,
    };
}

/// The tables of a history: a row for each transaction, by number; the version of each item, by number; the
/// running transactions, ascending; and the count of ends.
#[derive(Drop, Debug)]
pub struct Tables {
    pub rows: Vec<Row>,
    pub versions: Vec<u32>,
    pub running: TxnList,
    pub ends: u32,
    pub alloc: Global,
}

/// Makes a place in a table, which is blank where it is new. After want of memory too the table says what it said.
fn grow<T: Copy + Drop>(table: &mut Vec<T>, place: usize, blank: T) -> Result<(), NoMemory>
    ensures ok { OnOk result (place < vec_len table.new) }
    ensures same { (k : ℕ) → slice_index_or table.new.items k blank ≡ slice_index_or table.old.items k blank }
    ensures longer { vec_len table.old ≤ vec_len table.new }
{
    while table.len() <= place {
        table.push(blank)?;
    }
    Ok(())
}

/// Makes a place for each of the items.
fn grow_all(versions: &mut Vec<u32>, writes: &[(Item, i64)]) -> Result<(), NoMemory>
    ensures ok { OnOk result (All (λ w. w.0.0 < vec_len versions.new) writes.now) }
    ensures same { (k : ℕ) → slice_index versions.new.items k ≡ slice_index versions.old.items k }
{
    for (item, _) in writes {
        grow(versions, item.0 as usize, 0)?;
    }
    Ok(())
}

/// Makes the number the version of each of the items.
fn raise_all(versions: &mut Vec<u32>, writes: &[(Item, i64)], number: u32)
    requires { All (λ w. w.0.0 < vec_len versions.old) writes.now }
    ensures { (x : Item) → slice_index versions.new.items x.0 ≡ (if holds x writes.now then number else slice_index versions.old.items x.0) }
{
    for (item, _) in writes {
        versions[item.0 as usize] = number;
    }
}

/// Adds those of the transactions that have smaller numbers.
fn push_below(list: &mut TxnList, txns: &[Txn], txn: Txn) -> Result<(), NoMemory>
    ensures { OnOk result (list.new ≡ list.old ++ filter (λ u. nat_lt u.0 txn.0) txns.now) }
{
    for other in txns {
        if other.0 < txn.0 {
            list.push(*other)?;
        }
    }
    Ok(())
}

/// Adds those of the transactions that have larger numbers.
fn push_above(list: &mut TxnList, txns: &[Txn], txn: Txn) -> Result<(), NoMemory>
    ensures { OnOk result (list.new ≡ list.old ++ filter (λ u. nat_lt txn.0 u.0) txns.now) }
{
    for other in txns {
        if txn.0 < other.0 {
            list.push(*other)?;
        }
    }
    Ok(())
}

/// The list with the transaction in its place.
fn with(alloc: Global, txns: &TxnList, txn: Txn) -> Result<TxnList, NoMemory>
    ensures { IfOk result (λ list. list ≡ placed txns.now txn) }
{
    let mut list = TxnList::new(alloc);
    push_below(&mut list, txns.as_slice(), txn)?;
    list.push(txn)?;
    push_above(&mut list, txns.as_slice(), txn)?;
    Ok(list)
}

/// The list without the transaction.
fn without(alloc: Global, txns: &TxnList, txn: Txn) -> Result<TxnList, NoMemory>
    ensures { IfOk result (λ list. list ≡ filter (λ u. not (is_txn txn u)) txns.now) }
{
    let mut list = TxnList::new(alloc);
    for other in txns.as_slice() {
        if *other != txn {
            list.push(*other)?;
        }
    }
    Ok(list)
}

impl Tables {
    /// The tables of the empty history, with room for so many transactions and items.
    pub fn new(alloc: Global, transactions: u32, items: u32) -> Result<Tables, NoMemory>
        ensures { IfOk result (λ t. Stands t []) }
    {
        let rows = Vec::with_capacity(alloc, transactions as usize + 1)?;
        let versions = Vec::with_capacity(alloc, items as usize)?;
        Ok(Tables {
            rows,
            versions,
            running: TxnList::new(alloc),
            ends: 0,
            alloc,
        })
    }

    /// The transaction's row, blank where there is none.
    pub fn row(&self, txn: Txn) -> Row
        ensures { result ≡ row self.now txn }
    {
        let place = txn.0 as usize;
        if place < self.rows.len() {
            self.rows[place]
        } else {
            Row::BLANK
        }
    }

    /// The item's version, 0 where there is none.
    pub fn version(&self, item: Item) -> u32
        ensures { result ≡ version_in self.now item }
    {
        let place = item.0 as usize;
        if place < self.versions.len() {
            self.versions[place]
        } else {
            0
        }
    }

    /// Notes that the transaction begins with the entry of this number. After want of memory the tables say what
    /// they said.
    fn begin(&mut self, txn: Txn, number: u32) -> Result<(), NoMemory>
        ensures ok { OnOk result (Begins self.old self.new txn number) }
        ensures err { OnErr result (AnswersAlike self.old self.new) }
    {
        let place = txn.0 as usize;
        grow(&mut self.rows, place, Row::BLANK)?;
        let running = with(self.alloc, &self.running, txn)?;
        self.rows[place] = Row {
            stamp: number,
            runs: true,
        };
        self.running = running;
        Ok(())
    }

    /// Notes that the transaction ends. After want of memory the tables say what they said.
    fn end(&mut self, txn: Txn) -> Result<(), NoMemory>
        requires { self.old.ends + 1 < 2 ^ 32 }
        ensures ok { OnOk result (Ends self.old self.new txn) }
        ensures err { OnErr result (AnswersAlike self.old self.new) }
        ensures versions { self.new.versions ≡ self.old.versions }
    {
        let place = txn.0 as usize;
        grow(&mut self.rows, place, Row::BLANK)?;
        let running = without(self.alloc, &self.running, txn)?;
        self.rows[place].runs = false;
        self.running = running;
        self.ends += 1;
        Ok(())
    }

    /// Notes that the transaction commits with the entry of this number. After want of memory the tables say what
    /// they said.
    fn commit(&mut self, txn: Txn, number: u32, writes: &Pairs) -> Result<(), NoMemory>
        requires { self.old.ends + 1 < 2 ^ 32 }
        ensures ok { OnOk result (Ends self.old self.new txn) }
        ensures versions { OnOk result ((x : Item) → version_in self.new x ≡ (if holds x writes.now then number else version_in self.old x)) }
        ensures err { OnErr result (AnswersAlike self.old self.new) }
    {
        grow_all(&mut self.versions, writes.as_slice())?;
        self.end(txn)?;
        raise_all(&mut self.versions, writes.as_slice(), number);
        Ok(())
    }

    /// Notes the entry that comes next, which has this number. After want of memory the tables say what they said.
    pub fn note(&mut self, number: u32, entry: &Entry) -> Result<(), NoMemory>
        requires { self.old.ends + 1 < 2 ^ 32 }
        ensures ok { OnOk result ((p : List Noted) → Stands self.old p → number ≡ length p + 1 → may_follow p entry.now ≡ true → Stands self.new (add p entry.now)) }
        ensures err { OnErr result ((p : List Noted) → Stands self.old p → Stands self.new p) }
    {
        match entry {
            Entry::Begin { txn, .. } => self.begin(*txn, number),
            Entry::Commit { txn, request, .. } => self.commit(*txn, number, &request.writes),
            Entry::Abort { txn, .. } => self.end(*txn),
            Entry::Read { .. }
            | Entry::Wait { .. }
            | Entry::Ack { .. }
            | Entry::SwitchOn { .. }
            | Entry::SwitchEnd { .. }
            | Entry::Down { .. }
            | Entry::Up { .. }
            | Entry::Clear { .. } => Ok(()),
        }
    }
}
