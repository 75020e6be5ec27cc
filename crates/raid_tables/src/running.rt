ghost use Rattle.std.specs.Prelude.{◌≡◌, ◌==◌, ℕ, ◌<◌, not, Bool, true, false, List, [], ◌∷◌, ◌++◌, map, filter, count_by, length, vec_len, vec_capacity, IfOk, OnOk, slice_index};
ghost use Rattle.raid_base.specs.declared.names.Txn.{Txn};
ghost use Rattle.raid_base.specs.Names.{is_txn};
ghost use Rattle.raid_base.specs.declared.entry.Entry.TheVariants as entries;
ghost use Rattle.raid_base.specs.declared.entry.Noted.{Noted};
ghost use Rattle.raid_rules.specs.Entries.{is_read};
ghost use Rattle.raid_rules.specs.History.{has_ended, stamp as stamp_in};
ghost use Rattle.raid_control.specs.Carried.{carried};
ghost use Rattle.raid_tables.specs.Rows.{row_of, HasRoom};
ghost use Rattle.raid_tables.specs.Running.{marked, entry_of, noted_of, left_stale, KnowsRunning, HasRunningRoom, Ends};

use crate::places::{at, grow};
use crate::rows::{push_in, reserve_from, row, spare_row};
use raid_base::{Entry, Item, NoMemory, Noted, Site, Txn};
use raid_control::Carry;
use std::alloc::Global;

/// An item that was read, and the number of the Read.
#[derive(Clone, Copy, Debug)]
pub struct Seen {
    pub item: Item,
    pub number: u32,
}

/// What a start is: a Begin at a home, or a Read of an item at a site.
#[derive(Clone, Copy, Debug)]
pub enum Started {
    Begin(Site),
    Read(Item, Site),
}

/// A Begin or a Read, with its number and its transaction's stamp. It is small, where an [`Entry`] has room for the largest one.
#[derive(Clone, Copy, Debug)]
pub struct Start {
    pub number: u32,
    pub stamp: u32,
    pub txn: Txn,
    pub what: Started,
}

/// What the transactions that haven't ended have done: the items that each has read, and its Begin; and for all transactions whether
/// they have ended.
///
/// The Begins and Reads also stand in a log, in order. Those of ended transactions are taken out once they are the larger part of it,
/// so that an entry costs the same however long the history is.
#[derive(Drop, Debug)]
pub struct Running {
    alloc: Global,
    ended: Vec<bool>,
    begins: Vec<u32>,
    reads: Vec<Vec<Seen>>,
    spare: Vec<Vec<Seen>>,
    log: Vec<Start>,
    stale: usize,
}

/// Whether the transaction's flag is set.
fn is_marked(ended: &[bool], txn: Txn) -> bool
    ensures { result ≡ marked ended.now txn }
{
    at(ended, txn.0 as usize, false)
}

/// Whether the start is of a transaction without a flag.
fn is_live(ended: &[bool], start: &Start) -> bool
    ensures { result ≡ not (marked ended.now start.now.txn) }
{
    !is_marked(ended, start.txn)
}

/// Whether the start is a Read of a transaction without a flag.
fn is_live_read(ended: &[bool], start: &Start) -> bool
    ensures { result ≡ is_read (λ t x s. not (marked ended.now t)) (entry_of start.now.txn start.now.what) }
{
    match start.what {
        Started::Begin(_) => false,
        Started::Read(..) => is_live(ended, start),
    }
}

/// The entry of a start.
fn entry(txn: Txn, what: Started) -> Entry
    ensures { result ≡ entry_of txn what }
{
    match what {
        Started::Begin(home) => Entry::Begin { txn, home },
        Started::Read(item, site) => Entry::Read { txn, item, site },
    }
}

/// The start as it is carried.
fn noted(start: Start) -> Noted
    ensures { result ≡ noted_of start }
{
    Noted {
        at: start.number,
        stamp: start.stamp,
        entry: entry(start.txn, start.what),
    }
}

/// Takes out of the log all but the starts of transactions without a flag.
fn drop_stale(log: &mut Vec<Start>, ended: &[bool])
    ensures { log.new.items ≡ filter (λ s. not (marked ended.now s.txn)) log.old.items }
{
    log.retain(|start| is_live(ended, start));
}

/// Carries the starts of transactions without a flag.
fn carry_live(alloc: Global, log: &[Start], ended: &[bool]) -> Result<Carry, NoMemory>
    ensures { IfOk result (λ c. c ≡ map noted_of (filter (λ s. not (marked ended.now s.txn)) log.now)) }
{
    let mut carry = Carry::new(alloc);
    for start in log {
        if is_live(ended, start) {
            carry.push(noted(*start))?;
        }
    }
    Ok(carry)
}

/// How many of the Reads are of transactions without a flag.
fn count_live_reads(log: &[Start], ended: &[bool]) -> usize
    ensures { result ≡ count_by (λ s. is_read (λ t x site. not (marked ended.now t)) (entry_of s.txn s.what)) log.now }
{
    let mut count = 0;
    for start in log {
        if is_live_read(ended, start) {
            count += 1;
        }
    }
    count
}

/// Takes out the Reads of a transaction that ends, and keeps their memory for another where there is room for it. It answers how many
/// there were.
fn forget(alloc: Global, reads: &mut Vec<Vec<Seen>>, spare: &mut Vec<Vec<Seen>>, txn: Txn) -> usize
    ensures emptied { row_of reads.new.items txn.0 ≡ [] }
    ensures others { (u : Txn) → is_txn txn u ≡ false → row_of reads.new.items u.0 ≡ row_of reads.old.items u.0 }
    ensures count { result ≡ length (row_of reads.old.items txn.0) }
{
    let place = txn.0 as usize;
    if reads.len() <= place {
        return 0;
    }
    spare_row(alloc, reads, spare, place)
}

/// Thins out the log where its larger part is stale, and answers how many stale starts are left there at most. It stays what it was for
/// transactions without a flag.
fn thin_out(log: &mut Vec<Start>, ended: &[bool], stale: usize) -> usize
    ensures stale { result ≡ left_stale stale (vec_len log.old) }
    ensures live { (test : Txn → Bool) → ((t : Txn) → test t ≡ true → marked ended.now t ≡ false) → filter (λ s. test s.txn) log.new.items ≡ filter (λ s. test s.txn) log.old.items }
{
    if stale <= log.len() / 2 {
        return stale;
    }
    drop_stale(log, ended);
    0
}

impl Running {
    /// The table of the empty view, with room for so many transactions at first. It answers for all transactions.
    pub fn new(alloc: Global, transactions: u32) -> Result<Running, NoMemory>
        ensures { IfOk result (λ r. KnowsRunning r []) }
    {
        let places = transactions as usize + 1;
        let ended = Vec::with_capacity(alloc, places)?;
        let begins = Vec::with_capacity(alloc, places)?;
        let reads = Vec::with_capacity(alloc, places)?;
        Ok(Running {
            alloc,
            ended,
            begins,
            reads,
            spare: Vec::new(alloc),
            log: Vec::new(alloc),
            stale: 0,
        })
    }

    /// Whether the transaction has ended.
    pub fn has_ended(&self, txn: Txn) -> bool
        ensures is { result ≡ marked self.now.ended.items txn }
        ensures says { (view : List Noted) → KnowsRunning self.now view → result ≡ has_ended view txn }
    {
        is_marked(&self.ended, txn)
    }

    /// The number of the transaction's Begin, 0 where the view has none.
    pub fn began(&self, txn: Txn) -> u32
        ensures { (view : List Noted) → KnowsRunning self.now view → result ≡ stamp_in view txn }
    {
        at(&self.begins, txn.0 as usize, 0)
    }

    /// What the transaction has read, in order; of one that has ended nothing is promised.
    pub fn reads(&self, txn: Txn) -> &[Seen]
        ensures { result.now ≡ row_of self.now.reads.items txn.0 }
    {
        row(&self.reads, txn.0 as usize)
    }

    /// The Begins and Reads of the transactions that haven't ended.
    pub fn carry(&self, alloc: Global) -> Result<Carry, NoMemory>
        ensures { IfOk result (λ c. (view : List Noted) → KnowsRunning self.now view → c ≡ carried view) }
    {
        carry_live(alloc, self.log.as_slice(), self.ended.as_slice())
    }

    /// How many Reads there are of transactions that haven't ended.
    pub fn kept(&self) -> usize
        ensures { (view : List Noted) → KnowsRunning self.now view → result ≡ count_by (λ n. is_read (λ t x s. not (has_ended view t)) n.entry) view }
    {
        count_live_reads(self.log.as_slice(), self.ended.as_slice())
    }

    fn reserve_begin(&mut self, txn: Txn) -> Result<(), NoMemory>
        ensures ok { OnOk result ((txn.0 < vec_len self.new.begins) × (vec_len self.new.log < vec_capacity self.new.log)) }
        ensures same { (view : List Noted) → KnowsRunning self.old view → KnowsRunning self.new view }
    {
        grow(&mut self.begins, txn.0 as usize, 0)?;
        self.log.reserve(1)?;
        Ok(())
    }

    fn reserve_read(&mut self, txn: Txn) -> Result<(), NoMemory>
        ensures ok { OnOk result (HasRoom self.new.reads.items txn.0 × (vec_len self.new.log < vec_capacity self.new.log)) }
        ensures same { (view : List Noted) → KnowsRunning self.old view → KnowsRunning self.new view }
    {
        reserve_from(self.alloc, &mut self.reads, &mut self.spare, txn.0 as usize)?;
        self.log.reserve(1)?;
        Ok(())
    }

    fn reserve_end(&mut self, txn: Txn) -> Result<(), NoMemory>
        ensures ok { OnOk result (txn.0 < vec_len self.new.ended) }
        ensures same { (view : List Noted) → KnowsRunning self.old view → KnowsRunning self.new view }
    {
        grow(&mut self.ended, txn.0 as usize, false)?;
        self.spare.reserve(1)?;
        Ok(())
    }

    /// Takes the memory for noting the entry. No answer changes, also after want of memory.
    pub fn reserve(&mut self, entry: &Entry) -> Result<(), NoMemory>
        ensures ok { OnOk result (HasRunningRoom self.new entry.now) }
        ensures same { (view : List Noted) → KnowsRunning self.old view → KnowsRunning self.new view }
    {
        match entry {
            Entry::Begin { txn, .. } => self.reserve_begin(*txn),
            Entry::Read { txn, .. } => self.reserve_read(*txn),
            Entry::Commit { txn, .. } | Entry::Abort { txn, .. } => self.reserve_end(*txn),
            Entry::Wait { .. }
            | Entry::Ack { .. }
            | Entry::SwitchOn { .. }
            | Entry::SwitchEnd { .. }
            | Entry::Down { .. }
            | Entry::Up { .. }
            | Entry::Clear { .. } => Ok(()),
        }
    }

    fn note_begin(&mut self, number: u32, stamp: u32, txn: Txn, home: Site)
        requires place { txn.0 < vec_len self.old.begins }
        requires room { vec_len self.old.log < vec_capacity self.old.log }
        ensures { (view : List Noted) → KnowsRunning self.old view → KnowsRunning self.new (view ++ record { at = number; stamp = stamp; entry = entries.Begin txn home } ∷ []) }
    {
        self.begins[txn.0 as usize] = number;
        self.log.push_reserved(Start {
            number,
            stamp,
            txn,
            what: Started::Begin(home),
        });
    }

    fn note_read(&mut self, number: u32, stamp: u32, txn: Txn, item: Item, site: Site)
        requires row { HasRoom self.old.reads.items txn.0 }
        requires room { vec_len self.old.log < vec_capacity self.old.log }
        ensures { (view : List Noted) → KnowsRunning self.old view → KnowsRunning self.new (view ++ record { at = number; stamp = stamp; entry = entries.Read txn item site } ∷ []) }
    {
        push_in(&mut self.reads, txn.0 as usize, Seen { item, number });
        self.log.push_reserved(Start {
            number,
            stamp,
            txn,
            what: Started::Read(item, site),
        });
    }

    fn note_end(&mut self, txn: Txn)
        requires place { txn.0 < vec_len self.old.ended }
        ensures { Ends self.old self.new txn }
    {
        self.ended[txn.0 as usize] = true;
        let count = forget(self.alloc, &mut self.reads, &mut self.spare, txn);
        let stale = self.stale.saturating_add(count).saturating_add(1);
        self.stale = thin_out(&mut self.log, &self.ended, stale);
    }

    /// Adds an entry to each view that the table knows.
    pub fn note(&mut self, number: u32, stamp: u32, entry: &Entry)
        requires room { HasRunningRoom self.old entry.now }
        ensures { (view : List Noted) → KnowsRunning self.old view → KnowsRunning self.new (view ++ record { at = number; stamp = stamp; entry = entry.now } ∷ []) }
    {
        match entry {
            Entry::Begin { txn, home } => self.note_begin(number, stamp, *txn, *home),
            Entry::Read { txn, item, site } => self.note_read(number, stamp, *txn, *item, *site),
            Entry::Commit { txn, .. } => self.note_end(*txn),
            Entry::Abort { txn, .. } => self.note_end(*txn),
            Entry::Wait { .. }
            | Entry::Ack { .. }
            | Entry::SwitchOn { .. }
            | Entry::SwitchEnd { .. }
            | Entry::Down { .. }
            | Entry::Up { .. }
            | Entry::Clear { .. } => {}
        }
    }

    /// Forgets all: it knows the empty view.
    pub fn clear(&mut self)
        ensures { KnowsRunning self.new [] }
    {
        self.ended.clear();
        self.begins.clear();
        self.reads.clear();
        self.spare.clear();
        self.log.clear();
        self.stale = 0;
    }
}
