//! Transactions whose programs may be tried again.

ghost use Rattle.std.specs.Prelude.{◌≡◌, ◌≤◌, ◌<◌, ◌+◌, ◌^◌, ◌==◌, ◌&&◌, ◌||◌, max, not, true, false, ℕ, List, [], vec_len, slice_index_or, OnOk, OnErr, if◌then◌else◌};
ghost use Rattle.raid_base.specs.declared.names.Txn.{Txn};
ghost use Rattle.raid_base.specs.declared.entry.Noted.{Noted};
ghost use Rattle.raid_base.specs.Names.{is_txn, is_site};
ghost use Rattle.raid_workload.specs.Parts as parts;
ghost use Rattle.raid_legal.specs.Seen as seen;
ghost use Rattle.raid_record.specs.Keeps.{AreLeft};

use crate::homes;
use raid_base::{Cause, NoMemory, Site, Txn};
use raid_workload::Workload;
use std::alloc::Global;
use std::marker::Model;

/// Whether a transaction that is aborted so may be tried again.
pub fn is_restartable(cause: Cause) -> bool
    ensures { result ≡ seen.is_restartable cause }
{
    match cause {
        Cause::Own | Cause::Overflow | Cause::HomeDown | Cause::NoCopy => false,
        Cause::Late
        | Cause::Invalid
        | Cause::Cycle
        | Cause::Deadlock
        | Cause::SwitchOff(_)
        | Cause::Stale(_) => true,
    }
}

/// Marks of transactions, by number: those that were aborted for a cause that lets their programs be tried again, and whose homes have
/// not gone down since. Contracts see the list of the marks.
#[derive(Drop, Debug)]
pub struct Left {
    marks: Vec<bool>,
}

impl Model for Left {
    ghost use Rattle.std.specs.Prelude.{List, Bool, length, ◌≤◌, ◌^◌};

    ghost Value = { List Bool };

    ghost view = { λ l. l.marks.items };

    ghost invariant = { λ l. length l.marks.items ≤ 2 ^ 32 };
}

/// Makes a place, without a mark where it is new. After want of memory too the table says what it said.
fn grow(marks: &mut Vec<bool>, place: usize) -> Result<(), NoMemory>
    ensures few { vec_len marks.new ≤ max (vec_len marks.old) (place + 1) }
    ensures ok { OnOk result (place < vec_len marks.new) }
    ensures same { (k : ℕ) → slice_index_or marks.new.items k false ≡ slice_index_or marks.old.items k false }
{
    while marks.len() <= place {
        marks.push(false)?;
    }
    Ok(())
}

/// Whether a mark is left where the site goes down.
fn stays(workload: &Workload, mark: bool, txn: Txn, site: Site) -> bool
    ensures { result ≡ (mark && not (is_site site (parts.home workload.now txn))) }
{
    mark && homes::home(workload, txn) != site
}

/// Takes the marks of the site's transactions.
fn lose(workload: &Workload, marks: &mut Vec<bool>, site: Site)
    requires { vec_len marks.old ≤ 2 ^ 32 }
    ensures count { vec_len marks.new ≡ vec_len marks.old }
    ensures marks { (t : Txn) → slice_index_or marks.new.items t.0 false ≡ (slice_index_or marks.old.items t.0 false && not (is_site site (parts.home workload.now t))) }
{
    for k in 0..marks.len() {
        marks[k] = stays(workload, marks[k], Txn(k as u32), site);
    }
}

impl Left {
    /// No transaction is marked.
    pub fn new(alloc: Global) -> Left
        ensures { result ≡ [] }
    {
        Left {
            marks: Vec::new(alloc),
        }
    }

    /// Whether the transaction is marked.
    pub fn has(&self, txn: Txn) -> bool
        ensures { result ≡ slice_index_or self.now txn.0 false }
    {
        let place = txn.0 as usize;
        place < self.marks.len() && self.marks[place]
    }

    /// Whether the transaction is a new attempt that is due: the one before it was aborted so that its program may be tried again, and
    /// their home has stayed up since.
    pub fn is_again(&self, workload: &Workload, txn: Txn) -> bool
        ensures { (p : List Noted) → AreLeft workload.now self.now p → result ≡ seen.again workload.now p txn }
    {
        let programs = workload.programs.len() as u32;
        homes::attempt(workload, txn) > 0 && self.has(Txn(txn.0.saturating_sub(programs)))
    }

    /// A transaction is aborted: it is marked where the cause lets its program be tried again. After want of memory the same are marked.
    pub fn abort(&mut self, txn: Txn, cause: Cause) -> Result<(), NoMemory>
        ensures ok { OnOk result ((t : Txn) → slice_index_or self.new t.0 false ≡ (slice_index_or self.old t.0 false || (is_txn t txn && seen.is_restartable cause))) }
        ensures err { OnErr result ((k : ℕ) → slice_index_or self.new k false ≡ slice_index_or self.old k false) }
    {
        if is_restartable(cause) {
            let place = txn.0 as usize;
            grow(&mut self.marks, place)?;
            self.marks[place] = true;
        }
        Ok(())
    }

    /// A site goes down: the transactions that ran there are marked no longer.
    pub fn down(&mut self, workload: &Workload, site: Site)
        ensures { (t : Txn) → slice_index_or self.new t.0 false ≡ (slice_index_or self.old t.0 false && not (is_site site (parts.home workload.now t))) }
    {
        lose(workload, &mut self.marks, site);
    }
}
