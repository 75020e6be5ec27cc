ghost use Rattle.std.specs.Prelude.{◌≡◌, ◌==◌, nat_lt, ◌≤◌, ◌<◌, ◌-◌, ◌^◌, true, [], ◌∷◌, ◌++◌, length, slice_get, Some, AllPairs, IfOk, OnOk, OnErr};
ghost use Rattle.raid_base.specs.declared.names.Txn.{Txn};
ghost use Rattle.raid_base.specs.Names.{has_txn};
ghost use Rattle.raid_rules.specs.History as rules;
ghost use Rattle.raid_history.specs.Tables.{may_follow};

use crate::tables::Tables;
use raid_base::{Entry, Item, NoMemory, Txn, TxnList};
use std::alloc::Global;
use std::marker::Model;

/// A history: its entries, numbered from 1, and tables that answer what is asked of it. Contracts see the list of
/// its entries.
///
/// No look-up searches the entries, and none takes memory.
#[derive(Drop, Debug)]
pub struct History {
    entries: Vec<Entry>,
    tables: Tables,
}

impl Model for History {
    ghost use Rattle.std.specs.Prelude.{List, length, ◌<◌, ◌^◌};
    ghost use Rattle.raid_base.specs.declared.entry.Entry.{Entry};

    ghost Value = { List Entry };

    ghost use Rattle.raid_rules.specs.History.{noted};
    ghost use Rattle.raid_history.specs.Tables.{Stands};

    ghost view = { λ h. h.entries.items };

    ghost invariant = { λ h. (length h.entries.items < 2 ^ 32) × Stands h.tables (noted h.entries.items) };
}

impl History {
    /// The empty history, with room for so many transactions and items at first. Every call answers for all
    /// transactions and items, whatever the two numbers were.
    pub fn new(alloc: Global, transactions: u32, items: u32) -> Result<History, NoMemory>
        ensures { IfOk result (λ h. h ≡ []) }
    {
        let tables = Tables::new(alloc, transactions, items)?;
        Ok(History {
            entries: Vec::new(alloc),
            tables,
        })
    }

    /// How many entries there are: the number of the last one.
    pub fn len(&self) -> u32
        ensures { result ≡ length self.now }
    {
        self.entries.len() as u32
    }

    /// Whether there is no entry.
    pub fn is_empty(&self) -> bool
        ensures { result ≡ (length self.now == 0) }
    {
        self.entries.is_empty()
    }

    /// The entry with a number.
    pub fn entry(&self, number: u32) -> &Entry
        requires least { 1 ≤ number }
        requires most { number ≤ length self.now }
        ensures { slice_get self.now (number - 1) ≡ Some result.now }
    {
        &self.entries[number as usize - 1]
    }

    /// Whether the entry may come next: a transaction begins once, and reads, waits, commits and is aborted only
    /// while it is running.
    pub fn may_push(&self, entry: &Entry) -> bool
        ensures { result ≡ may_follow (rules.noted self.now) entry.now }
    {
        match entry {
            Entry::Begin { txn, .. } => self.stamp(*txn) == 0,
            Entry::Read { txn, .. }
            | Entry::Wait { txn, .. }
            | Entry::Commit { txn, .. }
            | Entry::Abort { txn, .. } => self.is_running(*txn),
            Entry::Ack { .. }
            | Entry::SwitchOn { .. }
            | Entry::SwitchEnd { .. }
            | Entry::Down { .. }
            | Entry::Up { .. }
            | Entry::Clear { .. } => true,
        }
    }

    /// Adds an entry at the end, where [`may_push`](History::may_push) allows it. After want of memory the history is as
    /// it was.
    pub fn push(&mut self, entry: Entry) -> Result<(), NoMemory>
        requires short { length self.old < 4294967295 }
        requires fits { may_follow (rules.noted self.old) entry ≡ true }
        ensures ok { OnOk result (self.new ≡ self.old ++ entry ∷ []) }
        ensures err { OnErr result (self.new ≡ self.old) }
    {
        let number = self.entries.len() as u32 + 1;
        self.entries.reserve(1)?;
        self.tables.note(number, &entry)?;
        self.entries.push_reserved(entry);
        Ok(())
    }

    /// Whether the transaction has begun and has not ended.
    pub fn is_running(&self, txn: Txn) -> bool
        ensures { result ≡ rules.is_running (rules.noted self.now) txn }
    {
        self.tables.row(txn).runs
    }

    /// The running transactions, each once, ascending by number.
    pub fn running(&self) -> &TxnList
        ensures has { (t : Txn) → has_txn result.now t ≡ rules.is_running (rules.noted self.now) t }
        ensures ascends { AllPairs (λ a b. a.0 < b.0) result.now }
    {
        &self.tables.running
    }

    /// The number of the transaction's Begin, 0 where it hasn't begun.
    pub fn stamp(&self, txn: Txn) -> u32
        ensures is { result ≡ rules.stamp (rules.noted self.now) txn }
        ensures begun { nat_lt 0 result ≡ rules.has_begun (rules.noted self.now) txn }
    {
        self.tables.row(txn).stamp
    }

    /// How many Commits and Aborts there are.
    pub fn ends(&self) -> u32
        ensures { result ≡ rules.ends (rules.noted self.now) }
    {
        self.tables.ends
    }

    /// The number of the last Commit that wrote the item, 0 where none did.
    pub fn version_of(&self, item: Item) -> u32
        ensures { result ≡ rules.version (rules.noted self.now) item }
    {
        self.tables.version(item)
    }
}

#[cfg(test)]
mod tests {
    use super::*;
    use raid_base::{Act, Cause, Pairs, Request, Site, Sites, Vector};
    use std::test::Fail;

    const X: Item = Item(0);

    fn request(alloc: Global, value: i64) -> Result<Request, NoMemory> {
        let mut writes = Pairs::new(alloc);
        writes.push((X, value))?;
        Ok(Request {
            reads: Pairs::new(alloc),
            writes,
            under: Vector {
                count: 1,
                sessions: [1, 0, 0, 0, 0, 0, 0, 0],
            },
        })
    }

    /// Two transactions, of which the first waits until the second is aborted.
    fn entries(alloc: Global) -> Result<[Entry; 7], NoMemory> {
        let (first, second, site) = (Txn(1), Txn(2), Site(1));
        Ok([
            Entry::Begin {
                txn: second,
                home: site,
            },
            Entry::Begin {
                txn: first,
                home: site,
            },
            Entry::Read {
                txn: first,
                item: X,
                site,
            },
            Entry::Read {
                txn: second,
                item: X,
                site,
            },
            Entry::Wait {
                txn: first,
                request: request(alloc, 1)?,
            },
            Entry::Abort {
                txn: second,
                cause: Cause::Deadlock,
                act: Act::Commit(request(alloc, 2)?),
            },
            Entry::Commit {
                txn: first,
                request: request(alloc, 1)?,
                applied: Sites(1),
            },
        ])
    }

    #[test]
    fn answers_after_each_entry(rt: HostRuntime) -> Result<(), Fail> {
        let mut history = History::new(rt.alloc(), 0, 0)?;
        assert!(rt; history.is_empty());
        for entry in entries(rt.alloc())? {
            assert!(rt; history.len() < 7);
            assert!(rt; history.may_push(&entry));
            history.push(entry)?;
            if history.len() == 2 {
                assert_eq!(rt; history.running().as_slice(), [Txn(1), Txn(2)].as_slice());
            }
        }
        assert_eq!(rt; history.len(), 7);
        assert_eq!(rt;
            (
                history.stamp(Txn(1)),
                history.stamp(Txn(2)),
                history.stamp(Txn(3))
            ),
            (2, 1, 0)
        );
        assert_eq!(rt;
            (
                history.ends(),
                history.version_of(X),
                history.version_of(Item(1))
            ),
            (2, 7, 0)
        );
        assert!(rt; !history.is_running(Txn(1)));
        assert!(rt; history.running().is_empty());
        assert!(rt; history.len() == 7);
        assert!(rt; matches!(history.entry(6), Entry::Abort { .. }));
        Ok(())
    }
}
