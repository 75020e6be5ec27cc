ghost use Rattle.std.specs.Prelude.{◌≡◌, List, [], ◌∷◌, ◌++◌, IfOk, OnOk, OnErr};
ghost use Rattle.raid_base.specs.declared.entry.Noted.{Noted};
ghost use Rattle.raid_base.specs.declared.verdict.Kind.TheVariants.{Lock};
ghost use Rattle.raid_base.specs.declared.verdict.Structure.TheVariants.{Native};
ghost use Rattle.raid_lock.specs.Known.{Known};

use raid_base::{Ask, Entry, Kind, NoMemory, Noted, Pairs, Structure, Txn, Verdict};
use raid_control::{Carry, Controller};
use raid_tables::{Commits, Readers, Running, is_backward};
use std::alloc::Global;

/// Judges by read locks: for each item the running transactions that have read it.
#[derive(Drop, Debug)]
pub struct LockControl {
    alloc: Global,
    transactions: u32,
    items: u32,
    running: Running,
    readers: Readers,
    commits: Commits,
}

impl LockControl {
    /// A controller that stands for the empty view, with room for so many transactions and items at first. Every call answers for all
    /// transactions and items, whatever the two numbers were.
    pub fn new(alloc: Global, transactions: u32, items: u32) -> Result<LockControl, NoMemory>
        ensures kind { IfOk result (λ c. ⟦<LockControl as Controller>⟧.kind_of c ≡ Lock) }
        ensures structure { IfOk result (λ c. ⟦<LockControl as Controller>⟧.structure_of c ≡ Native) }
        ensures empty { IfOk result (λ c. ⟦<LockControl as Controller>⟧.stands c []) }
    {
        let running = Running::new(alloc, transactions)?;
        let readers = Readers::new(alloc, items)?;
        let commits = Commits::new(alloc, items)?;
        Ok(LockControl {
            alloc,
            transactions,
            items,
            running,
            readers,
            commits,
        })
    }

    /// Takes the memory for noting an entry in all tables, then notes it.
    fn add(&mut self, at: u32, stamp: u32, entry: &Entry) -> Result<(), NoMemory>
        ensures ok { OnOk result ((view : List Noted) → Known self.old view → Known self.new (view ++ record { at = at; stamp = stamp; entry = entry.now } ∷ [])) }
        ensures err { OnErr result ((view : List Noted) → Known self.old view → Known self.new view) }
    {
        self.running.reserve(entry)?;
        self.readers.reserve(entry)?;
        self.commits.reserve(entry)?;
        self.readers.note(&self.running, at, stamp, entry);
        self.running.note(at, stamp, entry);
        self.commits.note(at, stamp, entry);
        Ok(())
    }

    /// Adds the entries in order.
    fn add_all(&mut self, entries: &[Noted]) -> Result<(), NoMemory>
        ensures { OnOk result (Known self.old [] → Known self.new entries.now) }
    {
        for noted in entries {
            self.add(noted.at, noted.stamp, &noted.entry)?;
        }
        Ok(())
    }
}

impl Controller for LockControl {
    ghost stands = { λ c view. Known c view };

    ghost kind_of = { λ _. Lock };

    ghost structure_of = { λ _. Native };

    fn kind(&self) -> Kind {
        Kind::Lock
    }

    fn structure(&self) -> Structure {
        Structure::Native
    }

    fn judge(&mut self, ask: &Ask) -> Verdict {
        match ask {
            Ask::Read { .. } => Verdict::Grant,
            Ask::Commit { txn, writes, .. } => {
                if self.readers.is_held(&self.running, *txn, writes.as_slice()) {
                    Verdict::Wait
                } else {
                    Verdict::Grant
                }
            }
        }
    }

    fn note(&mut self, at: u32, stamp: u32, entry: &Entry) -> Result<(), NoMemory> {
        self.add(at, stamp, entry)
    }

    fn backward(&self, txn: Txn) -> bool {
        is_backward(&self.running, &self.commits, txn)
    }

    fn blocks(&self, reader: Txn, writer: Txn, writes: &Pairs) -> bool {
        self.readers
            .is_blocked_by(&self.running, reader, writer, writes.as_slice())
    }

    fn carry(&self, alloc: Global) -> Result<Carry, NoMemory> {
        self.running.carry(alloc)
    }

    fn load(&mut self, carry: &Carry) -> Result<(), NoMemory> {
        // The entries are added to a controller of their own, so that want of memory at a later one leaves this as it was.
        let mut loaded = LockControl::new(self.alloc, self.transactions, self.items)?;
        loaded.add_all(carry.as_slice())?;
        *self = loaded;
        Ok(())
    }

    fn set_kind(&mut self, _kind: Kind) -> bool {
        false
    }

    fn clear(&mut self) {
        self.running.clear();
        self.readers.clear();
        self.commits.clear();
    }
}
