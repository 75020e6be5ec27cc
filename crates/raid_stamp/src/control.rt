ghost use Rattle.std.specs.Prelude.{◌≡◌, List, [], ◌∷◌, ◌++◌, IfOk, OnOk, OnErr};
ghost use Rattle.raid_base.specs.declared.entry.Noted.{Noted};
ghost use Rattle.raid_base.specs.declared.verdict.Kind.TheVariants.{Stamp};
ghost use Rattle.raid_base.specs.declared.verdict.Structure.TheVariants.{Native};
ghost use Rattle.raid_stamp.specs.Known.{Known};

use raid_base::{Ask, Entry, Kind, NoMemory, Noted, Pairs, Refusal, Structure, Txn, Verdict};
use raid_control::{Carry, Controller};
use raid_tables::{Commits, Running, Stamps, is_backward};
use std::alloc::Global;

/// Judges by stamps: for each item the largest one that read it, and the largest one of a Commit that wrote it.
#[derive(Drop, Debug)]
pub struct StampControl {
    alloc: Global,
    transactions: u32,
    items: u32,
    running: Running,
    stamps: Stamps,
    commits: Commits,
}

impl StampControl {
    /// A controller that stands for the empty view, with room for so many transactions and items at first. Every call answers for all
    /// transactions and items, whatever the two numbers were.
    pub fn new(alloc: Global, transactions: u32, items: u32) -> Result<StampControl, NoMemory>
        ensures kind { IfOk result (λ c. ⟦<StampControl as Controller>⟧.kind_of c ≡ Stamp) }
        ensures structure { IfOk result (λ c. ⟦<StampControl as Controller>⟧.structure_of c ≡ Native) }
        ensures empty { IfOk result (λ c. ⟦<StampControl as Controller>⟧.stands c []) }
    {
        let running = Running::new(alloc, transactions)?;
        let stamps = Stamps::new(alloc, items)?;
        let commits = Commits::new(alloc, items)?;
        Ok(StampControl {
            alloc,
            transactions,
            items,
            running,
            stamps,
            commits,
        })
    }

    /// Takes the memory for noting an entry in all tables, then notes it.
    fn add(&mut self, at: u32, stamp: u32, entry: &Entry) -> Result<(), NoMemory>
        ensures ok { OnOk result ((view : List Noted) → Known self.old view → Known self.new (view ++ record { at = at; stamp = stamp; entry = entry.now } ∷ [])) }
        ensures err { OnErr result ((view : List Noted) → Known self.old view → Known self.new view) }
    {
        self.running.reserve(entry)?;
        self.stamps.reserve(entry)?;
        self.commits.reserve(entry)?;
        self.stamps.note(at, stamp, entry);
        self.running.note(at, stamp, entry);
        self.commits.note(at, stamp, entry);
        Ok(())
    }

    /// Adds the entries in order.
    fn add_all(&mut self, entries: &[Noted]) -> Result<(), NoMemory>
        ensures { OnOk result (Known self.old [] → Known self.new entries.now) }
    {
        for noted in entries {
            self.add(noted.at, noted.stamp, &noted.entry)?;
        }
        Ok(())
    }
}

impl Controller for StampControl {
    ghost stands = { λ c view. Known c view };

    ghost kind_of = { λ _. Stamp };

    ghost structure_of = { λ _. Native };

    fn kind(&self) -> Kind {
        Kind::Stamp
    }

    fn structure(&self) -> Structure {
        Structure::Native
    }

    fn judge(&mut self, ask: &Ask) -> Verdict {
        if self.stamps.is_late(ask) {
            Verdict::Reject(Refusal::Late)
        } else {
            Verdict::Grant
        }
    }

    fn note(&mut self, at: u32, stamp: u32, entry: &Entry) -> Result<(), NoMemory> {
        self.add(at, stamp, entry)
    }

    fn backward(&self, txn: Txn) -> bool {
        is_backward(&self.running, &self.commits, txn)
    }

    fn blocks(&self, _reader: Txn, _writer: Txn, _writes: &Pairs) -> bool {
        false
    }

    fn carry(&self, alloc: Global) -> Result<Carry, NoMemory> {
        self.running.carry(alloc)
    }

    fn load(&mut self, carry: &Carry) -> Result<(), NoMemory> {
        // The entries are added to a controller of their own, so that want of memory at a later one leaves this as it was.
        let mut loaded = StampControl::new(self.alloc, self.transactions, self.items)?;
        loaded.add_all(carry.as_slice())?;
        *self = loaded;
        Ok(())
    }

    fn set_kind(&mut self, _kind: Kind) -> bool {
        false
    }

    fn clear(&mut self) {
        self.running.clear();
        self.stamps.clear();
        self.commits.clear();
    }
}
