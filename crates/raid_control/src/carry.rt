ghost use Rattle.std.specs.Prelude.{◌≡◌, ◌==◌, [], ◌∷◌, ◌++◌, OnOk, OnErr, IfOk, length, take, filter, not};
ghost use Rattle.raid_rules.specs.Order.{is_of};

use raid_base::{Duplicate, Entry, NoMemory, Noted, Txn};
use std::alloc::Global;
use std::marker::Model;

/// Noted entries that one controller hands to the next: the Begins and Reads of running transactions, in order. Contracts see the list
/// of them.
#[derive(Drop, Debug)]
pub struct Carry {
    held: Vec<Noted>,
}

impl Model for Carry {
    ghost use Rattle.std.specs.Prelude.{List};
    ghost use Rattle.raid_base.specs.declared.entry.Noted.{Noted};

    ghost Value = { List Noted };

    ghost view = { λ c. c.held.items };
}

impl Carry {
    /// The empty carry.
    pub fn new(alloc: Global) -> Carry
        ensures { result ≡ [] }
    {
        Carry {
            held: Vec::new(alloc),
        }
    }

    /// How many entries there are.
    pub fn len(&self) -> usize
        ensures { result ≡ length self.now }
    {
        self.held.len()
    }

    /// Whether there is no entry.
    pub fn is_empty(&self) -> bool
        ensures { result ≡ (length self.now == 0) }
    {
        self.held.is_empty()
    }

    /// Adds an entry at the end. A controller loads the carry only where it is in order. After want of memory the carry is as it was.
    pub fn push(&mut self, noted: Noted) -> Result<(), NoMemory>
        ensures ok { OnOk result (self.new ≡ self.old ++ noted ∷ []) }
        ensures err { OnErr result (self.new ≡ self.old) }
    {
        self.held.push(noted)?;
        Ok(())
    }

    /// All entries, lent.
    pub fn as_slice(&self) -> &[Noted]
        ensures { result.now ≡ self.now }
    {
        self.held.as_slice()
    }

    /// Takes out the entries of one transaction; the others stay in their order. Takes no memory.
    pub fn without(&mut self, txn: Txn)
        ensures { self.new ≡ filter (λ n. not (is_of txn n.entry)) self.old }
    {
        take_out(&mut self.held, txn);
    }
}

/// Whether the entry names the transaction.
fn is_entry_of(entry: &Entry, txn: Txn) -> bool
    ensures { result ≡ is_of txn entry.now }
{
    match entry {
        Entry::Begin { txn: own, .. }
        | Entry::Read { txn: own, .. }
        | Entry::Wait { txn: own, .. }
        | Entry::Commit { txn: own, .. }
        | Entry::Abort { txn: own, .. }
        | Entry::Ack { txn: own, .. } => *own == txn,
        Entry::SwitchOn { .. }
        | Entry::SwitchEnd { .. }
        | Entry::Down { .. }
        | Entry::Up { .. }
        | Entry::Clear { .. } => false,
    }
}

fn take_out(held: &mut Vec<Noted>, txn: Txn)
    ensures { held.new.items ≡ filter (λ n. not (is_of txn n.entry)) held.old.items }
{
    held.retain(|n| !is_entry_of(&n.entry, txn));
}

/// An equal noted entry.
fn copy_of(noted: &Noted, alloc: Global) -> Result<Noted, NoMemory>
    ensures { IfOk result (λ n. n ≡ noted.now) }
{
    let entry = noted.entry.copy(alloc)?;
    Ok(Noted {
        at: noted.at,
        stamp: noted.stamp,
        entry,
    })
}

impl Duplicate for Carry {
    fn copy(&self, alloc: Global) -> Result<Carry, NoMemory> {
        let mut copied = Carry::new(alloc);
        for noted in self.as_slice() {
            copied.push(copy_of(noted, alloc)?)?;
        }
        Ok(copied)
    }
}
