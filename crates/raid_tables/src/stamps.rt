ghost use Rattle.std.specs.Prelude.{◌≡◌, ◌||◌, nat_lt, List, [], ◌∷◌, ◌++◌, IfOk, OnOk, slice_index};
ghost use Rattle.std.specs.List.{list_any};
ghost use Rattle.raid_base.specs.declared.entry.Noted.{Noted};
ghost use Rattle.raid_rules.specs.Verdicts.{asked, is_late};
ghost use Rattle.raid_tables.specs.Stamps.{KnowsStamps, HasStampRoom};

use crate::places::{at, grow, grow_all, raise, raise_all};
use raid_base::{Ask, Entry, Item, NoMemory};
use std::alloc::Global;

/// For each item the largest stamp that read it, and the largest stamp of a Commit that wrote it. Stamps stay when their transactions
/// end.
#[derive(Drop, Debug)]
pub struct Stamps {
    reads: Vec<u32>,
    writes: Vec<u32>,
}

/// Whether an item of the pairs was read or written by a larger stamp.
fn is_any_later(reads: &[u32], writes: &[u32], pairs: &[(Item, i64)], stamp: u32) -> bool
    ensures { result ≡ list_any (λ p. nat_lt stamp (slice_index reads.now p.0.0) || nat_lt stamp (slice_index writes.now p.0.0)) pairs.now }
{
    pairs.iter().any(|(item, _)| {
        stamp < at(reads, item.0 as usize, 0) || stamp < at(writes, item.0 as usize, 0)
    })
}

impl Stamps {
    /// The table of the empty view, with room for so many items at first. It answers for all items.
    pub fn new(alloc: Global, items: u32) -> Result<Stamps, NoMemory>
        ensures { IfOk result (λ s. KnowsStamps s []) }
    {
        let reads = Vec::with_capacity(alloc, items as usize)?;
        let writes = Vec::with_capacity(alloc, items as usize)?;
        Ok(Stamps { reads, writes })
    }

    /// Whether the asked action comes too late for its stamp.
    pub fn is_late(&self, ask: &Ask) -> bool
        ensures { (view : List Noted) → KnowsStamps self.now view → result ≡ is_late view (asked ask.now) }
    {
        match ask {
            Ask::Read { stamp, item, .. } => *stamp < at(&self.writes, item.0 as usize, 0),
            Ask::Commit { stamp, writes, .. } => {
                is_any_later(&self.reads, &self.writes, writes.as_slice(), *stamp)
            }
        }
    }

    /// Takes the memory for noting the entry. No answer changes, also after want of memory.
    pub fn reserve(&mut self, entry: &Entry) -> Result<(), NoMemory>
        ensures ok { OnOk result (HasStampRoom self.new entry.now) }
        ensures same { (view : List Noted) → KnowsStamps self.old view → KnowsStamps self.new view }
    {
        match entry {
            Entry::Read { item, .. } => grow(&mut self.reads, item.0 as usize, 0),
            Entry::Commit { request, .. } => {
                grow_all(&mut self.writes, request.writes.as_slice())
            }
            _ => Ok(()),
        }
    }

    /// Adds an entry to each view that the table knows.
    pub fn note(&mut self, number: u32, stamp: u32, entry: &Entry)
        requires room { HasStampRoom self.old entry.now }
        ensures { (view : List Noted) → KnowsStamps self.old view → KnowsStamps self.new (view ++ record { at = number; stamp = stamp; entry = entry.now } ∷ []) }
    {
        match entry {
            Entry::Read { item, .. } => raise(&mut self.reads, *item, stamp),
            Entry::Commit { request, .. } => {
                raise_all(&mut self.writes, request.writes.as_slice(), stamp)
            }
            _ => {}
        }
    }

    /// Forgets all: it knows the empty view.
    pub fn clear(&mut self)
        ensures { KnowsStamps self.new [] }
    {
        self.reads.clear();
        self.writes.clear();
    }
}
