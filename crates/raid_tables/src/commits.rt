ghost use Rattle.std.specs.Prelude.{◌≡◌, List, [], ◌∷◌, ◌++◌, IfOk, OnOk, slice_index};
ghost use Rattle.raid_base.specs.declared.entry.Noted.{Noted};
ghost use Rattle.raid_tables.specs.Commits.{KnowsCommits, HasCommitRoom};

use crate::places::{at, grow_all, raise_all};
use raid_base::{Entry, Item, NoMemory};
use std::alloc::Global;

/// For each item the largest number of a Commit that wrote it.
#[derive(Drop, Debug)]
pub struct Commits {
    numbers: Vec<u32>,
}

impl Commits {
    /// The table of the empty view, with room for so many items at first. It answers for all items.
    pub fn new(alloc: Global, items: u32) -> Result<Commits, NoMemory>
        ensures { IfOk result (λ c. KnowsCommits c []) }
    {
        let numbers = Vec::with_capacity(alloc, items as usize)?;
        Ok(Commits { numbers })
    }

    /// The largest number of a Commit that wrote the item, 0 where none did.
    pub fn last(&self, item: Item) -> u32
        ensures { result ≡ slice_index self.now.numbers.items item.0 }
    {
        at(&self.numbers, item.0 as usize, 0)
    }

    /// Takes the memory for noting the entry. No answer changes, also after want of memory.
    pub fn reserve(&mut self, entry: &Entry) -> Result<(), NoMemory>
        ensures ok { OnOk result (HasCommitRoom self.new entry.now) }
        ensures same { (view : List Noted) → KnowsCommits self.old view → KnowsCommits self.new view }
    {
        match entry {
            Entry::Commit { request, .. } => {
                grow_all(&mut self.numbers, request.writes.as_slice())
            }
            _ => Ok(()),
        }
    }

    /// Adds an entry to each view that the table knows.
    pub fn note(&mut self, number: u32, stamp: u32, entry: &Entry)
        requires room { HasCommitRoom self.old entry.now }
        ensures { (view : List Noted) → KnowsCommits self.old view → KnowsCommits self.new (view ++ record { at = number; stamp = stamp; entry = entry.now } ∷ []) }
    {
        if let Entry::Commit { request, .. } = entry {
            raise_all(&mut self.numbers, request.writes.as_slice(), number);
        }
    }

    /// Forgets all: it knows the empty view.
    pub fn clear(&mut self)
        ensures { KnowsCommits self.new [] }
    {
        self.numbers.clear();
    }
}
