ghost use Rattle.std.specs.Prelude.{◌≡◌, ◌<◌, ◌≤◌, ◌+◌, max, not, true, false, ℕ, List, ◌∷◌, [], ◌++◌, vec_len, slice_index_or, IfOk, OnOk, OnErr, if◌then◌else◌};
ghost use Rattle.raid_base.specs.declared.entry.Noted.{Noted};
ghost use Rattle.raid_conflict.specs.Listed.{noted_as};
ghost use Rattle.raid_conflict.specs.Tables as words;

use crate::chains::{self, Chain};
use raid_base::{Entry, Item, NoMemory, Pairs, Txn};
use raid_rules::conflict::Action;
use std::alloc::Global;

/// What is known of a transaction: the number of its Begin, 0 where none was noted, and whether it is aborted.
#[derive(Clone, Copy, Debug)]
pub struct Mark {
    pub stamp: u32,
    pub aborted: bool,
}

impl Mark {
    /// The mark of a transaction of which nothing is known.
    pub const BLANK: Mark = Mark {
        stamp: 0,
        aborted: false,
    };
}

/// The tables of a graph: the actions on each item, the writes among them, and the actions of each transaction, by
/// number, the aborted ones' too; a mark for each transaction, by number; and the committed transactions, in the
/// order of their Commits.
#[derive(Drop, Debug)]
pub struct Tables {
    pub items: Vec<Chain>,
    pub writes: Vec<Chain>,
    pub own: Vec<Chain>,
    pub marks: Vec<Mark>,
    pub committed: Vec<Txn>,
    pub alloc: Global,
}

/// Makes a place in a table, which is blank where it is new. After want of memory too the table says what it said.
pub fn grow<T: Copy + Drop>(table: &mut Vec<T>, place: usize, blank: T) -> Result<(), NoMemory>
    ensures ok { OnOk result (place < vec_len table.new) }
    ensures same { (k : ℕ) → slice_index_or table.new.items k blank ≡ slice_index_or table.old.items k blank }
{
    while table.len() <= place {
        table.push(blank)?;
    }
    Ok(())
}

impl Tables {
    /// The tables of the empty list, with room for so many transactions and items.
    pub fn new(alloc: Global, transactions: u32, items: u32) -> Result<Tables, NoMemory>
        ensures stands { IfOk result (λ t. words.Tells t []) }
        ensures none { IfOk result (λ t. vec_len t.own ≡ 0) }
    {
        let own = Vec::with_capacity(alloc, transactions as usize + 1)?;
        let marks = Vec::with_capacity(alloc, transactions as usize + 1)?;
        let writes = Vec::with_capacity(alloc, items as usize)?;
        let items = Vec::with_capacity(alloc, items as usize)?;
        Ok(Tables {
            items,
            writes,
            own,
            marks,
            committed: Vec::new(alloc),
            alloc,
        })
    }

    /// The transaction's mark, blank where there is none.
    pub fn mark(&self, txn: Txn) -> Mark
        ensures { result ≡ words.mark self.now txn }
    {
        let place = txn.0 as usize;
        if place < self.marks.len() {
            self.marks[place]
        } else {
            Mark::BLANK
        }
    }

    /// The chains of what can conflict with an action: of the writes where it reads, since no read conflicts with a
    /// read, else of all actions.
    pub fn chains_against(&self, action: &Action) -> &[Chain]
        ensures { result.now ≡ words.chains_against self.now action.now }
    {
        if action.writes {
            self.items.as_slice()
        } else {
            self.writes.as_slice()
        }
    }

    /// Notes that the transaction begins with the entry of this number. After want of memory the tables say what
    /// they said.
    fn begin(&mut self, txn: Txn, number: u32) -> Result<(), NoMemory>
        ensures ok { OnOk result (words.Marked self.old self.new txn (record { stamp = number; aborted = (words.mark self.old txn).aborted })) }
        ensures err { OnErr result (words.AnswersAlike self.old self.new) }
        ensures same { self.new.own ≡ self.old.own }
    {
        let place = txn.0 as usize;
        grow(&mut self.marks, place, Mark::BLANK)?;
        self.marks[place].stamp = number;
        Ok(())
    }

    /// Notes that the transaction is aborted. After want of memory the tables say what they said.
    fn abort(&mut self, txn: Txn) -> Result<(), NoMemory>
        ensures ok { OnOk result (words.Marked self.old self.new txn (record { stamp = (words.mark self.old txn).stamp; aborted = true })) }
        ensures err { OnErr result (words.AnswersAlike self.old self.new) }
        ensures same { self.new.own ≡ self.old.own }
    {
        let place = txn.0 as usize;
        grow(&mut self.marks, place, Mark::BLANK)?;
        self.marks[place].aborted = true;
        Ok(())
    }

    /// Notes a read. After want of memory the tables say what they said.
    fn read(&mut self, at: u32, txn: Txn, item: Item) -> Result<(), NoMemory>
        ensures ok { OnOk result (words.Acted self.old self.new txn (record { at = at; by = txn; item = item; writes = false } ∷ [])) }
        ensures err { OnErr result (words.AnswersAlike self.old self.new) }
        ensures committed { self.new.committed.items ≡ self.old.committed.items }
        ensures few { vec_len self.new.own ≤ max (vec_len self.old.own) (txn.0 + 1) }
    {
        chains::make_room(self.alloc, &mut self.items, item.0 as usize, 1)?;
        chains::make_room(self.alloc, &mut self.own, txn.0 as usize, 1)?;
        let action = Action {
            at: u64::from(at),
            by: txn,
            item,
            writes: false,
        };
        chains::add(&mut self.items, item.0 as usize, action);
        chains::add(&mut self.own, txn.0 as usize, action);
        Ok(())
    }

    /// Notes a commit with its writes. After want of memory the tables say what they said.
    fn commit(&mut self, at: u32, txn: Txn, writes: &Pairs) -> Result<(), NoMemory>
        ensures ok { OnOk result (words.Acted self.old self.new txn (words.writes_of at txn writes.now)) }
        ensures committed { OnOk result (self.new.committed.items ≡ self.old.committed.items ++ txn ∷ []) }
        ensures few { vec_len self.new.own ≤ max (vec_len self.old.own) (txn.0 + 1) }
        ensures err { OnErr result (words.AnswersAlike self.old self.new) }
    {
        chains::make_rooms(self.alloc, &mut self.items, writes.as_slice())?;
        chains::make_rooms(self.alloc, &mut self.writes, writes.as_slice())?;
        chains::make_room(self.alloc, &mut self.own, txn.0 as usize, writes.len())?;
        self.committed.push(txn)?;
        chains::add_writes(&mut self.items, u64::from(at), txn, writes.as_slice());
        chains::add_writes(&mut self.writes, u64::from(at), txn, writes.as_slice());
        chains::add_own(
            &mut self.own,
            txn.0 as usize,
            u64::from(at),
            txn,
            writes.as_slice(),
        );
        Ok(())
    }

    /// Notes an entry under its number. After want of memory the tables say what they said.
    pub fn note(&mut self, at: u32, entry: &Entry) -> Result<(), NoMemory>
        ensures ok { OnOk result ((view : List Noted) (stamp : ℕ) → words.Tells self.old view → words.Tells self.new (view ++ noted_as at stamp entry.now ∷ [])) }
        ensures err { OnErr result ((view : List Noted) → words.Tells self.old view → words.Tells self.new view) }
        ensures few { vec_len self.new.own ≤ max (vec_len self.old.own) (words.places_of entry.now) }
    {
        match entry {
            Entry::Begin { txn, .. } => self.begin(*txn, at),
            Entry::Read { txn, item, .. } => self.read(at, *txn, *item),
            Entry::Commit { txn, request, .. } => self.commit(at, *txn, &request.writes),
            Entry::Abort { txn, .. } => self.abort(*txn),
            Entry::Wait { .. }
            | Entry::Ack { .. }
            | Entry::SwitchOn { .. }
            | Entry::SwitchEnd { .. }
            | Entry::Down { .. }
            | Entry::Up { .. }
            | Entry::Clear { .. } => Ok(()),
        }
    }

    /// Forgets all: the tables of the empty list.
    pub fn clear(&mut self)
        ensures stands { words.Tells self.new [] }
        ensures none { vec_len self.new.own ≡ 0 }
    {
        self.items.clear();
        self.writes.clear();
        self.own.clear();
        self.marks.clear();
        self.committed.clear();
    }
}
