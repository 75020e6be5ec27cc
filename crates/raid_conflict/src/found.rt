ghost use Rattle.std.specs.Prelude.{◌≡◌, ◌<◌, ◌≤◌, ◌+◌, ◌&&◌, ◌||◌, not, true, false, max, ℕ, List, [], ◌∷◌, ◌++◌, length, vec_len, vec_capacity, count_by, slice_index_or, IfOk, OnOk, OnErr, if◌then◌else◌};
ghost use Rattle.raid_base.specs.declared.names.Txn.{Txn};
ghost use Rattle.raid_base.specs.Names.{is_txn, has_txn};
ghost use Rattle.raid_rules.specs.Committed.{AllOnce};
ghost use Rattle.raid_conflict.specs.Found.{is_marked, Agrees, Longer};

use raid_base::{NoMemory, Txn};
use std::alloc::Global;
use std::marker::Model;

/// What a search found: transactions, each once, in the order in which they were found, with a mark for each.
/// There is a number of places: the transactions with smaller numbers can be found, without taking memory.
/// Contracts see the list and the number of places.
#[derive(Drop, Debug)]
pub struct Found {
    marks: Vec<bool>,
    list: Vec<Txn>,
}

impl Model for Found {
    ghost use Rattle.std.specs.Prelude.{ℕ, List, ◌≤◌, vec_len, vec_capacity};
    ghost use Rattle.raid_base.specs.declared.names.Txn.{Txn};
    ghost use Rattle.raid_conflict.specs.Found.{Agrees};

    ghost Value = { List Txn × ℕ };

    ghost view = { λ f. (f.list.items, vec_len f.marks) };

    ghost invariant = { λ f. Agrees f.marks.items f.list.items × (vec_len f.marks ≤ vec_capacity f.list) };
}

/// Takes the marks of the transactions away.
fn unmark(marks: &mut Vec<bool>, list: &[Txn])
    ensures same { vec_len marks.new ≡ vec_len marks.old }
    ensures marks { (t : Txn) → is_marked marks.new.items t ≡ (is_marked marks.old.items t && not (has_txn list.now t)) }
{
    for txn in list {
        let place = txn.0 as usize;
        if place < marks.len() {
            marks[place] = false;
        }
    }
}

/// Marks a transaction and lists it, where it has no mark.
fn mark(marks: &mut Vec<bool>, list: &mut Vec<Txn>, txn: Txn)
    requires place { txn.0 < length marks.old.items }
    requires agrees { Agrees marks.old.items list.old.items }
    requires room { length marks.old.items ≤ vec_capacity list.old }
    ensures agrees { Agrees marks.new.items list.new.items }
    ensures list { list.new.items ≡ (if has_txn list.old.items txn then list.old.items else list.old.items ++ txn ∷ []) }
    ensures same { vec_len marks.new ≡ vec_len marks.old }
    ensures room { vec_capacity list.new ≡ vec_capacity list.old }
{
    let place = txn.0 as usize;
    if !marks[place] {
        marks[place] = true;
        list.push_reserved(txn);
    }
}

/// Makes so many places for marks, those that are new without a mark.
fn make_marks(marks: &mut Vec<bool>, places: usize) -> Result<(), NoMemory>
    ensures ok { OnOk result (places ≤ vec_len marks.new) }
    ensures same { (t : Txn) → is_marked marks.new.items t ≡ is_marked marks.old.items t }
    ensures counted { count_by (λ b. b) marks.new.items ≡ count_by (λ b. b) marks.old.items }
    ensures more { vec_len marks.old ≤ vec_len marks.new }
    ensures few { vec_len marks.new ≤ max (vec_len marks.old) places }
{
    while marks.len() < places {
        marks.push(false)?;
    }
    Ok(())
}

impl Found {
    /// Nothing found, and no places.
    pub fn new(alloc: Global) -> Found
        ensures { result ≡ ([], 0) }
    {
        Found {
            marks: Vec::new(alloc),
            list: Vec::new(alloc),
        }
    }

    /// Makes at least so many places. What was found stays, also after want of memory.
    pub fn make_places(&mut self, places: usize) -> Result<(), NoMemory>
        ensures found { self.new.0 ≡ self.old.0 }
        ensures more { self.old.1 ≤ self.new.1 }
        ensures ok { OnOk result (places ≤ self.new.1) }
    {
        self.list.reserve(places)?;
        make_marks(&mut self.marks, places)
    }

    /// Whether the transaction was found.
    pub fn has(&self, txn: Txn) -> bool
        ensures { result ≡ has_txn self.now.0 txn }
    {
        let place = txn.0 as usize;
        if place < self.marks.len() {
            self.marks[place]
        } else {
            false
        }
    }

    /// Adds a transaction that has a place, if it wasn't found before.
    pub fn add(&mut self, txn: Txn)
        requires { txn.0 < self.old.1 }
        ensures found { self.new.0 ≡ (if has_txn self.old.0 txn then self.old.0 else self.old.0 ++ txn ∷ []) }
        ensures has { (t : Txn) → has_txn self.new.0 t ≡ (has_txn self.old.0 t || is_txn t txn) }
        ensures longer { Longer self.old.0 self.new.0 }
        ensures places { self.new.1 ≡ self.old.1 }
    {
        mark(&mut self.marks, &mut self.list, txn);
    }

    /// How many were found: no more than there are places, and each was found once.
    pub fn len(&self) -> usize
        ensures is { result ≡ length self.now.0 }
        ensures few { result ≤ self.now.1 }
        ensures once { (ts : List Txn) → AllOnce ts → ((t : Txn) → has_txn self.now.0 t ≡ has_txn ts t) → result ≡ length ts }
    {
        self.list.len()
    }

    /// The transaction that was found as this one, counted from 0.
    pub fn get(&self, k: usize) -> Txn
        requires { k < length self.now.0 }
        ensures { result ≡ slice_index_or self.now.0 k result }
    {
        self.list[k]
    }

    /// All that were found.
    pub fn as_slice(&self) -> &[Txn]
        ensures { result.now ≡ self.now.0 }
    {
        self.list.as_slice()
    }

    /// Forgets what was found.
    pub fn clear(&mut self)
        ensures { self.new ≡ ([], self.old.1) }
    {
        unmark(&mut self.marks, self.list.as_slice());
        self.list.clear();
    }
}
