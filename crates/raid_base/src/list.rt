ghost use Rattle.std.specs.Prelude.{◌≡◌, ◌==◌, ℕ, ◌+◌, ◌<◌, List, [], ◌∷◌, ◌++◌, length, take, filter, not, IfOk, OnOk, OnErr, Some, slice_get};
ghost use Rattle.raid_base.specs.Names.{is_txn};

use crate::names::{NoMemory, Txn};
use crate::sites::Sites;
use std::alloc::Global;
use std::marker::Model;

/// A value that can be made a second time, as `Clone` does where making one takes no memory.
pub trait Duplicate: Sized {
    /// An equal value. Want of memory is the only error.
    fn copy(&self, alloc: Global) -> Result<Self, NoMemory>
        ensures { IfOk result (λ e. e ≡ self.now) };
}

/// Transactions, in an order that each use states.
pub type TxnList = Listed<Txn>;

/// The holders of each item, in the order of the items: the sites that have a copy of it.
pub type Placement = Listed<Sites>;

/// Bytes of a text.
pub type Bytes = Listed<u8>;

/// Values in the order in which they were pushed. Contracts see a list.
#[derive(Drop, Debug)]
pub struct Listed<T> {
    held: Vec<T>,
}

impl<T> Model for Listed<T> {
    ghost use Rattle.std.specs.Prelude.{List};

    ghost Value = { List T };

    ghost view = { λ l. l.held.items };
}

impl<T: Drop> Listed<T> {
    /// The empty list.
    pub fn new(alloc: Global) -> Self
        ensures { result ≡ [] }
    {
        Listed {
            held: Vec::new(alloc),
        }
    }

    /// How many values there are.
    pub fn len(&self) -> usize
        ensures { result ≡ length self.now }
    {
        self.held.len()
    }

    /// Whether there is no value.
    pub fn is_empty(&self) -> bool
        ensures { result ≡ (length self.now == 0) }
    {
        self.held.is_empty()
    }

    /// Adds a value at the end. After want of memory the list is as it was.
    pub fn push(&mut self, value: T) -> Result<(), NoMemory>
        ensures ok { OnOk result (self.new ≡ self.old ++ value ∷ []) }
        ensures err { OnErr result (self.new ≡ self.old) }
    {
        self.held.push(value)?;
        Ok(())
    }

    /// Drops all values. Takes no memory.
    pub fn clear(&mut self)
        ensures { self.new ≡ [] }
    {
        self.held.clear();
    }

    /// The value at a place, counted from 0.
    pub fn get(&self, k: usize) -> &T
        requires { k < length self.now }
        ensures { slice_get self.now k ≡ Some result.now }
    {
        &self.held[k]
    }

    /// All values, lent.
    pub fn as_slice(&self) -> &[T]
        ensures { result.now ≡ self.now }
    {
        self.held.as_slice()
    }

    /// The values themselves, in their order, for whoever goes through them once and keeps them. Takes no memory.
    pub fn into_vec(self) -> Vec<T>
        ensures { result.items ≡ self }
    {
        self.held
    }
}

impl<T: Copy> Listed<T> {
    /// Adds values at the end, in their order. After want of memory the list is as it was.
    pub fn push_all(&mut self, values: &[T]) -> Result<(), NoMemory>
        ensures ok { OnOk result (self.new ≡ self.old ++ values.now) }
        ensures err { OnErr result (self.new ≡ self.old) }
    {
        self.held.extend_from_slice(values)?;
        Ok(())
    }
}

impl Listed<Txn> {
    /// Takes the transaction out, wherever it stands. The others keep their order. Takes no memory.
    pub fn remove(&mut self, txn: Txn)
        ensures { self.new ≡ filter (λ other. not (is_txn txn other)) self.old }
    {
        self.held.retain(|other| *other != txn);
    }
}

impl<A: Copy, B: Copy> Duplicate for (A, B) {
    fn copy(&self, _alloc: Global) -> Result<Self, NoMemory> {
        Ok(*self)
    }
}

impl Duplicate for Txn {
    fn copy(&self, _alloc: Global) -> Result<Self, NoMemory> {
        Ok(*self)
    }
}

impl Duplicate for Sites {
    fn copy(&self, _alloc: Global) -> Result<Self, NoMemory> {
        Ok(*self)
    }
}

impl<T: Duplicate + Drop> Duplicate for Listed<T> {
    fn copy(&self, alloc: Global) -> Result<Self, NoMemory> {
        let mut copied = Listed {
            held: Vec::with_capacity(alloc, self.held.len())?,
        };
        for value in self.as_slice() {
            copied.push(value.copy(alloc)?)?;
        }
        Ok(copied)
    }
}
