//! The items' values.

ghost use Rattle.std.specs.Prelude.{◌≡◌, ◌<◌, ◌≤◌, ◌^◌, ℕ, ℤ, pos, unwrap_or, vec_len, slice_index_or, IfOk, OnOk, if◌then◌else◌};
ghost use Rattle.raid_base.specs.declared.names.Item.{Item};
ghost use Rattle.raid_base.specs.Find.{first_of};
ghost use Rattle.raid_base.specs.Names.{is_item};
ghost use Rattle.raid_rules.specs.Entries.{writes_of};
ghost use Rattle.raid_workload.specs.Parts.{initial};

use raid_base::{Entry, Item, NoMemory};
use raid_workload::Workload;
use std::alloc::Global;
use std::marker::Model;

/// A value for each item, by its number; an item past the end has the value 0. Contracts see the list of the values.
#[derive(Drop, Debug)]
pub struct Values {
    held: Vec<i64>,
}

impl Model for Values {
    ghost use Rattle.std.specs.Prelude.{List, ℤ};

    ghost Value = { List ℤ };

    ghost view = { λ v. v.held.items };
}

/// Makes a place, which has the value 0 where it is new.
fn grow(held: &mut Vec<i64>, place: usize) -> Result<(), NoMemory>
    ensures ok { OnOk result (place < vec_len held.new) }
    ensures same { (k : ℕ) → slice_index_or held.new.items k (pos 0) ≡ slice_index_or held.old.items k (pos 0) }
{
    while held.len() <= place {
        held.push(0)?;
    }
    Ok(())
}

/// Gives an item a value.
fn set(held: &mut Vec<i64>, item: Item, value: i64) -> Result<(), NoMemory>
    ensures { OnOk result ((x : Item) → slice_index_or held.new.items x.0 (pos 0) ≡ (if is_item x item then value else slice_index_or held.old.items x.0 (pos 0))) }
{
    let place = item.0 as usize;
    grow(held, place)?;
    held[place] = value;
    Ok(())
}

/// Gives the items the values of their first pairs.
fn set_all(held: &mut Vec<i64>, pairs: &[(Item, i64)]) -> Result<(), NoMemory>
    ensures { OnOk result ((x : Item) → slice_index_or held.new.items x.0 (pos 0) ≡ unwrap_or (first_of x pairs.now) (slice_index_or held.old.items x.0 (pos 0))) }
{
    for k in (0..pairs.len()).rev() {
        let (item, value) = pairs[k];
        set(held, item, value)?;
    }
    Ok(())
}

impl Values {
    /// The values that the items of the workload open with.
    pub fn new(alloc: Global, workload: &Workload) -> Result<Values, NoMemory>
        ensures { IfOk result (λ v. (x : Item) → slice_index_or v x.0 (pos 0) ≡ initial workload.now x) }
    {
        let mut held = Vec::with_capacity(alloc, workload.items.len())?;
        for line in workload.items.as_slice() {
            held.push(line.value)?;
        }
        Ok(Values { held })
    }

    /// The item's value.
    pub fn get(&self, item: Item) -> i64
        ensures { result ≡ slice_index_or self.now item.0 (pos 0) }
    {
        let place = item.0 as usize;
        if place < self.held.len() {
            self.held[place]
        } else {
            0
        }
    }

    /// Gives each item of the pairs the value of its first pair.
    fn apply(&mut self, pairs: &[(Item, i64)]) -> Result<(), NoMemory>
        ensures { OnOk result ((x : Item) → slice_index_or self.new x.0 (pos 0) ≡ unwrap_or (first_of x pairs.now) (slice_index_or self.old x.0 (pos 0))) }
    {
        set_all(&mut self.held, pairs)
    }

    /// The entry's writes, where it is a Commit, become the items' values. After want of memory the values are worth nothing.
    pub fn turn(&mut self, entry: &Entry) -> Result<(), NoMemory>
        ensures { OnOk result ((x : Item) → slice_index_or self.new x.0 (pos 0) ≡ unwrap_or (first_of x (writes_of entry.now)) (slice_index_or self.old x.0 (pos 0))) }
    {
        match entry {
            Entry::Commit { request, .. } => self.apply(request.writes.as_slice()),
            _ => Ok(()),
        }
    }
}
