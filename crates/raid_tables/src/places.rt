//! Tables by number, in which a place past the end is blank.

ghost use Rattle.std.specs.Prelude.{◌≡◌, ◌==◌, ℕ, ◌<◌, ◌≤◌, max, length, All, OnOk, slice_index, slice_index_or, vec_len, if◌then◌else◌};
ghost use Rattle.raid_base.specs.declared.names.Item.{Item};
ghost use Rattle.raid_base.specs.Names.{holds};

use raid_base::{Item, NoMemory};

/// The value at a place, blank where there is none.
pub fn at<T: Copy>(table: &[T], place: usize, blank: T) -> T
    ensures { result ≡ slice_index_or table.now place blank }
{
    match table.get(place) {
        Some(value) => *value,
        None => blank,
    }
}

/// Makes a place in a table, blank where it is new. The table says what it said, also after want of memory.
pub fn grow<T: Copy + Drop>(table: &mut Vec<T>, place: usize, blank: T) -> Result<(), NoMemory>
    ensures ok { OnOk result (place < vec_len table.new) }
    ensures same { (k : ℕ) → slice_index_or table.new.items k blank ≡ slice_index_or table.old.items k blank }
    ensures longer { vec_len table.old ≤ vec_len table.new }
{
    while table.len() <= place {
        table.push(blank)?;
    }
    Ok(())
}

/// Makes a place for each of the items. The table says what it said, also after want of memory.
pub fn grow_all(table: &mut Vec<u32>, writes: &[(Item, i64)]) -> Result<(), NoMemory>
    ensures ok { OnOk result (All (λ w. w.0.0 < vec_len table.new) writes.now) }
    ensures same { (k : ℕ) → slice_index table.new.items k ≡ slice_index table.old.items k }
{
    for (item, _) in writes {
        grow(table, item.0 as usize, 0)?;
    }
    Ok(())
}

/// Raises the number of one item.
pub fn raise(table: &mut [u32], item: Item, number: u32)
    requires { item.0 < length table.old }
    ensures raised { (x : Item) → slice_index table.new x.0 ≡ (if x.0 == item.0 then max (slice_index table.old x.0) number else slice_index table.old x.0) }
    ensures same { length table.new ≡ length table.old }
{
    let place = item.0 as usize;
    if table[place] < number {
        table[place] = number;
    }
}

/// Raises the number of each of the items.
pub fn raise_all(table: &mut [u32], writes: &[(Item, i64)], number: u32)
    requires { All (λ w. w.0.0 < length table.old) writes.now }
    ensures { (x : Item) → slice_index table.new x.0 ≡ (if holds x writes.now then max (slice_index table.old x.0) number else slice_index table.old x.0) }
{
    for (item, _) in writes {
        raise(table, *item, number);
    }
}
