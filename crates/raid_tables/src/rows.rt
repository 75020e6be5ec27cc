//! Tables of rows by number, in which a row past the end is empty.

ghost use Rattle.std.specs.Prelude.{◌≡◌, ◌==◌, ℕ, ◌<◌, length, OnOk, [], ◌∷◌, ◌++◌, vec_len, if◌then◌else◌};
ghost use Rattle.raid_tables.specs.Rows.{row_of, HasRoom};

use raid_base::NoMemory;
use std::alloc::Global;
use std::mem::replace;

/// The row at a place, lent.
pub fn row<T: Drop>(rows: &[Vec<T>], place: usize) -> &[T]
    ensures { result.now ≡ row_of rows.now place }
{
    match rows.get(place) {
        Some(row) => row.as_slice(),
        None => &[],
    }
}

/// Makes a place, empty where it is new. The rows are what they were, also after want of memory.
pub fn grow_rows<T: Drop>(
    alloc: Global,
    rows: &mut Vec<Vec<T>>,
    place: usize,
) -> Result<(), NoMemory>
    ensures ok { OnOk result (place < vec_len rows.new) }
    ensures same { (k : ℕ) → row_of rows.new.items k ≡ row_of rows.old.items k }
{
    while rows.len() <= place {
        rows.push(Vec::new(alloc))?;
    }
    Ok(())
}

/// Takes room for one more value in a row. The rows are what they were, also after want of memory.
pub fn reserve_in<T: Drop>(
    alloc: Global,
    rows: &mut Vec<Vec<T>>,
    place: usize,
) -> Result<(), NoMemory>
    ensures ok { OnOk result (HasRoom rows.new.items place) }
    ensures same { (k : ℕ) → row_of rows.new.items k ≡ row_of rows.old.items k }
{
    grow_rows(alloc, rows, place)?;
    rows[place].reserve(1)?;
    Ok(())
}

/// An empty row, with the memory of a spare one where there is one.
fn take_spare<T: Drop>(alloc: Global, spare: &mut Vec<Vec<T>>) -> Vec<T>
    ensures { result.items ≡ [] }
{
    match spare.pop() {
        Some(mut row) => {
            row.clear();
            row
        }
        None => Vec::new(alloc),
    }
}

/// Gives an empty row a spare one's memory. The row is what it was.
fn refill<T: Drop>(alloc: Global, row: &mut Vec<T>, spare: &mut Vec<Vec<T>>)
    ensures { row.new.items ≡ row.old.items }
{
    if row.is_empty() {
        *row = take_spare(alloc, spare);
    }
}

/// Takes room for one more value in a row, and for the first one a spare row's memory. The rows are what they were, also after want of
/// memory.
pub fn reserve_from<T: Drop>(
    alloc: Global,
    rows: &mut Vec<Vec<T>>,
    spare: &mut Vec<Vec<T>>,
    place: usize,
) -> Result<(), NoMemory>
    ensures ok { OnOk result (HasRoom rows.new.items place) }
    ensures same { (k : ℕ) → row_of rows.new.items k ≡ row_of rows.old.items k }
{
    grow_rows(alloc, rows, place)?;
    refill(alloc, &mut rows[place], spare);
    rows[place].reserve(1)?;
    Ok(())
}

/// Empties a row, and puts its memory among the spare ones where there is room for it. It answers how many values were in the row.
pub fn spare_row<T: Drop>(
    alloc: Global,
    rows: &mut [Vec<T>],
    spare: &mut Vec<Vec<T>>,
    place: usize,
) -> usize
    requires { place < length rows.old }
    ensures emptied { (k : ℕ) → row_of rows.new k ≡ (if k == place then [] else row_of rows.old k) }
    ensures count { result ≡ length (row_of rows.old place) }
{
    let row = replace(&mut rows[place], Vec::new(alloc));
    let count = row.len();
    if 0 < count && spare.len() < spare.capacity() {
        spare.push_reserved(row);
    }
    count
}

/// Adds a value at the end of a row that has room.
pub fn push_in<T: Drop>(rows: &mut [Vec<T>], place: usize, value: T)
    requires room { HasRoom rows.old place }
    ensures { (k : ℕ) → row_of rows.new k ≡ (if k == place then row_of rows.old k ++ value ∷ [] else row_of rows.old k) }
{
    rows[place].push_reserved(value);
}
