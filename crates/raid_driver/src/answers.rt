ghost use Rattle.std.specs.Prelude.{◌≡◌, [], OnOk};
ghost use Rattle.raid_base.specs.Find.{first_of};
ghost use Rattle.raid_program.specs.Run.{put};

use raid_base::{Item, NoMemory};
use std::alloc::Global;
use std::marker::Model;

/// The values that a program was given, each item once. Contracts see a list of pairs.
#[derive(Drop, Debug)]
pub struct Answers {
    held: Vec<(Item, i64)>,
}

impl Model for Answers {
    ghost use Rattle.std.specs.Prelude.{List, ℤ};
    ghost use Rattle.raid_base.specs.declared.names.Item.{Item};

    ghost Value = { List (Item × ℤ) };

    ghost view = { λ a. a.held.items };
}

/// The value of the first pair of an item, if there is one.
fn value_in(pairs: &[(Item, i64)], item: Item) -> Option<i64>
    ensures { result ≡ first_of item pairs.now }
{
    for (other, value) in pairs {
        if *other == item {
            return Some(*value);
        }
    }
    None
}

/// Puts the item's value in place of its old one, or at the end.
fn put(pairs: &mut Vec<(Item, i64)>, item: Item, value: i64) -> Result<(), NoMemory>
    ensures { OnOk result (pairs.new.items ≡ put pairs.old.items item value) }
{
    for k in 0..pairs.len() {
        if pairs[k].0 == item {
            pairs[k] = (item, value);
            return Ok(());
        }
    }
    pairs.push((item, value))?;
    Ok(())
}

impl Answers {
    /// No values.
    pub fn new(alloc: Global) -> Answers
        ensures { result ≡ [] }
    {
        Answers {
            held: Vec::new(alloc),
        }
    }

    /// The item's value, None exactly where none was given.
    pub fn value(&self, item: Item) -> Option<i64>
        ensures { result ≡ first_of item self.now }
    {
        value_in(self.held.as_slice(), item)
    }

    /// Adds a value, in place of the item's old one. After want of memory the answers are worth nothing.
    pub fn put(&mut self, item: Item, value: i64) -> Result<(), NoMemory>
        ensures { OnOk result (self.new ≡ put self.old item value) }
    {
        put(&mut self.held, item, value)
    }
}
