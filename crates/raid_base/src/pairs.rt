ghost use Rattle.std.specs.Prelude.{◌≡◌};
ghost use Rattle.raid_base.specs.Find.{first_of};

use crate::list::Listed;
use crate::names::Item;

/// Items with values. An item's value is that of its first pair.
pub type Pairs = Listed<(Item, i64)>;

/// The value of the first pair of an item; None exactly where no pair has the item.
pub fn find(pairs: &Pairs, item: Item) -> Option<i64>
    ensures { result ≡ first_of item pairs.now }
{
    for (other, value) in pairs.as_slice() {
        if *other == item {
            return Some(*value);
        }
    }
    None
}
