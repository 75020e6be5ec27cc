use crate::names::{Item, Txn};
use crate::pairs::Pairs;

/// What a transaction asks a controller to do next: an action that has no place in the history yet.
/// `stamp` is the number of the transaction's Begin.
#[derive(Clone, Copy)]
pub enum Ask<'a> {
    /// To read an item.
    Read {
        txn: Txn,
        stamp: u32,
        item: Item,
    },
    /// To commit, with the values that it read and the writes that it deferred. No verdict looks at the
    /// reads: what counts is which Reads the history has.
    Commit {
        txn: Txn,
        stamp: u32,
        reads: &'a Pairs,
        writes: &'a Pairs,
    },
}
