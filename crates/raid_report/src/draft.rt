//! What the lines of a report say so far.

use raid_base::{CopyList, Entries, Pairs, TxnList};

/// What may stand next.
#[derive(Clone, Copy, Debug, PartialEq, Eq)]
pub enum Place {
    /// The first line.
    Start,
    /// An entry, or the order.
    Entries,
    /// A final value, a copy, or the last line.
    Tail,
    /// Nothing.
    Over,
}

/// A report as far as it has been read.
#[derive(Drop, Debug)]
pub struct Draft {
    pub place: Place,
    pub entries: Entries,
    pub order: TxnList,
    pub finals: Pairs,
    pub copies: CopyList,
}
