use crate::entry::Entries;
use crate::list::{Listed, TxnList};
use crate::names::{Item, Site};
use crate::pairs::Pairs;

/// A copy of an item at a site, with the number of the Commit that wrote its value, 0 for the initial one.
#[derive(Clone, Copy, Debug, PartialEq, Eq)]
pub struct CopyLine {
    pub site: Site,
    pub item: Item,
    pub value: i64,
    pub version: u32,
}

/// Copies, by site, then item.
pub type CopyList = Listed<CopyLine>;

/// What is told of a run: its history, the serial order of the committed transactions, each item with its
/// final value, and all copies.
#[derive(Drop, Debug)]
pub struct Report {
    pub entries: Entries,
    pub order: TxnList,
    pub finals: Pairs,
    pub copies: CopyList,
}
