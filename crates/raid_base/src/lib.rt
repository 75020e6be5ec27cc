//! The words that every crate speaks: transactions, items, sites, entries and verdicts.
//!
//! The types are plain data. Lists are [`Listed`], which contracts see as lists; a value is made a second
//! time by [`Duplicate`], since making one takes memory.
#![tactic(auto)]

pub mod ask;
pub mod entry;
pub mod list;
pub mod names;
pub mod pairs;
pub mod report;
pub mod request;
pub mod sites;
pub mod verdict;

pub use ask::Ask;
pub use entry::{Act, Answer, Cause, Entries, Entry, Noted};
pub use list::{Bytes, Duplicate, Listed, Placement, TxnList};
pub use names::{Item, NoMemory, Site, Txn, attempt_of, program_of};
pub use pairs::{Pairs, find};
pub use report::{CopyLine, CopyList, Report};
pub use request::Request;
pub use sites::{Sites, Vector};
pub use verdict::{Kind, Method, Refusal, Structure, Verdict, meet};
