//! Fail-locks: which copies have missed a write and may not be read, which sites owe an acknowledgement, which sites are up, and where
//! an item is read. Entries are noted one after the other; nothing is searched in what was noted.
#![tactic(auto)]

mod debts;
pub mod faillocks;
mod locks;

pub use faillocks::FailLocks;
