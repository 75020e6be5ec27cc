//! Basic timestamp ordering by the numbers of the Begins: an action that comes too late for its stamp is refused. The reads of aborted
//! transactions count too.
#![tactic(auto)]

pub mod control;

pub use control::StampControl;
