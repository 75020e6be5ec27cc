//! Strict two-phase locking: read locks are taken at reads and kept to the end, write locks are taken all at the commit. A commit waits
//! while another running transaction has read what it writes.
#![tactic(auto)]

pub mod control;

pub use control::LockControl;
