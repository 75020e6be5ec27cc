//! The controllers in force, with the rack that they come from and go back to, kept in step with the history as one value.
//!
//! Nothing is made here: whatever switch a workload has, the rack has a controller for it, and each one that is no longer in force goes back
//! cleared. Contracts take what the boxes say of themselves by one argument, `⟦<dyn Controller as Controller>⟧` (specs/Boxed).
#![tactic(auto)]

pub mod force;
pub mod laws;
mod lend;

pub use force::Force;
pub use laws::switches_go_elsewhere;
