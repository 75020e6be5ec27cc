//! Backward validation: a commit is refused where an item that its transaction read was written since the transaction's Begin. To validate
//! and to write is one step.
#![tactic(auto)]

pub mod control;

pub use control::ValidControl;
