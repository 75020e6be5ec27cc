//! Serialization graph testing: an action that would put its transaction on a cycle of conflicts is refused.
#![tactic(auto)]

pub mod control;

pub use control::GraphControl;
