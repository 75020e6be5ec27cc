//! The trait of concurrency controllers, what one controller hands to the next at a switch, and the rack from which controllers are taken.
//!
//! The sequencer above knows controllers by the trait alone, and so do all contracts: which tables a controller keeps is its own affair.
#![tactic(auto)]

pub mod carry;
pub mod controller;
pub mod laws;
pub mod rack;

pub use carry::Carry;
pub use controller::{Blocks, Controller};
pub use laws::{judge_alike, kept_are_a_carry};
pub use rack::{Rack, Slot};
