//! What a site stores: its copies of items, and the writes that are staged for transactions until they commit.
#![tactic(auto)]

pub mod copies;
mod slots;
mod staged;

pub use copies::{Copies, Held};
