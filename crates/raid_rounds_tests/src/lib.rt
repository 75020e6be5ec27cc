//! Tests of rounds on real threads, with relays in a ring that pass letters on. Each call that can refuse memory succeeds where there is some.
#![tactic(auto)]

pub mod making;
pub mod relay;
pub mod settling;
#[cfg(test)]
mod tests;

pub use making::ring_of_three;
pub use relay::{Relay, Ring};
