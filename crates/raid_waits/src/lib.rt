//! The requests that wait for others to end, and the cycles that they could close.
#![tactic(auto)]

mod laws;
mod search;
#[cfg(test)]
mod tests;
pub mod waits;

pub use laws::closing_is_that_of_histories;
pub use waits::Waits;
