//! The least cycle through a transaction, in any graph of transactions.
#![tactic(auto)]

pub mod graph;
mod marks;
mod search;
#[cfg(test)]
mod tests;

pub use graph::Graph;
pub use search::least_cycle;
