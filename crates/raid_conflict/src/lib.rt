//! The conflict graph of a list of noted entries: what a transaction reaches, whether an action would close a
//! cycle, and the order of the committed transactions.
#![tactic(auto)]

mod ahead;
mod arrange;
mod chains;
mod closing;
mod found;
pub mod graph;
pub mod laws;
mod running;
mod search;
mod state;
mod tables;

pub use graph::Graph;
