//! The links between the servers: plain queues, each keeping order and losing nothing.
#![tactic(auto)]

pub mod links;
mod queue;
mod row;

pub use links::Links;
