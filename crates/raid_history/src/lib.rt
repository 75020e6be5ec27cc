//! The history: its entries, with tables that answer what is asked of it without a search.
#![tactic(auto)]

pub mod history;
mod tables;

pub use history::History;
