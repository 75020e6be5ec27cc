//! Judges what anybody tells of a run, from the report alone: no server runs.
//!
//! The entries are replayed once, with the tables and the controllers that a sequencer has, so that the cost of an entry does not grow
//! with the history. `finding` has what is found; `replay` the replay and its step; `allowed` which entries may come next; `tables` what
//! is kept of the entries so far; `finals`, `copies` and `rest` what is asked of a report whose history is legal.
#![tactic(auto)]

mod allowed;
mod copies;
mod finals;
pub mod finding;
mod replay;
mod rest;
mod sites;
mod tables;

pub use finding::{Finding, check, legal};
