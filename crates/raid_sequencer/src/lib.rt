//! The sequencer: one letter, one step.
//!
//! `sequencer` has the server; `hearing` what it does with a letter, by who sent it; `rows` and `site_rows` what it places for
//! each message, row by row of the step table; `parts` what it decides from, and how an entry is placed and what it forces;
//! `fits` which letters fit.
#![tactic(auto)]

pub mod fits;
mod hearing;
pub mod parts;
mod rows;
pub mod sequencer;
mod site_rows;

pub use sequencer::Sequencer;
