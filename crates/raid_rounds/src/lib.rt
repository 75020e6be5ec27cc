//! Rounds over servers that run on threads: in a round each server takes one turn, in a thread of its own, and then all links
//! settle. Any server will do that is a `raid_link::Node`, and whatever its links are, an end of the rounds says whether a letter is left.
#![tactic(auto)]

pub mod run;

pub use run::{Rounds, run_rounds};
