//! The workload text: reading it, and writing it.
#![tactic(auto)]

mod body;
mod choices;
mod error;
mod head;
mod laws;
mod names;
mod reading;
mod state;
mod statements;
mod writing;

pub use error::Refused;
pub use laws::{never_both, one_of_both, one_reading, print_reads};
pub use reading::parse;
pub use writing::print;
