//! Controllers give way to one another: whom a switch aborts, and which controllers are in force.
#![tactic(auto)]

pub mod abort;
pub mod eras;
pub mod laws;

pub use abort::abort_list;
pub use eras::{Control, Eras};
