//! The driver: the programs that run at one site, from their begin to their end.
#![tactic(auto)]

mod answers;
pub mod driver;
mod homes;
pub mod task;
mod tasks;

pub use driver::Driver;
pub use task::{Doing, Task};
