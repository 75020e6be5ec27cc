//! The tables of which controllers are composed. Each answers its questions on a view as a search of the whole view would.
//!
//! A table is told of an entry in two steps: [`reserve`](Running::reserve) takes all memory that the entry needs and changes no answer,
//! and [`note`](Running::note), which takes none, changes the answers. So a controller of several tables takes the memory for all of
//! them first, and want of memory leaves it as it was.
#![tactic(auto)]

pub mod commits;
pub mod judged;
mod places;
pub mod readers;
mod rows;
pub mod running;
pub mod stamps;

pub use commits::Commits;
pub use judged::{is_backward, is_invalid};
pub use readers::Readers;
pub use running::{Running, Seen};
pub use stamps::Stamps;
