//! The one call that the program makes.
#![tactic(auto)]

pub mod answer;
pub mod call;
pub mod input;
pub mod judging;
pub mod lines;
pub mod running;
pub mod statuses;
pub mod wanted;

pub use call::{Ended, run};
pub use raid_command::Words;
pub use raid_merge::Schedule;
