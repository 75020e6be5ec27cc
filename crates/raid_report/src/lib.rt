//! The text of a report: written, read back, and summed up.
#![tactic(auto)]

mod draft;
mod entries;
mod error;
mod known;
mod laws;
mod lines;
mod next;
mod put;
mod reading;
mod summary;
mod words;
mod writing;

pub use laws::print_tells_apart;
pub use raid_base::{CopyLine, CopyList, Report};
pub use reading::{ReportRefused, parse};
pub use summary::brief;
pub use writing::print;
