//! Advice on a workload: the switch that the end of a history speaks for, and the workload with that switch.
//!
//! What is advised is a definition, `specs/Advice.antt`. Where the history is legal, the workload with the
//! advised switch keeps every rule of a workload.
#![tactic(auto)]

mod added;
mod advice;
mod laws;
mod past;

pub use added::{may_be_added, with};
pub use advice::{Advice, advise};
pub use laws::advised_switches_may_be_added;
