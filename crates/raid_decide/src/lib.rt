//! What the sequencer decides from its parts: the answers to reads and commits, and the entry that is forced.
//!
//! `homes` has where a transaction runs; `sites` what the sites say of a commit before any controller is asked; `answers` the answers to
//! reads and commits, given what the controllers in force say, and `asked` the same with the controllers asked; `woken` which waiting request
//! needn't wait any more; `forced` the entries that may have to come next, and which one has to.
#![tactic(auto)]

pub mod answers;
pub mod asked;
pub mod forced;
pub mod homes;
pub mod sites;
pub mod woken;
