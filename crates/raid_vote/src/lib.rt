//! Votes on commits: which votes a home awaits for each of its transactions in preparation, and what a site answers when it
//! is asked to prepare.
#![tactic(auto)]

pub mod ballots;
mod changes;
pub mod reply;

pub use ballots::Ballots;
pub use reply::answer;

#[cfg(test)]
mod tests;
