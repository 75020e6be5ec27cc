//! Tests of the bound on a run's picks, at values worked out by hand. Each call that can refuse memory succeeds where there is some.
#![tactic(auto)]

#[cfg(test)]
mod tests;
pub mod texts;
