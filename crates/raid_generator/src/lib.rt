//! Workloads made from a seed: transfers between the items of four sites, through three switches.
#![tactic(auto)]

mod draws;
mod items;
mod making;
mod programs;
#[cfg(test)]
mod tests;

pub use making::make;
