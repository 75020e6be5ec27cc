//! The copies that are under way: which item is copied to which site, and who was asked for it.
#![tactic(auto)]

pub mod copiers;
mod table;

pub use copiers::Copiers;

#[cfg(test)]
mod tests;
