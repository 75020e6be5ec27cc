//! Sessions: what a stop or a return of a site does to a vector, which sites are up in it, and where two vectors agree.
//! `sets` has what else is done with sets of sites.
#![tactic(auto)]

pub mod sessions;
pub mod sets;

pub use sessions::{after_down, after_up, agrees, up_sites};
pub use sets::{difference, union, without};

#[cfg(test)]
mod tests;
