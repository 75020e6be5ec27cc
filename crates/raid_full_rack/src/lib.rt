//! The rack that a program needs: whatever switch a workload has, there is a controller for it.
//!
//! A function that makes a box of a `dyn` type can promise nothing of it to whom it is handed out. So the controllers come in boxes of
//! their own types, which become boxes of one type where they are passed to [`full_rack`]: in a function that has no such type in its
//! signature, as `main`.
#![tactic(auto)]

pub mod controllers;
pub mod rack;

pub use controllers::Controllers;
pub use rack::full_rack;

#[cfg(test)]
mod tests;
