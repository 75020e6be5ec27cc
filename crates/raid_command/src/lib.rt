//! What the words of the command line ask for.
//!
//! `clap` says which words are options and which are values; what a number is, is said here.
#![tactic(auto)]

pub mod asked;
mod number;
mod options;
pub mod reader;
pub mod words;

pub use asked::Command;
pub use reader::command;
pub use words::Words;

#[cfg(test)]
mod tests;
