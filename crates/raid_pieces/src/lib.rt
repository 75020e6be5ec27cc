//! Texts that are read piece by piece: lines, words and parts of words, and the numbers that words are.
#![tactic(auto)]

mod cut;
mod names;
mod numbers;
mod unfit;

pub use cut::{first_piece, next_line, next_piece};
pub use names::Names;
pub use numbers::{number_of, value_of};
pub use unfit::Unfit;
