//! What controllers in boxes say of themselves, for definitions that speak of them.
//!
//! No type can name what the controller in a box stands for. So a word of `specs/` that rests on it takes what the
//! boxes say as one argument, and a contract hands that over. There is no function here.
#![tactic(auto)]
