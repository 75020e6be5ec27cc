//! The words that lines are made of.
#![tactic(auto)]

mod fault;
mod forms;
mod next;

pub use fault::Fault;
pub use next::{
    is_word, number_of, take_end, take_keyword, take_name, take_number, take_register, take_term,
    take_value, take_word,
};
