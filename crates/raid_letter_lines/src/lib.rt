//! The lines of letters, for programs that try servers on them: the words of a line, the messages that they say, and the
//! steps and texts that several lines make (tests/letters.py has the form of the lines).
#![tactic(auto)]

pub mod messages;
pub mod steps;
pub mod texts;
pub mod words;

pub use messages::{Heard, letter_in, message_in};
pub use steps::{Step, add_line, are_alike};
pub use texts::Text;
pub use words::Words;
