//! The link between two servers that run on threads of their own, and what a server is for rounds on threads.
//!
//! A link has two ends. Its sender's server puts letters into the one and its receiver's server takes them from the other, each
//! without a look at the other's thread. Between the turns of all servers, when one thread has both ends, the link is settled.
#![tactic(auto)]

pub mod ends;
pub mod gate;
pub mod node;
#[cfg(test)]
mod tests;
pub mod way;

pub use ends::{Receiver, Sender, link, settle};
pub use gate::{Gate, Open};
pub use node::Node;
pub use way::OnTheWay;
