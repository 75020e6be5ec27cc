//! The world on one thread: all servers, the links between them, and each server's clock and journal. A pick lets one server take one
//! letter, and changes the world as the definitions of a run say.
#![tactic(auto)]

pub mod bound;
pub mod copying;
pub mod opening;
mod posting;
pub mod servers;
pub mod telling;
pub mod times;
pub mod world;

pub use bound::rounds;
pub use world::World;
