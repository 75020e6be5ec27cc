//! The servers of a workload as nodes on threads: each has its own state, clock and journal, and its ends of the links to and from all.
//!
//! What a node does is what `raid_causes` says of a server by itself, so whatever is shown there of such servers holds of these.
#![tactic(auto)]

pub mod linking;
pub mod making;
pub mod node;
pub mod running;
pub mod sending;
pub mod server;
pub mod settling;
pub mod taking;
pub mod telling;
pub mod turning;
pub mod world;

pub use node::ServerNode;
pub use server::Server;
pub use world::Nodes;
