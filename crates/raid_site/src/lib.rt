//! The server of one site: what it does with one letter.
//!
//! `table` has its rows, one function for each letter, and `letters` says which row a letter has. `programs` has what the rows do with the
//! programs that run at the site, `fits` which letters fit, `holding` which sites hold what is written.
#![tactic(auto)]

mod fits;
mod hearing;
mod holding;
pub mod laws;
mod letters;
pub mod parts;
mod programs;
pub mod server;
mod table;

pub use parts::Parts;
pub use server::SiteServer;
