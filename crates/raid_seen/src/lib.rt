//! What a history says of its transactions' programs and of its sites, kept in tables as its entries come: what each transaction has seen,
//! and what its program makes of that; the items' values; and how often each site has gone down and come up again.
//!
//! `readings` has what was read, `values` what is read now, `outages` how the sites have fared, `answers` the values that one program was
//! given, and `courses` how programs run on what their transactions have seen. `same` says when two entries are one.
#![tactic(auto)]

mod answers;
pub mod courses;
pub mod outages;
pub mod readings;
pub mod same;
pub mod values;

pub use outages::Outages;
pub use readings::Readings;
pub use values::Values;
