//! The sequencer's history with the tables that are kept of it, as one value: what each entry sends, and what it does to the tables.
//!
//! `records` has the value; `homes` says which transaction each home begins next, `left` whose programs may be tried again, `announced`
//! which sessions were announced to have ended, `notes` what an entry does to each table, `sends` what it sends, and `copies` which
//! copies are to be renewed.
#![tactic(auto)]

pub mod announced;
pub mod copies;
pub mod homes;
pub mod left;
pub mod notes;
pub mod records;
pub mod sends;

pub use announced::Announced;
pub use homes::Nexts;
pub use left::Left;
pub use records::Record;
pub use sends::Notice;
