//! Where bytes come from and where they go: in memory, for tests and callers, and the program's own streams.
//!
//! An end of either sort counts its faults. A call fails only where the count rises in it, so a caller that
//! says "the source failed" can be held to it; over an end whose count is the constant 0 no call fails.
#![tactic(auto)]

pub mod failed;
pub mod sink;
pub mod source;
pub mod streams;
pub mod whole;

pub use failed::Failed;
pub use sink::{MemorySink, PlainSink, Sink};
pub use source::{MemorySource, PlainSource, Source};
pub use streams::{InputSource, OutputSink};
pub use whole::{OFFERED, ReadError, read_up_to, write_all};
