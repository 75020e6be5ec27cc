//! Workloads.

use raid_base::NoMemory;
use raid_workload::Workload;
use std::alloc::Global;

/// The most bytes that a text may have.
const MOST: usize = 1_000_000;

/// The workload of the text. Where it is none, memory is said to be refused.
pub fn workload(alloc: Global, text: &str) -> Result<Workload, NoMemory> {
    if text.len() > MOST {
        return Err(NoMemory);
    }
    raid_text::parse(alloc, text.as_bytes()).map_err(|_| NoMemory)
}

/// Two sites, with one program each.
pub const TWO: &str =
    "workload 1\nsites 2 together 2\nitem x 0 at 1 2\nitem y 0 at 1 2\nopen lock native\nprogram 1\nwrite x 1\nend\nprogram 2\nwrite y 2\nend\ndone\n";

/// Two sites with an item at both. The second stops once a program has ended, and returns once both have.
pub const STOPS: &str =
    "workload 1\nsites 2 together 1\nitem x 0 at 1 2\nopen lock native\nstop 2 after 1\nreturn 2 after 2\nprogram 1\nwrite x 1\nend\nprogram 1\nread x r0\nend\ndone\n";
