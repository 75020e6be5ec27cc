//! Texts that several tests use.

use std::alloc::{AllocError, Global};

/// An item that is 7, and no program.
pub const NOTHING: &str = "workload 1\nsites 1 together 1\nitem a 7 at 1\nopen lock native\ndone\n";

/// What is reported of it.
pub const NOTHING_DONE: &str = "report 1\norder -\nfinal a 7\ncopy s1 a 7 0\ndone\n";

/// Reads an item that is 100, and adds 5 to it.
pub const ADDS: &str =
    "workload 1\nsites 1 together 1\nitem a 100 at 1\nopen lock native\nprogram 1\nread a r0\nwrite a r0 + 5\nend\ndone\n";

/// What is reported of it.
pub const ADDED: &str =
    "report 1\n1 begin t1 at s1\n2 read t1 a at s1\n3 commit t1 reads a=100 writes a=105 under 1 applied s1\n4 ack t1 s1\norder t1\nfinal a 105\ncopy s1 a 105 3\ndone\n";

/// How the program is called.
pub const USAGE: &str =
    "usage: raid run [--brief] | raid make --seed N --count N | raid check | raid advise --last N\n";

/// One text behind another.
pub fn joined(alloc: Global, first: &str, second: &str) -> Result<String, AllocError> {
    let mut text = String::from_str(alloc, first)?;
    text.push_str(second)?;
    Ok(text)
}
