//! Texts that are refused.

use crate::texts::{NOTHING, NOTHING_DONE};
use crate::told::{Outcome, Way, told};
use raid_base::NoMemory;
use std::alloc::Global;
use std::test::Fail;
use std::thread::Threads;

/// The most bytes that a text may have.
const MOST: usize = 4_194_304;

/// Texts, and what is said of each.
const REFUSED: [(&str, &str); 7] = [
    ("", "refused line 1 fault 14 end\n"),
    (
        "workload 1\nsites 0 together 1\n",
        "refused line 2 fault 3 range\n",
    ),
    (
        "workload 1\nsites 1 together 1\nitem a 1 at\n",
        "refused line 3 fault 7 nocopy\n",
    ),
    (
        "workload 1\nsites 1 together 1\nitem a 1 at 1 1\n",
        "refused line 3 fault 6 twice\n",
    ),
    (
        "workload 1\nsites 1 together 1\nitem a 1 at 1\nitem b 1 at 1\nopen lock native\nprogram 1\nread a r0\nend\nswitch valid by generic after 1\ndone\n",
        "refused line 9 fault 10 generic\n",
    ),
    (
        "workload 1\nsites 1 together 1\nitem a 1 at 1\nitem b 1 at 1\nopen lock native\nprogram 1\nread c r0\nend\nswitch valid by generic after 1\ndone\n",
        "refused line 7 fault 5 item\n",
    ),
    (
        "workload 1\nsites 1 together 1\nitem a 1 at 1\nitem b 1 at 1\nopen lock native\nprogram 1\nread a r0\n",
        "refused line 8 fault 14 end\n",
    ),
];

/// Texts of so many bytes, with the status, what is written, and what is left of the text.
const LENGTHS: [(usize, u8, &str, &str); 3] = [
    (MOST, 0, NOTHING_DONE, ""),
    (MOST + 1, 3, "refused too long\n", ""),
    (MOST + 4, 3, "refused too long\n", "ne\n"),
];

/// Runs a text behind a comment, which makes it `length` bytes long.
fn told_behind_a_comment<R: Threads + Sync>(
    rt: &R,
    alloc: Global,
    text: &str,
    length: usize,
) -> Result<Outcome, NoMemory> {
    let mut bytes = vec![in alloc; b'#'; length.saturating_sub(text.len() + 1)]?;
    bytes.push(b'\n')?;
    bytes.extend_from_slice(text.as_bytes())?;
    told(rt, alloc, "run", bytes.as_slice(), Way::Whole, Way::Whole)
}

#[test]
fn the_first_fault_is_named(rt: HostRuntime) -> Result<(), Fail> {
    for (text, line) in REFUSED {
        let told = told(
            &rt,
            rt.alloc(),
            "run",
            text.as_bytes(),
            Way::Whole,
            Way::Whole,
        )?;
        assert_eq!(rt; told.status, 3, "{line}");
        assert_eq!(rt; told.written(), line.as_bytes());
        assert!(rt; told.picks.is_empty(), "{line}");
    }
    Ok(())
}

#[test]
fn no_more_is_read_than_shows_that_a_text_is_too_long(rt: HostRuntime) -> Result<(), Fail> {
    for (length, status, written, left) in LENGTHS {
        let told = told_behind_a_comment(&rt, rt.alloc(), NOTHING, length)?;
        assert_eq!(rt; told.status, status, "{length}");
        assert_eq!(rt; told.written(), written.as_bytes(), "{length}");
        assert_eq!(rt; told.left(), left.as_bytes(), "{length}");
    }
    Ok(())
}
