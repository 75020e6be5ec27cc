//! Many programs of several sites, with switches and a site that stops and returns.

use crate::told::{Way, told};
use std::alloc::{AllocError, Global};
use std::test::Fail;

const ITEMS: u32 = 40;

const PROGRAMS: u32 = 200;

/// Each program takes 5 from one item and adds it to the one seven further on.
pub fn moves(alloc: Global) -> Result<String, AllocError> {
    let mut text = String::from_str(alloc, "workload 1\nsites 3 together 4\n")?;
    for item in 0..ITEMS {
        write!(text, "item b{item:02} 1000 at 1 2 3\n")?;
    }
    text.push_str(
        "open lock generic\nswitch valid by generic after 50\nswitch stamp by suffix after 120\nstop 2 after 60\nreturn 2 after 90\n",
    )?;
    for program in 1..=PROGRAMS {
        let home = 1 + (program - 1) % 3;
        let from = program % ITEMS;
        let to = (program + 7) % ITEMS;
        write!(
            text,
            "program {home}\nread b{from:02} r0\nread b{to:02} r1\n"
        )?;
        write!(
            text,
            "write b{from:02} r0 - 5\nwrite b{to:02} r1 + 5\nend\n"
        )?;
    }
    text.push_str("done\n")?;
    Ok(text)
}

#[test]
fn two_hundred_programs_end_and_keep_the_sum(rt: HostRuntime) -> Result<(), Fail> {
    let text = moves(rt.alloc())?;
    let told = told(
        &rt,
        rt.alloc(),
        "run --brief",
        text.as_bytes(),
        Way::Whole,
        Way::Whole,
    )?;
    assert_eq!(rt; told.status, 0);
    assert_eq!(rt;
        told.written(),
        b"transactions 200 ended 200 total 40000\n".as_slice()
    );
    Ok(())
}
