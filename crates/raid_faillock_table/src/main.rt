//! Notes lists of entries in fail-locks, and compares what they answer with the answers that stand beside the entries. The first lists
//! are worked by hand; the others are random, and the answers are those of a reference model (tests/make_locks.py has the form of the
//! lines). A list whose answers differ is printed.
#![tactic(auto)]

mod answers;
mod words;

use anyhow::Result;

fn main(rt: HostRuntime) -> Result<()> {
    let mut lists = 0u32;
    let mut asked = 0u32;
    let mut differ = 0u32;
    for line in rt.lines(rt.alloc()) {
        let line = line?;
        if line.starts_with('#') {
            continue;
        }
        let locks = answers::noted(rt.alloc(), line.as_str())?;
        let counts = answers::compared(&locks, line.as_str());
        if counts.differ > 0 {
            println!(rt; "differs: {line}")?;
        }
        lists = lists.saturating_add(1);
        asked = asked.saturating_add(counts.asked);
        differ = differ.saturating_add(counts.differ);
    }
    println!(rt; "{lists} lists, {asked} questions, {differ} answers differ")?;
    Ok(())
}
