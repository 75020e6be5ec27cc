//! Workload texts, some of them too long to be written out.

use raid_base::NoMemory;
use raid_workload::Workload;
use raid_world::rounds;
use std::alloc::Global;

/// The most bytes that a text may have.
const MOST: usize = 1_000_000;

/// The workload of the text. Where it is none, memory is said to be refused.
fn workload(alloc: Global, text: &str) -> Result<Workload, NoMemory> {
    if text.len() > MOST {
        return Err(NoMemory);
    }
    raid_text::parse(alloc, text.as_bytes()).map_err(|_| NoMemory)
}

/// The bound on the picks of a run, for the workload of the text.
pub fn rounds_of(alloc: Global, text: &str) -> Result<u64, NoMemory> {
    Ok(rounds(&workload(alloc, text)?))
}

/// 200 programs at three sites move money between 40 items; two switches, a stop and a return.
pub fn transfers(alloc: Global) -> Result<String, NoMemory> {
    let mut text = String::new(alloc);
    text.push_str("workload 1\nsites 3 together 4\n")?;
    for item in 0..40u32 {
        text.push_str(format!(in alloc; "item b{item} 1000 at 1 2 3\n")?.as_str())?;
    }
    text.push_str("open lock generic\nswitch valid by generic after 50\n")?;
    text.push_str("switch stamp by suffix after 120\nstop 2 after 60\nreturn 2 after 90\n")?;
    for program in 1..=200u32 {
        let (from, to) = (program % 40, (program + 7) % 40);
        let home = 1 + (program - 1) % 3;
        let reads = format!(in alloc; "program {home}\nread b{from} r0\nread b{to} r1\n")?;
        let writes = format!(in alloc; "write b{from} r0 - 5\nwrite b{to} r1 + 5\nend\n")?;
        text.push_str(reads.as_str())?;
        text.push_str(writes.as_str())?;
    }
    text.push_str("done\n")?;
    Ok(text)
}

/// A workload that has of everything as much as there may be; it is of the second version where a program is tried again.
pub fn largest(alloc: Global, restarts: u32) -> Result<String, NoMemory> {
    let mut text = String::new(alloc);
    let head = if restarts == 0 {
        format!(in alloc; "workload 1\nsites 8 together 16\n")?
    } else {
        format!(in alloc; "workload 2\nsites 8 together 16\nrestarts {restarts}\n")?
    };
    text.push_str(head.as_str())?;
    for item in 0..1024u32 {
        text.push_str(format!(in alloc; "item i{item} 0 at 1 2 3 4 5 6 7 8\n")?.as_str())?;
    }
    text.push_str("open lock native\n")?;
    for _ in 0..32 {
        text.push_str("stop 1 after 1\nreturn 1 after 1\n")?;
    }
    for _ in 0..2000 {
        text.push_str("program 1\nend\n")?;
    }
    text.push_str("done\n")?;
    Ok(text)
}
