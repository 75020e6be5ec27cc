use raid_base::NoMemory;
use raid_merge::{Journal, Journals, Schedule, are_rising, merge};
use raid_message::{Pick, Step};
use std::alloc::Global;

/// A step of this clock, over a letter of this server.
pub fn step(clock: u64, from: u16) -> Step {
    Step { clock, from }
}

/// The pick that lets a server take a letter of another.
pub fn pick(server: u16, from: u16) -> Pick {
    Pick { server, from }
}

/// These steps as journals.
fn journals(alloc: Global, rows: &[&[Step]]) -> Result<Journals, NoMemory> {
    let mut journals = Journals::new(alloc);
    for row in rows {
        let mut journal = Journal::new(alloc);
        journal.push_all(row)?;
        journals.push(journal)?;
    }
    Ok(journals)
}

/// The merge of the journals with these steps. Where a clock doesn't rise, memory is said to be refused.
pub fn merged(alloc: Global, rows: &[&[Step]]) -> Result<Schedule, NoMemory> {
    let journals = journals(alloc, rows)?;
    if journals.len() > 65536 || !are_rising(&journals) {
        return Err(NoMemory);
    }
    merge(alloc, &journals)
}
