//! What fail-locks answer after the entries of a line.

ghost use Rattle.std.specs.Prelude.{◌≤◌};

use crate::words::{digit, entry_in, item_at, site_at, sites_from, txn_at};
use raid_base::{NoMemory, Placement, Site};
use raid_faillock::FailLocks;
use std::alloc::Global;

/// How many questions were asked, and how many answers differ.
#[derive(Clone, Copy, Debug)]
pub struct Counts {
    pub asked: u32,
    pub differ: u32,
}

impl Counts {
    /// Counts a question, and whether its answer is the wanted one.
    fn with(self, same: bool) -> Counts {
        Counts {
            asked: self.asked.saturating_add(1),
            differ: if same {
                self.differ
            } else {
                self.differ.saturating_add(1)
            },
        }
    }
}

/// How many sites the line has: as many as its vector.
fn count_of(line: &str) -> u8
    ensures least { 1 ≤ result }
    ensures most { result ≤ 8 }
{
    let mut sites = 1u8;
    for word in line.split_whitespace() {
        if word.as_bytes().first() == Some(&b'v') {
            sites = word.len().saturating_sub(1).clamp(1, 8) as u8;
        }
    }
    sites.clamp(1, 8)
}

/// The holders of the items of a line.
fn placed(alloc: Global, line: &str) -> Result<Placement, NoMemory> {
    let mut placement = Placement::new(alloc);
    for word in line.split_whitespace() {
        if word.as_bytes().first() == Some(&b'h') {
            placement.push(sites_from(word.as_bytes(), 1))?;
        }
    }
    Ok(placement)
}

/// The fail-locks after the entries of a line.
pub fn noted(alloc: Global, line: &str) -> Result<FailLocks, NoMemory> {
    let placement = placed(alloc, line)?;
    let mut locks = FailLocks::new(alloc, &placement, count_of(line))?;
    for word in line.split_whitespace() {
        if let Some(entry) = entry_in(alloc, word.as_bytes())? {
            if locks.may_note(&entry) {
                locks.note(&entry)?;
            }
        }
    }
    Ok(locks)
}

/// Compares the sessions, and how many there are.
fn sessions(counts: Counts, locks: &FailLocks, word: &[u8]) -> Counts {
    let sites = usize::from(locks.vector().count);
    let mut counts = counts.with(sites.saturating_add(1) == word.len());
    for number in 1..9u8 {
        let session = locks.vector().session(Site(number));
        counts = counts.with(session == u32::from(digit(word, usize::from(number))));
    }
    counts
}

/// Compares who owes a transaction's acknowledgement.
fn owed(counts: Counts, locks: &FailLocks, word: &[u8]) -> Counts {
    let sites = sites_from(word, 2);
    let mut counts = counts;
    for number in 1..9u8 {
        let site = Site(number);
        counts = counts.with(locks.owes(site, txn_at(word, 1)) == sites.contains(site));
    }
    counts
}

/// Compares which copies of an item are locked.
fn locked(counts: Counts, locks: &FailLocks, word: &[u8]) -> Counts {
    let sites = sites_from(word, 2);
    let mut counts = counts;
    for number in 1..9u8 {
        let site = Site(number);
        counts = counts.with(locks.is_locked(site, item_at(word, 1)) == sites.contains(site));
    }
    counts
}

/// Compares whether any copy is locked.
fn any(counts: Counts, locks: &FailLocks, word: &[u8]) -> Counts {
    counts.with(locks.is_any_locked() == (digit(word, 1) == 1))
}

/// Compares which sites have a locked copy.
fn anywhere(counts: Counts, locks: &FailLocks, word: &[u8]) -> Counts {
    counts.with(locks.locked_sites() == sites_from(word, 1))
}

/// Compares where an item is read.
fn source(counts: Counts, locks: &FailLocks, word: &[u8]) -> Counts {
    let number = match locks.source_for(item_at(word, 1), site_at(word, 2)) {
        Some(site) => site.0,
        None => 0,
    };
    counts.with(number == digit(word, 3))
}

/// Compares what a word says, if it is an answer.
fn answer(counts: Counts, locks: &FailLocks, word: &[u8]) -> Counts {
    match word.first() {
        Some(b'v') => sessions(counts, locks, word),
        Some(b'o') => owed(counts, locks, word),
        Some(b'b') => locked(counts, locks, word),
        Some(b'a') => any(counts, locks, word),
        Some(b's') => anywhere(counts, locks, word),
        Some(b'r') => source(counts, locks, word),
        _ => counts,
    }
}

/// Compares the answers of a line.
pub fn compared(locks: &FailLocks, line: &str) -> Counts {
    let mut counts = Counts {
        asked: 0,
        differ: 0,
    };
    for word in line.split_whitespace() {
        counts = answer(counts, locks, word.as_bytes());
    }
    counts
}
