//! The entries of a view.

use crate::words::{self, Sort, Word};
use anyhow::Result;
use raid_base::{Act, Cause, Entry, Listed, Noted, Pairs, Request, Sites, Vector};
use std::alloc::Global;

/// Pairs of the items from a place on, each with the value 0.
pub fn pairs(alloc: Global, line: &[Word], from: usize, to: usize) -> Result<Pairs> {
    let mut pairs = Listed::new(alloc);
    for place in from..to {
        pairs.push((words::item(line, place)?, 0))?;
    }
    Ok(pairs)
}

/// The set of the sites from a place on.
pub fn sites(line: &[Word], from: usize) -> Result<Sites> {
    let mut sites = Sites::none();
    for place in from..line.len() {
        sites = sites.with(words::site(line, place)?);
    }
    Ok(sites)
}

/// A Commit's entry: its transaction, the number of items, the items, and the sites where it is applied.
fn commit(alloc: Global, line: &[Word]) -> Result<Entry> {
    let txn = words::txn(line, 4)?;
    let end = 6usize.saturating_add(words::number(line, 5)? as usize);
    let writes = pairs(alloc, line, 6, end)?;
    let applied = sites(line, end)?;
    let request = Request {
        reads: Listed::new(alloc),
        writes,
        under: Vector {
            count: 0,
            sessions: [0; 8],
        },
    };
    Ok(Entry::Commit {
        txn,
        request,
        applied,
    })
}

/// The entry that a line tells.
fn entry(alloc: Global, line: &[Word]) -> Result<Entry> {
    let entry = match words::entry_sort(line, 3)? {
        Sort::Begin => Entry::Begin {
            txn: words::txn(line, 4)?,
            home: words::site(line, 5)?,
        },
        Sort::Read => Entry::Read {
            txn: words::txn(line, 4)?,
            item: words::item(line, 5)?,
            site: words::site(line, 6)?,
        },
        Sort::Commit => commit(alloc, line)?,
        Sort::Abort => Entry::Abort {
            txn: words::txn(line, 4)?,
            cause: Cause::HomeDown,
            act: Act::Nothing,
        },
        Sort::Ack => Entry::Ack {
            txn: words::txn(line, 4)?,
            site: words::site(line, 5)?,
        },
        Sort::Down => Entry::Down {
            site: words::site(line, 4)?,
        },
        Sort::Up => Entry::Up {
            site: words::site(line, 4)?,
            session: words::number(line, 5)?,
        },
        Sort::Clear => Entry::Clear {
            site: words::site(line, 4)?,
            item: words::item(line, 5)?,
            version: words::number(line, 6)?,
        },
        Sort::Other => Entry::SwitchEnd { switch: 1 },
    };
    Ok(entry)
}

/// The noted entry that a line tells.
pub fn noted(alloc: Global, line: &[Word]) -> Result<Noted> {
    let at = words::number(line, 1)?;
    let stamp = words::number(line, 2)?;
    let entry = entry(alloc, line)?;
    Ok(Noted { at, stamp, entry })
}
