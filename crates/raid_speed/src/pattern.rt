//! The pattern: transaction k begins, reads item k, and commits a write of item k + 1, both counted round.

use raid_base::{Ask, Entry, Item, NoMemory, Pairs, Request, Site, Sites, Txn, Vector, Verdict};
use raid_control::Controller;
use std::alloc::Global;

/// The item of a number.
fn item_of(number: u32) -> Item {
    Item((number % 1024) as u16)
}

fn granted(verdict: Verdict) -> u32 {
    match verdict {
        Verdict::Grant => 1,
        Verdict::Wait | Verdict::Reject(_) => 0,
    }
}

fn begin(txn: Txn) -> Entry {
    Entry::Begin { txn, home: Site(1) }
}

fn read(txn: Txn) -> Entry {
    Entry::Read {
        txn,
        item: item_of(txn.0),
        site: Site(1),
    }
}

fn writes_of(alloc: Global, txn: Txn) -> Result<Pairs, NoMemory> {
    let mut writes = Pairs::new(alloc);
    writes.push((item_of(txn.0.saturating_add(1)), 1))?;
    Ok(writes)
}

fn commit(alloc: Global, txn: Txn, writes: Pairs) -> Entry {
    let request = Request {
        reads: Pairs::new(alloc),
        writes,
        under: Vector {
            count: 1,
            sessions: [1, 0, 0, 0, 0, 0, 0, 0],
        },
    };
    Entry::Commit {
        txn,
        request,
        applied: Sites(1),
    }
}

/// Judges and notes a transaction, and answers how many of its two actions were granted.
fn run_one(
    alloc: Global,
    control: &mut dyn Controller,
    txn: Txn,
    stamp: u32,
) -> Result<u32, NoMemory> {
    control.note(stamp, stamp, &begin(txn))?;
    let item = item_of(txn.0);
    let first = control.judge(&Ask::Read { txn, stamp, item });
    control.note(stamp.saturating_add(1), stamp, &read(txn))?;
    let reads = Pairs::new(alloc);
    let writes = writes_of(alloc, txn)?;
    let second = control.judge(&Ask::Commit {
        txn,
        stamp,
        reads: &reads,
        writes: &writes,
    });
    control.note(stamp.saturating_add(2), stamp, &commit(alloc, txn, writes))?;
    Ok(granted(first).saturating_add(granted(second)))
}

/// Judges and notes so many transactions one after the other, and answers how many actions were granted.
pub fn run_all(alloc: Global, control: &mut dyn Controller, count: u32) -> Result<u32, NoMemory> {
    let (mut grants, mut stamp, mut txn) = (0u32, 1u32, 1u32);
    for _ in 0..count {
        grants = grants.saturating_add(run_one(alloc, control, Txn(txn), stamp)?);
        stamp = stamp.saturating_add(3);
        txn = txn.saturating_add(1);
    }
    Ok(grants)
}

/// Makes the entries of a transaction, and answers how many of them are actions.
fn make_one(alloc: Global, txn: Txn) -> Result<u32, NoMemory> {
    let mut actions = 0u32;
    let writes = writes_of(alloc, txn)?;
    for entry in [begin(txn), read(txn), commit(alloc, txn, writes)] {
        if matches!(entry, Entry::Read { .. } | Entry::Commit { .. }) {
            actions = actions.saturating_add(1);
        }
    }
    Ok(actions)
}

/// Makes the entries of so many transactions, and answers how many of them are actions.
pub fn make_all(alloc: Global, count: u32) -> Result<u32, NoMemory> {
    let (mut actions, mut txn) = (0u32, 1u32);
    for _ in 0..count {
        actions = actions.saturating_add(make_one(alloc, Txn(txn))?);
        txn = txn.saturating_add(1);
    }
    Ok(actions)
}
