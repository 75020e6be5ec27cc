//! The serial order of the committed transactions.

ghost use Rattle.std.specs.Prelude.{◌≡◌, true, false, ◌∷◌, ◌++◌, ◌&&◌, not, map, find, option_to_list, OnOk, IfOk};
ghost use Rattle.std.specs.List.{list_any};
ghost use Rattle.raid_base.specs.Names.{is_txn, has_txn};
ghost use Rattle.raid_rules.specs.Conflict as words;
ghost use Rattle.raid_rules.specs.Committed as sets;

use crate::conflict;
use raid_base::{Entry, Listed, NoMemory, Noted, Txn, TxnList};
use std::alloc::Global;

/// What the committed transactions allow.
#[derive(Drop, Debug)]
pub enum Order {
    /// All of them, one after another, each conflict leading onward.
    Whole(TxnList),
    /// They have a cycle of conflicts: from each of these to the next, and from the last to the first.
    Cyclic(TxnList),
}

/// Adds the transaction that the entry commits, if it is a Commit.
fn push_committed(committed: &mut TxnList, entry: &Entry) -> Result<(), NoMemory>
    ensures { OnOk result (committed.new ≡ committed.old ++ map (λ c. c.0) (option_to_list (words.commit_of entry.now))) }
{
    match entry {
        Entry::Commit { txn, .. } => committed.push(*txn),
        _ => Ok(()),
    }
}

/// The committed transactions, in the order of their Commits.
pub fn committed(alloc: Global, view: &[Noted]) -> Result<TxnList, NoMemory>
    ensures { IfOk result (λ ts. ts ≡ words.committed view.now) }
{
    let mut committed = Listed::new(alloc);
    for noted in view {
        push_committed(&mut committed, &noted.entry)?;
    }
    Ok(committed)
}

/// Whether a committed transaction that isn't listed has an edge to this one.
fn has_to_wait(pairs: &[(Txn, Txn)], all: &[Txn], listed: &[Txn], txn: Txn) -> bool
    ensures { result ≡ list_any (words.waits_for all.now listed.now txn) pairs.now }
{
    pairs.iter().any(|(from, to)| *to == txn
        && conflict::is_listed(all, *from)
        && !conflict::is_listed(listed, *from))
}

/// Whether the transaction may be listed next: it isn't listed, and each committed one with an edge to it is.
fn is_next(pairs: &[(Txn, Txn)], all: &[Txn], listed: &[Txn], txn: Txn) -> bool
    ensures { result ≡ words.is_next pairs.now all.now listed.now txn }
{
    !conflict::is_listed(listed, txn) && !has_to_wait(pairs, all, listed, txn)
}

/// The first that may be listed next.
fn next(pairs: &[(Txn, Txn)], all: &[Txn], listed: &[Txn]) -> Option<Txn>
    ensures { result ≡ find (words.is_next pairs.now all.now listed.now) all.now }
{
    all.iter()
        .copied()
        .find(|txn| is_next(pairs, all, listed, *txn))
}

/// Lists the first that may be listed next, if there is one.
fn list_next(pairs: &[(Txn, Txn)], all: &[Txn], listed: &mut TxnList) -> Result<(), NoMemory>
    ensures { OnOk result (listed.new ≡ words.list_next pairs.now all.now listed.old) }
{
    match next(pairs, all, listed.as_slice()) {
        Some(txn) => listed.push(txn),
        None => Ok(()),
    }
}

/// As many of the committed ones as can be listed, each after those that have an edge to it.
fn listing(alloc: Global, pairs: &[(Txn, Txn)], all: &[Txn]) -> Result<TxnList, NoMemory>
    ensures { IfOk result (λ ts. ts ≡ words.listing pairs.now all.now) }
{
    let mut listed = Listed::new(alloc);
    for _round in all {
        list_next(pairs, all, &mut listed)?;
    }
    Ok(listed)
}

/// The first of them that isn't listed.
fn unlisted(all: &[Txn], listed: &[Txn]) -> Option<Txn>
    ensures { result ≡ find (λ t. not (has_txn listed.now t)) all.now }
{
    all.iter()
        .copied()
        .find(|txn| !conflict::is_listed(listed, *txn))
}

/// A list with one more at its front.
fn before(alloc: Global, first: Txn, rest: &[Txn]) -> Result<TxnList, NoMemory>
    ensures { IfOk result (λ ts. ts ≡ first ∷ rest.now) }
{
    let mut list = Listed::new(alloc);
    list.push(first)?;
    for txn in rest {
        list.push(*txn)?;
    }
    Ok(list)
}

/// A list up to a transaction, and it.
fn up_to(alloc: Global, last: Txn, list: &[Txn]) -> Result<TxnList, NoMemory>
    ensures { IfOk result (λ ts. ts ≡ sets.up_to last list.now) }
{
    let mut front = Listed::new(alloc);
    for txn in list {
        front.push(*txn)?;
        if *txn == last {
            return Ok(front);
        }
    }
    Ok(front)
}

/// A committed transaction that isn't listed and has an edge to this one.
fn waited_for(pairs: &[(Txn, Txn)], all: &[Txn], listed: &[Txn], txn: Txn) -> Txn
    requires { list_any (words.waits_for all.now listed.now txn) pairs.now ≡ true }
    ensures edge { list_any (λ e. is_txn result e.0 && is_txn txn e.1) pairs.now ≡ true }
    ensures committed { has_txn all.now result ≡ true }
    ensures unlisted { has_txn listed.now result ≡ false }
{
    for (from, to) in pairs {
        if *to == txn && conflict::is_listed(all, *from) && !conflict::is_listed(listed, *from) {
            return *from;
        }
    }
    unreachable!()
}

/// A cycle among those that can't be listed, found by a walk from one of them, back along edges.
fn cycle(
    alloc: Global,
    pairs: &[(Txn, Txn)],
    all: &[Txn],
    listed: &[Txn],
    start: Txn,
) -> Result<TxnList, NoMemory>
    requires stuck { sets.IsStuck pairs.now all.now listed.now }
    requires committed { has_txn all.now start ≡ true }
    requires unlisted { has_txn listed.now start ≡ false }
    ensures { IfOk result (sets.IsCycle (sets.Joins pairs.now all.now)) }
{
    let mut walk = before(alloc, start, &[])?;
    let mut last = start;
    loop {
        let next = waited_for(pairs, all, listed, last);
        if conflict::is_listed(walk.as_slice(), next) {
            let cycle = up_to(alloc, next, walk.as_slice())?;
            return Ok(cycle);
        }
        walk = before(alloc, next, walk.as_slice())?;
        last = next;
    }
}

/// The listing of these transactions by these edges, or a cycle of theirs.
fn arranged(alloc: Global, pairs: &[(Txn, Txn)], all: &[Txn]) -> Result<Order, NoMemory>
    ensures { IfOk result (sets.Arranges pairs.now all.now) }
{
    let listed = listing(alloc, pairs, all)?;
    match unlisted(all, listed.as_slice()) {
        None => Ok(Order::Whole(listed)),
        Some(start) => {
            let cycle = cycle(alloc, pairs, all, listed.as_slice(), start)?;
            Ok(Order::Cyclic(cycle))
        }
    }
}

/// The order of the committed transactions: whole, with the serial order, or cyclic, exactly where they have
/// a cycle of conflicts. Want of memory is the only error.
pub fn order_of(alloc: Global, view: &[Noted]) -> Result<Order, NoMemory>
    ensures { IfOk result (sets.IsOrderOf view.now) }
{
    let edges = conflict::edges(alloc, view)?;
    let all = committed(alloc, view)?;
    let order = arranged(alloc, edges.as_slice(), all.as_slice())?;
    Ok(order)
}
