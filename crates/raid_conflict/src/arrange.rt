ghost use Rattle.std.specs.Prelude.{◌≡◌, ◌<◌, ◌≤◌, ℕ, true, false, not, ◌&&◌, ◌||◌, List, [], ◌∷◌, ◌++◌, AllPairs, find, take, drop, length, slice_index_or, vec_len, IfOk, OnOk, OnErr};
ghost use Rattle.std.specs.Bool.{OnTrue, OnFalse};
ghost use Rattle.std.specs.List.{list_any};
ghost use Rattle.raid_base.specs.declared.names.Txn.{Txn};
ghost use Rattle.raid_base.specs.declared.entry.Noted.{Noted};
ghost use Rattle.raid_base.specs.Names.{is_txn, has_txn};
ghost use Rattle.raid_rules.specs.Conflict.{edges, committed, list_next, listing};
ghost use Rattle.raid_rules.specs.Committed.{up_to, IsCycle, IsOrderOf};
ghost use Rattle.raid_conflict.specs.Arrange as words;
ghost use Rattle.raid_conflict.specs.Arrange.{IsLeft, Joined};
ghost use Rattle.raid_conflict.specs.Found.{is_marked};
ghost use Rattle.raid_conflict.specs.Tables.{Tells};

use crate::ahead;
use crate::tables::{self, Tables};
use raid_base::{NoMemory, Txn, TxnList};
use raid_rules::conflict;
use raid_rules::order::Order;
use std::alloc::Global;

/// Marks a transaction.
fn mark(left: &mut Vec<bool>, txn: Txn) -> Result<(), NoMemory>
    ensures { OnOk result ((t : Txn) → is_marked left.new.items t ≡ (is_marked left.old.items t || is_txn t txn)) }
{
    let place = txn.0 as usize;
    tables::grow(left, place, false)?;
    left[place] = true;
    Ok(())
}

/// Marks of these transactions.
fn marks_of(alloc: Global, txns: &[Txn]) -> Result<Vec<bool>, NoMemory>
    ensures { IfOk result (λ left. (t : Txn) → is_marked left.items t ≡ has_txn txns.now t) }
{
    let mut left = Vec::new(alloc);
    for txn in txns {
        mark(&mut left, *txn)?;
    }
    Ok(left)
}

/// Takes the transaction's mark away.
fn unmark(left: &mut Vec<bool>, txn: Txn)
    ensures { (t : Txn) → is_marked left.new.items t ≡ (is_marked left.old.items t && not (is_txn t txn)) }
{
    let place = txn.0 as usize;
    if place < left.len() {
        left[place] = false;
    }
}

/// Whether there is a transaction at this place that isn't left.
fn is_taken(left: &[bool], all: &[Txn], place: usize) -> bool
    ensures yes { OnTrue result ((place < length all.now) × ((d : Txn) → is_marked left.now (slice_index_or all.now place d) ≡ false)) }
    ensures no { OnFalse result (place < length all.now → (d : Txn) → is_marked left.now (slice_index_or all.now place d) ≡ true) }
{
    place < all.len() && !ahead::is_left(left, all[place])
}

/// The place of the first from this one on that is left, the end where none is.
fn place_left(left: &[bool], all: &[Txn], from: usize) -> usize
    requires within { from ≤ length all.now }
    requires none { list_any (λ t. is_marked left.now t) (take from all.now) ≡ false }
    ensures within { result ≤ length all.now }
    ensures none { list_any (λ t. is_marked left.now t) (take result all.now) ≡ false }
    ensures left { result < length all.now → (d : Txn) → is_marked left.now (slice_index_or all.now result d) ≡ true }
{
    let mut place = from;
    while is_taken(left, all, place) {
        place += 1;
    }
    place
}

/// Those from this place on.
fn rest(all: &[Txn], first: usize) -> &[Txn]
    requires { first ≤ length all.now }
    ensures { result.now ≡ drop first all.now }
{
    &all[first..]
}

/// The first of some that is left and need not wait.
fn next(tables: &Tables, left: &[bool], txns: &[Txn]) -> Option<Txn>
    ensures { result ≡ find (λ t. is_marked left.now t && not (words.waits tables.now left.now t)) txns.now }
{
    txns.iter().copied().find(|txn| ahead::is_left(left, *txn) && !ahead::waits(tables, left, *txn))
}

/// Lists the first that is left and need not wait, if there is one. None is left before the first place.
fn list_next(
    tables: &Tables,
    left: &mut Vec<bool>,
    all: &[Txn],
    first: usize,
    listed: &mut TxnList,
) -> Result<(), NoMemory>
    requires within { first ≤ length all.now }
    requires none { list_any (λ t. is_marked left.old.items t) (take first all.now) ≡ false }
    ensures ok { OnOk result ((view : List Noted) → Tells tables.now view → AllPairs (λ m n. m.at < n.at) view → IsLeft all.now left.old.items listed.old → (listed.new ≡ list_next (edges view) all.now listed.old) × IsLeft all.now left.new.items listed.new) }
    ensures less { (t : Txn) → is_marked left.new.items t ≡ true → is_marked left.old.items t ≡ true }
{
    match next(tables, left.as_slice(), rest(all, first)) {
        Some(txn) => {
            listed.push(txn)?;
            unmark(left, txn);
            Ok(())
        }
        None => Ok(()),
    }
}

/// As many of them as can be listed, each after those of them that have an edge to it. Those that can't stay
/// marked. Each search begins at the first that is left.
fn listing(
    alloc: Global,
    tables: &Tables,
    left: &mut Vec<bool>,
    all: &[Txn],
) -> Result<TxnList, NoMemory>
    ensures ok { IfOk result (λ listed. (view : List Noted) → Tells tables.now view → AllPairs (λ m n. m.at < n.at) view → IsLeft all.now left.old.items [] → (listed ≡ listing (edges view) all.now) × IsLeft all.now left.new.items listed) }
    ensures less { (t : Txn) → is_marked left.new.items t ≡ true → is_marked left.old.items t ≡ true }
{
    let mut listed = TxnList::new(alloc);
    let mut first = 0;
    for _round in all {
        first = place_left(left.as_slice(), all, first);
        list_next(tables, left, all, first, &mut listed)?;
    }
    Ok(listed)
}

/// The first that is left.
fn first_left(left: &[bool], all: &[Txn]) -> Option<Txn>
    ensures { result ≡ find (λ t. is_marked left.now t) all.now }
{
    all.iter().copied().find(|txn| ahead::is_left(left, *txn))
}

/// A list with one more at its front.
fn before(alloc: Global, first: Txn, rest: &[Txn]) -> Result<TxnList, NoMemory>
    ensures { IfOk result (λ ts. ts ≡ first ∷ rest.now) }
{
    let mut list = TxnList::new(alloc);
    list.push(first)?;
    for txn in rest {
        list.push(*txn)?;
    }
    Ok(list)
}

/// A list up to a transaction, and it.
fn front(alloc: Global, last: Txn, list: &[Txn]) -> Result<TxnList, NoMemory>
    ensures { IfOk result (λ ts. ts ≡ up_to last list.now) }
{
    let mut front = TxnList::new(alloc);
    for txn in list {
        front.push(*txn)?;
        if *txn == last {
            return Ok(front);
        }
    }
    Ok(front)
}

/// A cycle among those that are left, found by a walk from one of them, back along edges. Where one of them need
/// not wait, the walk may end there, and what it has gone through is no cycle.
fn cycle(
    alloc: Global,
    tables: &Tables,
    left: &[bool],
    all: &[Txn],
    start: Txn,
) -> Result<TxnList, NoMemory>
    requires within { (t : Txn) → is_marked left.now t ≡ true → has_txn all.now t ≡ true }
    requires left { is_marked left.now start ≡ true }
    ensures { IfOk result (λ ts. ((t : Txn) → is_marked left.now t ≡ true → words.waits tables.now left.now t ≡ true) → IsCycle (Joined tables.now left.now) ts) }
{
    let mut walk = before(alloc, start, &[])?;
    let mut last = start;
    loop {
        if !ahead::waits(tables, left, last) {
            return Ok(walk);
        }
        let next = ahead::waited_for(tables, left, last);
        if conflict::is_listed(walk.as_slice(), next) {
            let cycle = front(alloc, next, walk.as_slice())?;
            return Ok(cycle);
        }
        walk = before(alloc, next, walk.as_slice())?;
        last = next;
    }
}

/// The order of the committed transactions: whole, or a cycle of theirs.
pub fn arranged(alloc: Global, tables: &Tables) -> Result<Order, NoMemory>
    ensures { IfOk result (λ order. (view : List Noted) → Tells tables.now view → AllPairs (λ m n. m.at < n.at) view → IsOrderOf view order) }
{
    let all = tables.committed.as_slice();
    let mut left = marks_of(alloc, all)?;
    let listed = listing(alloc, tables, &mut left, all)?;
    match first_left(left.as_slice(), all) {
        None => Ok(Order::Whole(listed)),
        Some(start) => {
            let cycle = cycle(alloc, tables, left.as_slice(), all, start)?;
            Ok(Order::Cyclic(cycle))
        }
    }
}
