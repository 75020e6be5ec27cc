//! The verdicts of the four kinds.

ghost use Rattle.std.specs.Prelude.{◌≡◌, ℕ, ℤ, nat_lt, ◌&&◌, ◌||◌, not, IfOk};
ghost use Rattle.std.specs.List.{list_any};
ghost use Rattle.raid_base.specs.Names.{is_txn, is_item, holds};
ghost use Rattle.raid_base.specs.declared.verdict.Verdict.TheVariants.{Wait, Grant};
ghost use Rattle.raid_rules.specs.Views as views;
ghost use Rattle.raid_rules.specs.Verdicts as words;
ghost use Rattle.raid_rules.specs.Entries.{is_read, is_commit};

use crate::{conflict, note, said};
use raid_base::{Ask, Entry, Item, Kind, NoMemory, Noted, Refusal, Txn, Verdict};
use std::alloc::Global;

/// Whether an entry is a Read of the item by a transaction that is in the writer's way.
fn holds_up(view: &[Noted], writer: Txn, item: Item, entry: &Entry) -> bool
    ensures { result ≡ words.is_read_by (words.is_in_the_way view.now writer) item entry.now }
{
    match entry {
        Entry::Read {
            txn,
            item: other,
            ..
        } => *other == item && *txn != writer && !note::has_ended(view, *txn),
        _ => false,
    }
}

/// Whether a running transaction other than the writer has a Read of the item.
fn is_item_held(view: &[Noted], writer: Txn, item: Item) -> bool
    ensures { result ≡ list_any (λ n. words.is_read_by (words.is_in_the_way view.now writer) item n.entry) view.now }
{
    view.iter().any(|n| holds_up(view, writer, item, &n.entry))
}

/// Whether a running transaction other than the writer has a Read of one of the items.
fn is_held(view: &[Noted], writer: Txn, writes: &[(Item, i64)]) -> bool
    ensures { result ≡ words.is_held view.now writer writes.now }
{
    writes
        .iter()
        .any(|(item, _)| is_item_held(view, writer, *item))
}

/// Whether the transaction has a Read of the item.
fn has_read(view: &[Noted], reader: Txn, item: Item) -> bool
    ensures { result ≡ list_any (λ n. words.is_read_by (is_txn reader) item n.entry) view.now }
{
    view.iter().any(|n| said::reads_as(&n.entry, reader, item))
}

/// Whether an entry is a Commit under a larger stamp that wrote the item, somewhere in the view.
fn is_written_later(view: &[Noted], stamp: u32, item: Item) -> bool
    ensures { result ≡ list_any (words.is_later_write stamp item) view.now }
{
    view.iter()
        .any(|n| stamp < n.stamp && said::writes(&n.entry, item))
}

/// Whether the entry is a Read of the item.
fn is_read_of(entry: &Entry, item: Item) -> bool
    ensures { result ≡ is_read (λ t y s. is_item item y) entry.now }
{
    match entry {
        Entry::Read { item: other, .. } => *other == item,
        _ => false,
    }
}

/// Whether the view has a Read of the item under a larger stamp.
fn is_read_later(view: &[Noted], stamp: u32, item: Item) -> bool
    ensures { result ≡ list_any (words.is_later_read stamp item) view.now }
{
    view.iter()
        .any(|n| stamp < n.stamp && is_read_of(&n.entry, item))
}

/// Whether one of the items has been read or written under a larger stamp.
fn is_used_later(view: &[Noted], stamp: u32, writes: &[(Item, i64)]) -> bool
    ensures { result ≡ list_any (λ p. list_any (words.is_later_read stamp p.0) view.now || list_any (words.is_later_write stamp p.0) view.now) writes.now }
{
    writes.iter().any(|(item, _)| is_read_later(view, stamp, *item)
        || is_written_later(view, stamp, *item))
}

/// Whether the item was written under a larger number.
fn is_written_past(view: &[Noted], number: u32, item: Item) -> bool
    ensures { result ≡ list_any (words.is_past number item) view.now }
{
    view.iter()
        .any(|n| number < n.at && said::writes(&n.entry, item))
}

/// Whether the entry is a Read by the transaction of an item that was written under a larger number.
fn is_read_past(view: &[Noted], number: u32, reader: Txn, entry: &Entry) -> bool
    ensures { result ≡ is_read (λ u x s. is_txn reader u && list_any (words.is_past number x) view.now) entry.now }
{
    match entry {
        Entry::Read { txn, item, .. } => *txn == reader && is_written_past(view, number, *item),
        _ => false,
    }
}

/// Whether an item that the transaction read was written since its Begin.
fn is_invalid(view: &[Noted], txn: Txn) -> bool
    ensures { result ≡ words.is_invalid view.now txn }
{
    let begun = note::stamp(view, txn);
    view.iter()
        .any(|n| is_read_past(view, begun, txn, &n.entry))
}

/// Whether the entry is a Commit of another transaction that wrote the item.
fn overwrites(entry: &Entry, reader: Txn, item: Item) -> bool
    ensures { result ≡ is_commit (λ u request. not (is_txn reader u) && holds item request.writes) entry.now }
{
    match entry {
        Entry::Commit { txn, request, .. } => {
            *txn != reader && said::has_item(request.writes.as_slice(), item)
        }
        _ => false,
    }
}

/// Whether another transaction wrote the item under a larger number.
fn is_overwritten(view: &[Noted], reader: Txn, at: u32, item: Item) -> bool
    ensures { result ≡ list_any (views.is_overwrite reader at item) view.now }
{
    view.iter()
        .any(|n| at < n.at && overwrites(&n.entry, reader, item))
}

/// Whether the entry is a Read by the transaction of an item that a later Commit of another wrote.
fn is_read_back(view: &[Noted], txn: Txn, noted: &Noted) -> bool
    ensures { result ≡ is_read (λ u x s. is_txn txn u && list_any (views.is_overwrite txn noted.now.at x) view.now) noted.now.entry }
{
    match &noted.entry {
        Entry::Read {
            txn: reader,
            item,
            ..
        } => *reader == txn && is_overwritten(view, txn, noted.at, *item),
        _ => false,
    }
}

/// Whether the transaction is backward in the view: it has a Read of an item that a later Commit of another
/// transaction wrote.
pub fn is_backward(view: &[Noted], txn: Txn) -> bool
    ensures { result ≡ views.is_backward view.now txn }
{
    view.iter().any(|n| is_read_back(view, txn, n))
}

/// Whether the transaction has a Read of one of the items.
fn has_read_one(view: &[Noted], reader: Txn, writes: &[(Item, i64)]) -> bool
    ensures { result ≡ list_any (λ p. list_any (λ n. words.is_read_by (is_txn reader) p.0 n.entry) view.now) writes.now }
{
    writes.iter().any(|(item, _)| has_read(view, reader, *item))
}

/// Whether the reader stands in the way of the writer under locking: it is another transaction, it hasn't
/// ended in the view, and it has a Read there of one of the items that the writer writes.
pub fn blocks(view: &[Noted], reader: Txn, writer: Txn, writes: &[(Item, i64)]) -> bool
    ensures { result ≡ words.is_blocked_by reader view.now writer writes.now }
{
    reader != writer && !note::has_ended(view, reader) && has_read_one(view, reader, writes)
}

/// The verdict of locking: a commit waits while another running transaction has read what it writes.
fn by_locks(view: &[Noted], ask: &Ask) -> Verdict
    ensures { result ≡ words.lock_verdict view.now (words.asked ask.now) }
{
    match ask {
        Ask::Read { .. } => Verdict::Grant,
        Ask::Commit { txn, writes, .. } => {
            if is_held(view, *txn, writes.as_slice()) {
                Verdict::Wait
            } else {
                Verdict::Grant
            }
        }
    }
}

/// Whether the action comes too late for its stamp.
fn is_late(view: &[Noted], ask: &Ask) -> bool
    ensures { result ≡ words.is_late view.now (words.asked ask.now) }
{
    match ask {
        Ask::Read { stamp, item, .. } => is_written_later(view, *stamp, *item),
        Ask::Commit { stamp, writes, .. } => is_used_later(view, *stamp, writes.as_slice()),
    }
}

/// The verdict of timestamp ordering: an action is refused where a transaction with a larger stamp came
/// first.
fn by_stamps(view: &[Noted], ask: &Ask) -> Verdict
    ensures { result ≡ words.stamp_verdict view.now (words.asked ask.now) }
{
    if is_late(view, ask) {
        Verdict::Reject(Refusal::Late)
    } else {
        Verdict::Grant
    }
}

/// The verdict of validation: a commit is refused where an item that was read has been written since the
/// transaction began.
fn by_validation(view: &[Noted], ask: &Ask) -> Verdict
    ensures { result ≡ words.valid_verdict view.now (words.asked ask.now) }
{
    match ask {
        Ask::Read { .. } => Verdict::Grant,
        Ask::Commit { txn, .. } => {
            if is_invalid(view, *txn) {
                Verdict::Reject(Refusal::Invalid)
            } else {
                Verdict::Grant
            }
        }
    }
}

/// The verdict of graph testing: an action is refused where it would put its transaction on a cycle.
fn by_graph(alloc: Global, view: &[Noted], ask: &Ask) -> Result<Verdict, NoMemory>
    ensures { IfOk result (λ v. v ≡ words.graph_verdict view.now (words.asked ask.now)) }
{
    if conflict::closes_cycle(alloc, view, ask)? {
        Ok(Verdict::Reject(Refusal::Cycle))
    } else {
        Ok(Verdict::Grant)
    }
}

/// The verdict of a kind on an ask, over a view. Memory is asked for by graph testing alone, and its want is
/// the only error.
pub fn verdict(alloc: Global, kind: Kind, view: &[Noted], ask: &Ask) -> Result<Verdict, NoMemory>
    ensures { IfOk result (λ v. v ≡ words.verdict_of kind view.now (words.asked ask.now)) }
{
    match kind {
        Kind::Lock => Ok(by_locks(view, ask)),
        Kind::Stamp => Ok(by_stamps(view, ask)),
        Kind::Valid => Ok(by_validation(view, ask)),
        Kind::Graph => by_graph(alloc, view, ask),
    }
}
