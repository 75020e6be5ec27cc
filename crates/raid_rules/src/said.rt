//! What one entry says.

ghost use Rattle.std.specs.Prelude.{◌≡◌, Bool};
ghost use Rattle.raid_base.specs.Names.{holds};
ghost use Rattle.raid_rules.specs.Entries as words;

use raid_base::{Entry, Item, Txn};

/// Whether the entry is a Begin of the transaction.
pub fn begins(entry: &Entry, own: Txn) -> bool
    ensures { result ≡ words.is_begin_of own entry.now }
{
    match entry {
        Entry::Begin { txn, .. } => *txn == own,
        _ => false,
    }
}

/// Whether the entry is a Commit of the transaction.
pub fn commits(entry: &Entry, own: Txn) -> bool
    ensures { result ≡ words.is_commit_of own entry.now }
{
    match entry {
        Entry::Commit { txn, .. } => *txn == own,
        _ => false,
    }
}

/// Whether the entry is an Abort of the transaction.
pub fn aborts(entry: &Entry, own: Txn) -> bool
    ensures { result ≡ words.is_abort_of own entry.now }
{
    match entry {
        Entry::Abort { txn, .. } => *txn == own,
        _ => false,
    }
}

/// Whether the entry is a Commit or an Abort of the transaction.
pub fn ends(entry: &Entry, own: Txn) -> bool
    ensures { result ≡ words.is_end_of own entry.now }
{
    match entry {
        Entry::Commit { txn, .. } => *txn == own,
        Entry::Abort { txn, .. } => *txn == own,
        _ => false,
    }
}

/// Whether the item is among the pairs.
pub fn has_item(pairs: &[(Item, i64)], item: Item) -> bool
    ensures { result ≡ holds item pairs.now }
{
    pairs.iter().any(|(other, _)| *other == item)
}

/// Whether the entry writes the item: a Commit with a write of it.
pub fn writes(entry: &Entry, item: Item) -> bool
    ensures { result ≡ holds item (words.writes_of entry.now) }
{
    match entry {
        Entry::Commit { request, .. } => has_item(request.writes.as_slice(), item),
        _ => false,
    }
}

/// Whether the entry is a Read of the item by the transaction.
pub fn reads_as(entry: &Entry, own: Txn, item: Item) -> bool
    ensures { result ≡ words.reads_item own item entry.now }
{
    match entry {
        Entry::Read {
            txn,
            item: other,
            ..
        } => *txn == own && *other == item,
        _ => false,
    }
}

/// The transaction that the entry names; None where it names none.
pub fn named(entry: &Entry) -> Option<Txn>
    ensures { result ≡ words.named entry.now }
{
    match entry {
        Entry::Begin { txn, .. } => Some(*txn),
        Entry::Read { txn, .. } => Some(*txn),
        Entry::Wait { txn, .. } => Some(*txn),
        Entry::Commit { txn, .. } => Some(*txn),
        Entry::Abort { txn, .. } => Some(*txn),
        Entry::Ack { txn, .. } => Some(*txn),
        _ => None,
    }
}
