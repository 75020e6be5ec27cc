ghost use Rattle.std.specs.Prelude.{◌≡◌, ℤ, ◌<◌, nat_lt, ◌&&◌};
ghost use Rattle.std.specs.List.{list_any};
ghost use Rattle.raid_base.specs.Names.{is_item};
ghost use Rattle.raid_rules.specs.Verdicts.{asked, asker};
ghost use Rattle.raid_conflict.specs.Search as words;
ghost use Rattle.raid_conflict.specs.Tables.{mark};

use crate::found::Found;
use crate::tables::Tables;
use raid_base::{Ask, Item, Txn};
use raid_rules::conflict::Action;

/// The transaction that asks.
pub fn asker(ask: &Ask) -> Txn
    ensures { result ≡ asker (asked ask.now) }
{
    match ask {
        Ask::Read { txn, .. } | Ask::Commit { txn, .. } => *txn,
    }
}

/// Whether one of the transactions has a smaller stamp.
pub fn any_before(tables: &Tables, txns: &[Txn], before: u32) -> bool
    ensures { result ≡ list_any (λ u. nat_lt (mark tables.now u).stamp before) txns.now }
{
    txns.iter().any(|txn| tables.mark(*txn).stamp < before)
}

/// Whether one of the actions is on the item.
fn is_on(actions: &[Action], item: Item) -> bool
    ensures { result ≡ list_any (λ a. is_item item a.item) actions.now }
{
    actions.iter().any(|action| action.item == item)
}

/// Whether one of the actions writes the item.
fn is_write_of(actions: &[Action], item: Item) -> bool
    ensures { result ≡ list_any (λ a. a.writes && is_item item a.item) actions.now }
{
    actions
        .iter()
        .any(|action| action.writes && action.item == item)
}

/// Whether the transaction read or wrote the item.
fn has_acted(tables: &Tables, item: Item, txn: Txn) -> bool
    ensures { result ≡ words.has_acted tables.now item txn }
{
    match tables.own.get(txn.0 as usize) {
        Some(chain) => is_on(chain.actions.as_slice(), item),
        None => false,
    }
}

/// Whether the transaction wrote the item.
fn has_written(tables: &Tables, item: Item, txn: Txn) -> bool
    ensures { result ≡ words.has_written tables.now item txn }
{
    match tables.own.get(txn.0 as usize) {
        Some(chain) => is_write_of(chain.actions.as_slice(), item),
        None => false,
    }
}

/// Whether one of the transactions wrote the item.
fn has_writer(tables: &Tables, found: &[Txn], item: Item) -> bool
    ensures { result ≡ list_any (words.has_written tables.now item) found.now }
{
    found.iter().any(|txn| has_written(tables, item, *txn))
}

/// Whether one of the transactions read or wrote the item.
fn has_actor(tables: &Tables, found: &[Txn], item: Item) -> bool
    ensures { result ≡ list_any (words.has_acted tables.now item) found.now }
{
    found.iter().any(|txn| has_acted(tables, item, *txn))
}

/// Whether one of the transactions read or wrote one of the items.
fn any_actor(tables: &Tables, found: &[Txn], writes: &[(Item, i64)]) -> bool
    ensures { result ≡ list_any (λ p. list_any (words.has_acted tables.now p.0) found.now) writes.now }
{
    writes
        .iter()
        .any(|(item, _)| has_actor(tables, found, *item))
}

/// Whether the asker was found, or one whom the asked action would follow.
pub fn closes(tables: &Tables, found: &Found, ask: &Ask) -> bool
    ensures { result ≡ words.closes tables.now found.now.0 (asked ask.now) }
{
    match ask {
        Ask::Read { txn, item, .. } => found.has(*txn)
            || has_writer(tables, found.as_slice(), *item),
        Ask::Commit { txn, writes, .. } => {
            found.has(*txn) || any_actor(tables, found.as_slice(), writes.as_slice())
        }
    }
}
