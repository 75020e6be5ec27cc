//! A history as noted entries: each with its number, and with its transaction's stamp.

ghost use Rattle.std.specs.Prelude.{◌≡◌, ◌<◌, ◌^◌, length, IfOk, if◌then◌else◌};
ghost use Rattle.raid_rules.specs.History as words;

use crate::said;
use raid_base::{Duplicate, Entry, Listed, NoMemory, Noted, Txn};
use std::alloc::Global;

/// The number of the transaction's Begin, 0 where there is none.
pub fn stamp(view: &[Noted], txn: Txn) -> u32
    ensures { result ≡ words.stamp view.now txn }
{
    let mut stamp = 0;
    for noted in view {
        if said::begins(&noted.entry, txn) {
            stamp = noted.at;
        }
    }
    stamp
}

/// Whether the transaction has a Commit or an Abort.
pub fn has_ended(view: &[Noted], txn: Txn) -> bool
    ensures { result ≡ words.has_ended view.now txn }
{
    view.iter().any(|n| said::ends(&n.entry, txn))
}

/// Whether the transaction has an Abort.
pub fn has_aborted(view: &[Noted], txn: Txn) -> bool
    ensures { result ≡ words.has_aborted view.now txn }
{
    view.iter().any(|n| said::aborts(&n.entry, txn))
}

/// Whether the transaction has a Commit.
pub fn has_committed(view: &[Noted], txn: Txn) -> bool
    ensures { result ≡ words.has_committed view.now txn }
{
    view.iter().any(|n| said::commits(&n.entry, txn))
}

/// The stamp of an entry that comes next under a number: a Begin's is the number, any other's is that of its
/// transaction, 0 where it names none.
pub fn stamp_at(before: &[Noted], number: u32, entry: &Entry) -> u32
    ensures { result ≡ words.stamp_at before.now number entry.now }
{
    match entry {
        Entry::Begin { .. } => number,
        _ => match said::named(entry) {
            Some(txn) => stamp(before, txn),
            None => 0,
        },
    }
}

/// The entries of a history, noted. Want of memory is the only error.
pub fn noted(alloc: Global, entries: &[Entry]) -> Result<Listed<Noted>, NoMemory>
    requires { length entries.now < 2 ^ 32 }
    ensures { IfOk result (λ p. p ≡ words.noted entries.now) }
{
    let mut before = Listed::new(alloc);
    for entry in entries {
        let at = before.len() as u32 + 1;
        let stamp = stamp_at(before.as_slice(), at, entry);
        let entry = entry.copy(alloc)?;
        before.push(Noted { at, stamp, entry })?;
    }
    Ok(before)
}
