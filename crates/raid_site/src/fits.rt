//! Which letters fit: they come from a server that may send them, name only what the workload has, and ask of the site what it
//! can do.

ghost use Rattle.std.specs.Prelude.{◌≡◌, ◌+◌, ◌*◌, ◌&&◌, ◌==◌, nat_le, not, false, length};
ghost use Rattle.std.specs.List.{list_all};
ghost use Rattle.raid_steps.specs.Copies as copying;
ghost use Rattle.raid_legal.specs.Seen.{attempt};
ghost use Rattle.raid_steps.specs.Fits as steps;
ghost use Rattle.raid_steps.specs.Site as rows;
ghost use Rattle.raid_site.specs.Whole.{state_of};

use crate::parts::Parts;
use crate::programs::both;
use raid_base::{Item, Pairs, Site, Txn, Vector};
use raid_message::Message;
use raid_workload::Workload;

/// Whether the workload has so many transactions, attempts counted.
fn counts(workload: &Workload, number: u32) -> bool
    ensures { result ≡ nat_le number (length workload.now.programs * (workload.now.restarts + 1)) }
{
    let attempts = workload.restarts as u64 + 1;
    let all = (workload.programs.len() as u64).saturating_mul(attempts);
    number as u64 <= all
}

/// Whether the workload has the transaction, attempts counted.
pub fn knows_txn(workload: &Workload, txn: Txn) -> bool
    ensures { result ≡ steps.knows_txn workload.now txn }
{
    1 <= txn.0 && counts(workload, txn.0)
}

/// Whether the workload has the site.
pub fn knows_site(workload: &Workload, site: Site) -> bool
    ensures { result ≡ steps.knows_site workload.now site }
{
    1 <= site.0 && site.0 <= workload.sites
}

/// Whether the workload has the item.
pub fn knows_item(workload: &Workload, item: Item) -> bool
    ensures { result ≡ steps.knows_item workload.now item }
{
    (item.0 as usize) < workload.items.len()
}

/// Whether the workload has each item of the pairs.
pub fn knows_pairs(workload: &Workload, pairs: &[(Item, i64)]) -> bool
    ensures { result ≡ steps.knows_pairs workload.now pairs.now }
{
    pairs.iter().all(|pair| knows_item(workload, pair.0))
}

/// Whether a welcome fits the workload.
fn fits_welcome(workload: &Workload, vector: Vector, next: u32) -> bool
    ensures { result ≡ (steps.knows_vector workload.now vector && nat_le next (length workload.now.programs * (workload.now.restarts + 1))) }
{
    vector.count == workload.sites && counts(workload, next)
}

/// Whether a read fits the workload.
fn fits_read(workload: &Workload, txn: Txn, item: Item, home: Site) -> bool
    ensures { result ≡ (steps.knows_txn workload.now txn && steps.knows_item workload.now item && steps.knows_site workload.now home) }
{
    knows_txn(workload, txn) && knows_item(workload, item) && knows_site(workload, home)
}

/// Whether the message is one of the sequencer to a site, and fits the workload.
pub fn is_of_sequencer(workload: &Workload, message: &Message) -> bool
    ensures { result ≡ steps.is_of_sequencer workload.now message.now }
{
    match message {
        Message::Welcome { vector, next } => fits_welcome(workload, *vector, *next),
        Message::ReadDo {
            txn,
            item,
            home,
            ..
        } => fits_read(workload, *txn, *item, *home),
        Message::Serving { txn, site, .. } => {
            knows_txn(workload, *txn) && knows_site(workload, *site)
        }
        Message::Apply { txn, .. } | Message::Done { txn } | Message::Drop { txn, .. } => {
            knows_txn(workload, *txn)
        }
        Message::DownNote { site } | Message::UpNote { site, .. } => knows_site(workload, *site),
        Message::CopyDo { item, target, .. } => {
            knows_item(workload, *item) && knows_site(workload, *target)
        }
        _ => false,
    }
}

/// Whether the message is one of a site to a site, and fits the workload.
pub fn is_of_site(workload: &Workload, message: &Message) -> bool
    ensures { result ≡ steps.is_of_site workload.now message.now }
{
    match message {
        Message::Value { txn, .. } | Message::Vote { txn, .. } => knows_txn(workload, *txn),
        Message::Prepare { txn, writes } => {
            knows_txn(workload, *txn) && knows_pairs(workload, writes.as_slice())
        }
        Message::CopyValue { item, .. } => knows_item(workload, *item),
        _ => false,
    }
}

/// Whether the site holds each item of the pairs.
fn holds_all(parts: &Parts, pairs: &[(Item, i64)]) -> bool
    ensures { result ≡ list_all (λ p. copying.holds_copy (state_of parts.now) p.0) pairs.now }
{
    pairs.iter().all(|pair| parts.copies.holds(pair.0))
}

/// Which attempt at its program the transaction is, counted from 0.
fn attempt_at(workload: &Workload, txn: Txn) -> usize
    ensures { result ≡ attempt workload.now txn }
{
    let programs = workload.programs.len();
    if programs == 0 {
        return 0;
    }
    txn.0.saturating_sub(1) as usize / programs
}

/// Whether the transaction has an attempt left where it is to be tried again.
fn has_attempt_left(workload: &Workload, txn: Txn, again: bool) -> bool
    ensures { result ≡ not (again && attempt workload.now txn == workload.now.restarts) }
{
    let last = attempt_at(workload, txn) == workload.restarts as usize;
    !both(again, last)
}

/// Whether the letter fits the site as it is: it holds the items, has writes staged to apply, runs nothing when it is welcomed, and
/// has an attempt left where it is to try again.
pub fn fits_here(parts: &Parts, workload: &Workload, message: &Message) -> bool
    requires { parts.now.driver.finished ≡ false }
    ensures { result ≡ rows.fits_here workload.now (state_of parts.now) message.now }
{
    match message {
        Message::ReadDo { item, .. } => parts.copies.holds(*item),
        Message::CopyDo { item, .. } => parts.copies.holds(*item),
        Message::CopyValue { item, .. } => parts.copies.holds(*item),
        Message::Prepare { writes, .. } => holds_all(parts, writes.as_slice()),
        Message::Apply { txn, .. } => parts.copies.is_staged(*txn),
        Message::Welcome { .. } => runs_nothing(parts),
        Message::Drop { txn, again } => has_attempt_left(workload, *txn, *again),
        _ => true,
    }
}

/// Whether no program runs.
fn runs_nothing(parts: &Parts) -> bool
    requires { parts.now.driver.finished ≡ false }
    ensures { result ≡ (length (state_of parts.now).running == 0) }
{
    parts.driver.running().is_empty()
}
