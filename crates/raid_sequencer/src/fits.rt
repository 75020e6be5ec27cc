//! Which letters fit: they are of a sort that a site sends the sequencer, and name only what the workload has.

ghost use Rattle.std.specs.Prelude.{◌≡◌, ◌&&◌, nat_le, length, ◌*◌, ◌+◌};
ghost use Rattle.raid_steps.specs.Fits as steps;
ghost use Rattle.raid_steps.specs.Sequencer as rows;

use raid_base::{Cause, Item, Pairs, Request, Site, Txn};
use raid_message::Message;
use raid_workload::Workload;

/// Whether the workload has the transaction, attempts counted.
fn knows_txn(workload: &Workload, txn: Txn) -> bool
    ensures { result ≡ steps.knows_txn workload.now txn }
{
    let attempts = workload.restarts as u64 + 1;
    let all = (workload.programs.len() as u64).saturating_mul(attempts);
    1 <= txn.0 && txn.0 as u64 <= all
}

/// Whether the workload has the site.
pub fn knows_site(workload: &Workload, site: Site) -> bool
    ensures { result ≡ steps.knows_site workload.now site }
{
    1 <= site.0 && site.0 <= workload.sites
}

/// Whether the workload has the item.
fn knows_item(workload: &Workload, item: Item) -> bool
    ensures { result ≡ steps.knows_item workload.now item }
{
    (item.0 as usize) < workload.items.len()
}

/// Whether the workload has each item of the pairs.
fn knows_pairs(workload: &Workload, pairs: &[(Item, i64)]) -> bool
    ensures { result ≡ steps.knows_pairs workload.now pairs.now }
{
    pairs.iter().all(|pair| knows_item(workload, pair.0))
}

/// Whether the request names only what the workload has.
fn knows_request(workload: &Workload, request: &Request) -> bool
    ensures { result ≡ steps.knows_request workload.now request.now }
{
    if !knows_pairs(workload, request.reads.as_slice()) {
        return false;
    }
    if !knows_pairs(workload, request.writes.as_slice()) {
        return false;
    }
    request.under.count == workload.sites
}

/// Whether the cause is an end of a program's own.
fn is_own_end(cause: Cause) -> bool
    ensures { result ≡ steps.is_own_end cause }
{
    match cause {
        Cause::Own | Cause::Overflow => true,
        _ => false,
    }
}

/// Whether the end of a program fits the workload.
fn fits_end(workload: &Workload, txn: Txn, cause: Cause, reads: &Pairs) -> bool
    ensures { result ≡ (steps.knows_txn workload.now txn && steps.is_own_end cause && steps.knows_pairs workload.now reads.now) }
{
    knows_txn(workload, txn) && is_own_end(cause) && knows_pairs(workload, reads.as_slice())
}

/// Whether the message is one of a site to the sequencer, and fits the workload.
pub fn is_to_sequencer(workload: &Workload, message: &Message) -> bool
    ensures { result ≡ steps.is_to_sequencer workload.now message.now }
{
    match message {
        Message::Hello => true,
        Message::Begin { txn } | Message::Ack { txn } => knows_txn(workload, *txn),
        Message::ReadAsk { txn, item, .. } => {
            knows_txn(workload, *txn) && knows_item(workload, *item)
        }
        Message::CommitAsk { txn, request } => {
            knows_txn(workload, *txn) && knows_request(workload, request)
        }
        Message::EndAsk { txn, cause, reads } => fits_end(workload, *txn, *cause, reads),
        Message::CopyDone { item, .. } => knows_item(workload, *item),
        _ => false,
    }
}

/// Whether the message opens a new session.
pub fn is_hello(message: &Message) -> bool
    ensures { result ≡ rows.is_hello message.now }
{
    matches!(message, Message::Hello)
}
