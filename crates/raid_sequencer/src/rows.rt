//! What the sequencer places for a letter of a transaction, or of a site that has applied or renewed something.

ghost use Rattle.std.specs.Prelude.{◌≡◌, ◌≤◌, ◌<◌, ◌+◌, ◌==◌, ◌&&◌, true, false, None, Some, OnOk, if◌then◌else◌};
ghost use Rattle.raid_rules.specs.History.{noted};
ghost use Rattle.raid_base.specs.declared.entry.Entry.TheVariants as entries;
ghost use Rattle.raid_rules.specs.History.{version as version_of};
ghost use Rattle.raid_legal.specs.Seen.{is_locked};
ghost use Rattle.raid_legal.specs.Forced as words;
ghost use Rattle.raid_faillock.specs.Stands.{is_of_sites};
ghost use Rattle.raid_steps.specs.Sequencer as steps;
ghost use Rattle.raid_record.specs.Tells.{Turns};
ghost use Rattle.raid_sequencer.specs.Kept.{IsKept};
ghost use Rattle.raid_sequencer.specs.Extent.{extent};

use crate::parts::Parts;
use raid_base::{Act, Cause, Duplicate, Entry, Item, NoMemory, Pairs, Request, Site, Txn};
use raid_control::Controller;
use raid_message::Outs;
use raid_record::homes::home;
use raid_workload::Workload;
use std::alloc::Global;

/// The transaction begins at its home, where it may.
pub fn begin_row(
    parts: &mut Parts,
    alloc: Global,
    workload: &Workload,
    txn: Txn,
    outs: &mut Outs,
) -> Result<(), NoMemory>
    requires kept { IsKept ⟦<dyn Controller as Controller>⟧ workload.now parts.old }
    requires quiet { words.forced workload.now (noted parts.old.record.history) ≡ None }
    requires room { extent workload.now parts.old.record.history < 4294967200 }
    ensures kept { OnOk result (IsKept ⟦<dyn Controller as Controller>⟧ workload.now parts.new) }
    ensures turns { OnOk result (Turns workload.now parts.old.record outs.old parts.new.record outs.new (λ turn. steps.begin_row workload.now turn txn)) }
    ensures extent { OnOk result (extent workload.now parts.new.record.history ≤ extent workload.now parts.old.record.history + 3) }
{
    if parts.record.may_begin(workload, txn) {
        let home = home(workload, txn);
        parts.place(alloc, workload, 0, Entry::Begin { txn, home }, outs)?;
    }
    Ok(())
}

/// The read is answered, where the transaction may ask.
pub fn read_row(
    parts: &mut Parts,
    alloc: Global,
    workload: &Workload,
    txn: Txn,
    ask: u32,
    item: Item,
    outs: &mut Outs,
) -> Result<(), NoMemory>
    requires kept { IsKept ⟦<dyn Controller as Controller>⟧ workload.now parts.old }
    requires quiet { words.forced workload.now (noted parts.old.record.history) ≡ None }
    requires room { extent workload.now parts.old.record.history < 4294967200 }
    ensures kept { OnOk result (IsKept ⟦<dyn Controller as Controller>⟧ workload.now parts.new) }
    ensures turns { OnOk result (Turns workload.now parts.old.record outs.old parts.new.record outs.new (λ turn. steps.read_row workload.now turn txn ask item)) }
    ensures extent { OnOk result (extent workload.now parts.new.record.history ≤ extent workload.now parts.old.record.history + 3) }
{
    if parts.record.is_free(txn) {
        let entry = parts.answer_to_read(workload, txn, item);
        parts.place(alloc, workload, ask, entry, outs)?;
    }
    Ok(())
}

/// The commit is answered, where the transaction may ask.
pub fn commit_row(
    parts: &mut Parts,
    alloc: Global,
    workload: &Workload,
    txn: Txn,
    request: &Request,
    outs: &mut Outs,
) -> Result<(), NoMemory>
    requires kept { IsKept ⟦<dyn Controller as Controller>⟧ workload.now parts.old }
    requires quiet { words.forced workload.now (noted parts.old.record.history) ≡ None }
    requires room { extent workload.now parts.old.record.history < 4294967200 }
    ensures kept { OnOk result (IsKept ⟦<dyn Controller as Controller>⟧ workload.now parts.new) }
    ensures turns { OnOk result (Turns workload.now parts.old.record outs.old parts.new.record outs.new (λ turn. steps.commit_row workload.now turn txn request.now)) }
    ensures extent { OnOk result (extent workload.now parts.new.record.history ≤ extent workload.now parts.old.record.history + 3) }
{
    if parts.record.is_free(txn) {
        if let Some(entry) = parts.answer_to_commit(alloc, workload, txn, request)? {
            parts.place(alloc, workload, 0, entry, outs)?;
        }
    }
    Ok(())
}

/// The program has ended by itself: its transaction is aborted, where it may ask.
pub fn end_row(
    parts: &mut Parts,
    alloc: Global,
    workload: &Workload,
    txn: Txn,
    cause: Cause,
    reads: &Pairs,
    outs: &mut Outs,
) -> Result<(), NoMemory>
    requires kept { IsKept ⟦<dyn Controller as Controller>⟧ workload.now parts.old }
    requires quiet { words.forced workload.now (noted parts.old.record.history) ≡ None }
    requires room { extent workload.now parts.old.record.history < 4294967200 }
    ensures kept { OnOk result (IsKept ⟦<dyn Controller as Controller>⟧ workload.now parts.new) }
    ensures turns { OnOk result (Turns workload.now parts.old.record outs.old parts.new.record outs.new (λ turn. steps.end_row workload.now turn txn cause reads.now)) }
    ensures extent { OnOk result (extent workload.now parts.new.record.history ≤ extent workload.now parts.old.record.history + 3) }
{
    if parts.record.is_free(txn) {
        let act = Act::Ended(reads.copy(alloc)?);
        parts.place(alloc, workload, 0, Entry::Abort { txn, cause, act }, outs)?;
    }
    Ok(())
}

/// The site has applied the writes of the transaction, where it owed that.
pub fn ack_row(
    parts: &mut Parts,
    alloc: Global,
    workload: &Workload,
    site: Site,
    txn: Txn,
    outs: &mut Outs,
) -> Result<(), NoMemory>
    requires kept { IsKept ⟦<dyn Controller as Controller>⟧ workload.now parts.old }
    requires quiet { words.forced workload.now (noted parts.old.record.history) ≡ None }
    requires room { extent workload.now parts.old.record.history < 4294967200 }
    requires site { is_of_sites workload.now.sites site ≡ true }
    ensures kept { OnOk result (IsKept ⟦<dyn Controller as Controller>⟧ workload.now parts.new) }
    ensures turns { OnOk result (Turns workload.now parts.old.record outs.old parts.new.record outs.new (λ turn. steps.ack_row workload.now turn site txn)) }
    ensures extent { OnOk result (extent workload.now parts.new.record.history ≤ extent workload.now parts.old.record.history + 3) }
{
    if parts.owes(workload, site, txn) {
        parts.place(alloc, workload, 0, Entry::Ack { txn, site }, outs)?;
    }
    Ok(())
}

/// The copy is unlocked, where it was locked and has the item's version.
fn clear(
    parts: &mut Parts,
    alloc: Global,
    workload: &Workload,
    site: Site,
    item: Item,
    version: u32,
    outs: &mut Outs,
) -> Result<(), NoMemory>
    requires kept { IsKept ⟦<dyn Controller as Controller>⟧ workload.now parts.old }
    requires quiet { words.forced workload.now (noted parts.old.record.history) ≡ None }
    requires room { extent workload.now parts.old.record.history < 4294967200 }
    requires site { is_of_sites workload.now.sites site ≡ true }
    ensures kept { OnOk result (IsKept ⟦<dyn Controller as Controller>⟧ workload.now parts.new) }
    ensures turns { OnOk result (Turns workload.now parts.old.record outs.old parts.new.record outs.new (λ turn. steps.place_if workload.now 0 turn (if is_locked workload.now (steps.so_far turn) site item && version == version_of (steps.so_far turn) item then Some (entries.Clear site item version) else None))) }
    ensures extent { OnOk result (extent workload.now parts.new.record.history ≤ extent workload.now parts.old.record.history + 3) }
{
    if parts.may_clear(workload, site, item, version) {
        parts.place(
            alloc,
            workload,
            0,
            Entry::Clear {
                site,
                item,
                version,
            },
            outs,
        )?;
    }
    Ok(())
}

/// The copy of the item at the site was renewed: it is unlocked where it was locked and has the item's version, and is under way no longer.
pub fn copied_row(
    parts: &mut Parts,
    alloc: Global,
    workload: &Workload,
    site: Site,
    item: Item,
    version: u32,
    outs: &mut Outs,
) -> Result<(), NoMemory>
    requires kept { IsKept ⟦<dyn Controller as Controller>⟧ workload.now parts.old }
    requires quiet { words.forced workload.now (noted parts.old.record.history) ≡ None }
    requires room { extent workload.now parts.old.record.history < 4294967200 }
    requires site { is_of_sites workload.now.sites site ≡ true }
    ensures kept { OnOk result (IsKept ⟦<dyn Controller as Controller>⟧ workload.now parts.new) }
    ensures turns { OnOk result (Turns workload.now parts.old.record outs.old parts.new.record outs.new (λ turn. steps.copied_row workload.now turn site item version)) }
    ensures extent { OnOk result (extent workload.now parts.new.record.history ≤ extent workload.now parts.old.record.history + 3) }
{
    clear(parts, alloc, workload, site, item, version, outs)?;
    parts.close_copy(workload, site, item);
    Ok(())
}
