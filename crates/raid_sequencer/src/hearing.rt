//! What the sequencer does with a letter, by who sent it.

ghost use Rattle.std.specs.Prelude.{◌≡◌, ◌≤◌, ◌<◌, ◌+◌, ◌-◌, ◌==◌, ◌&&◌, ◌||◌, true, false, None, [], OnOk};
ghost use Rattle.raid_rules.specs.History.{noted};
ghost use Rattle.raid_base.specs.Sites.{site, session};
ghost use Rattle.raid_legal.specs.Seen.{vector};
ghost use Rattle.raid_steps.specs.Fits as fits;
ghost use Rattle.raid_legal.specs.Forced as words;
ghost use Rattle.raid_faillock.specs.Stands.{is_of_sites};
ghost use Rattle.raid_steps.specs.State as states;
ghost use Rattle.raid_steps.specs.Sequencer as steps;
ghost use Rattle.raid_record.specs.Tells.{Tells, IsOf, Turns};
ghost use Rattle.raid_sequencer.specs.Kept.{IsKept};
ghost use Rattle.raid_sequencer.specs.Extent.{extent};

use crate::fits::{is_hello, is_to_sequencer, knows_site};
use crate::parts::Parts;
use crate::rows::{ack_row, begin_row, commit_row, copied_row, end_row, read_row};
use crate::site_rows::{down_row, hello_row};
use raid_base::{NoMemory, Site};
use raid_control::Controller;
use raid_message::{Letter, Message, Outs};
use raid_workload::Workload;
use std::alloc::Global;

/// What the sequencer places for a message of a site, sent in a session of it.
fn site_row(
    parts: &mut Parts,
    alloc: Global,
    workload: &Workload,
    site: Site,
    session: u32,
    message: &Message,
    outs: &mut Outs,
) -> Result<(), NoMemory>
    requires kept { IsKept ⟦<dyn Controller as Controller>⟧ workload.now parts.old }
    requires quiet { words.forced workload.now (noted parts.old.record.history) ≡ None }
    requires room { extent workload.now parts.old.record.history < 4294967200 }
    requires site { is_of_sites workload.now.sites site ≡ true }
    ensures kept { OnOk result (IsKept ⟦<dyn Controller as Controller>⟧ workload.now parts.new) }
    ensures turns { OnOk result (Turns workload.now parts.old.record outs.old parts.new.record outs.new (λ turn. steps.site_row workload.now turn site session message.now)) }
    ensures extent { OnOk result (extent workload.now parts.new.record.history ≤ extent workload.now parts.old.record.history + 3) }
{
    match message {
        Message::Hello => hello_row(parts, alloc, workload, site, session, outs),
        Message::Begin { txn } => begin_row(parts, alloc, workload, *txn, outs),
        Message::ReadAsk { txn, ask, item } => {
            read_row(parts, alloc, workload, *txn, *ask, *item, outs)
        }
        Message::CommitAsk { txn, request } => {
            commit_row(parts, alloc, workload, *txn, request, outs)
        }
        Message::EndAsk { txn, cause, reads } => {
            end_row(parts, alloc, workload, *txn, *cause, reads, outs)
        }
        Message::Ack { txn } => ack_row(parts, alloc, workload, site, *txn, outs),
        Message::CopyDone { item, version } => {
            copied_row(parts, alloc, workload, site, *item, *version, outs)
        }
        _ => Ok(()),
    }
}

/// What follows the row of any letter: the forced entries, the copies that are due, and the count of ends where it has risen.
fn finish(
    parts: &mut Parts,
    alloc: Global,
    workload: &Workload,
    before: u32,
    outs: &mut Outs,
) -> Result<(), NoMemory>
    requires kept { IsKept ⟦<dyn Controller as Controller>⟧ workload.now parts.old }
    requires room { extent workload.now parts.old.record.history < 4294967295 }
    ensures kept { OnOk result (IsKept ⟦<dyn Controller as Controller>⟧ workload.now parts.new) }
    ensures quiet { OnOk result (words.forced workload.now (noted parts.new.record.history) ≡ None) }
    ensures turns { OnOk result (Turns workload.now parts.old.record outs.old parts.new.record outs.new (λ turn. steps.send_ends before (steps.send_copies workload.now (steps.settle workload.now turn)))) }
    ensures extent { OnOk result (extent workload.now parts.new.record.history ≤ extent workload.now parts.old.record.history) }
{
    parts.settle(alloc, workload, outs)?;
    parts.send_copies(workload, outs)?;
    parts.record.send_ends(before, outs)?;
    Ok(())
}

/// The monitor says that a session of a site of the workload has ended.
fn hear_stop(
    parts: &mut Parts,
    alloc: Global,
    workload: &Workload,
    site: Site,
    session: u32,
    outs: &mut Outs,
) -> Result<(), NoMemory>
    requires kept { IsKept ⟦<dyn Controller as Controller>⟧ workload.now parts.old }
    requires quiet { words.forced workload.now (noted parts.old.record.history) ≡ None }
    requires room { extent workload.now parts.old.record.history < 4294967200 }
    requires site { is_of_sites workload.now.sites site ≡ true }
    requires none { outs.old ≡ [] }
    ensures kept { OnOk result (IsKept ⟦<dyn Controller as Controller>⟧ workload.now parts.new) }
    ensures quiet { OnOk result (words.forced workload.now (noted parts.new.record.history) ≡ None) }
    ensures hears { OnOk result ((s : states.Sequencer) → Tells workload.now parts.old.record s → IsOf workload.now parts.new.record outs.new (steps.finish workload.now s (steps.down_row workload.now (states.opened s) site session))) }
    ensures extent { OnOk result (extent workload.now parts.new.record.history ≤ extent workload.now parts.old.record.history + 3) }
{
    let before = parts.record.history.ends();
    down_row(parts, alloc, workload, site, session, outs)?;
    finish(parts, alloc, workload, before, outs)?;
    Ok(())
}

/// The sequencer hears the monitor.
fn hear_down(
    parts: &mut Parts,
    alloc: Global,
    workload: &Workload,
    message: &Message,
    outs: &mut Outs,
) -> Result<(), NoMemory>
    requires kept { IsKept ⟦<dyn Controller as Controller>⟧ workload.now parts.old }
    requires quiet { words.forced workload.now (noted parts.old.record.history) ≡ None }
    requires room { extent workload.now parts.old.record.history < 4294967200 }
    requires none { outs.old ≡ [] }
    ensures kept { OnOk result (IsKept ⟦<dyn Controller as Controller>⟧ workload.now parts.new) }
    ensures quiet { OnOk result (words.forced workload.now (noted parts.new.record.history) ≡ None) }
    ensures hears { OnOk result ((s : states.Sequencer) → Tells workload.now parts.old.record s → IsOf workload.now parts.new.record outs.new (steps.hear_down workload.now s message.now)) }
    ensures extent { OnOk result (extent workload.now parts.new.record.history ≤ extent workload.now parts.old.record.history + 3) }
{
    match message {
        Message::Down { site, session } => {
            if knows_site(workload, *site) {
                hear_stop(parts, alloc, workload, *site, *session, outs)?;
            }
            Ok(())
        }
        _ => Ok(()),
    }
}

/// The sequencer hears a site in the session that it has: the letter fits.
fn hear_fit(
    parts: &mut Parts,
    alloc: Global,
    workload: &Workload,
    site: Site,
    letter: &Letter,
    outs: &mut Outs,
) -> Result<(), NoMemory>
    requires kept { IsKept ⟦<dyn Controller as Controller>⟧ workload.now parts.old }
    requires quiet { words.forced workload.now (noted parts.old.record.history) ≡ None }
    requires room { extent workload.now parts.old.record.history < 4294967200 }
    requires site { is_of_sites workload.now.sites site ≡ true }
    requires none { outs.old ≡ [] }
    ensures kept { OnOk result (IsKept ⟦<dyn Controller as Controller>⟧ workload.now parts.new) }
    ensures quiet { OnOk result (words.forced workload.now (noted parts.new.record.history) ≡ None) }
    ensures hears { OnOk result ((s : states.Sequencer) → Tells workload.now parts.old.record s → IsOf workload.now parts.new.record outs.new (steps.finish workload.now s (steps.site_row workload.now (states.opened s) site letter.now.from letter.now.message))) }
    ensures extent { OnOk result (extent workload.now parts.new.record.history ≤ extent workload.now parts.old.record.history + 3) }
{
    let before = parts.record.history.ends();
    site_row(
        parts,
        alloc,
        workload,
        site,
        letter.from,
        &letter.message,
        outs,
    )?;
    finish(parts, alloc, workload, before, outs)?;
    Ok(())
}

/// Whether a letter of the site is taken: it opens a session or is of the site's present one, and it fits the workload.
fn is_taken(parts: &Parts, workload: &Workload, site: Site, letter: &Letter) -> bool
    requires kept { IsKept ⟦<dyn Controller as Controller>⟧ workload.now parts.now }
    ensures { result ≡ ((steps.is_hello letter.now.message || letter.now.from == session (vector workload.now (noted parts.now.record.history)) site) && fits.is_to_sequencer workload.now letter.now.message) }
{
    let is_present = letter.from == parts.session(workload, site);
    if !is_hello(&letter.message) && !is_present {
        return false;
    }
    is_to_sequencer(workload, &letter.message)
}

/// The sequencer hears a site: the letter is dropped where it is of another session than the site's, or doesn't fit.
fn hear_of_site(
    parts: &mut Parts,
    alloc: Global,
    workload: &Workload,
    site: Site,
    letter: &Letter,
    outs: &mut Outs,
) -> Result<(), NoMemory>
    requires kept { IsKept ⟦<dyn Controller as Controller>⟧ workload.now parts.old }
    requires quiet { words.forced workload.now (noted parts.old.record.history) ≡ None }
    requires room { extent workload.now parts.old.record.history < 4294967200 }
    requires site { is_of_sites workload.now.sites site ≡ true }
    requires none { outs.old ≡ [] }
    ensures kept { OnOk result (IsKept ⟦<dyn Controller as Controller>⟧ workload.now parts.new) }
    ensures quiet { OnOk result (words.forced workload.now (noted parts.new.record.history) ≡ None) }
    ensures hears { OnOk result ((s : states.Sequencer) → Tells workload.now parts.old.record s → IsOf workload.now parts.new.record outs.new (steps.hear_of_site workload.now s site letter.now)) }
    ensures extent { OnOk result (extent workload.now parts.new.record.history ≤ extent workload.now parts.old.record.history + 3) }
{
    if is_taken(parts, workload, site, letter) {
        hear_fit(parts, alloc, workload, site, letter, outs)?;
    }
    Ok(())
}

/// The sequencer's step, given the sender's server number.
#[tactic(auto, using(crate::proofs::Heard::of_site, crate::proofs::Heard::of_itself, crate::proofs::Heard::of_monitor))]
pub fn hear(
    parts: &mut Parts,
    alloc: Global,
    workload: &Workload,
    from: u16,
    letter: &Letter,
    outs: &mut Outs,
) -> Result<(), NoMemory>
    requires kept { IsKept ⟦<dyn Controller as Controller>⟧ workload.now parts.old }
    requires quiet { words.forced workload.now (noted parts.old.record.history) ≡ None }
    requires room { extent workload.now parts.old.record.history < 4294967200 }
    requires sender { from < workload.now.sites + 2 }
    requires none { outs.old ≡ [] }
    ensures kept { OnOk result (IsKept ⟦<dyn Controller as Controller>⟧ workload.now parts.new) }
    ensures quiet { OnOk result (words.forced workload.now (noted parts.new.record.history) ≡ None) }
    ensures hears { OnOk result ((s : states.Sequencer) → Tells workload.now parts.old.record s → IsOf workload.now parts.new.record outs.new (steps.hear_sequencer workload.now s from letter.now)) }
    ensures extent { OnOk result (extent workload.now parts.new.record.history ≤ extent workload.now parts.old.record.history + 3) }
{
    if from == 0 {
        return hear_down(parts, alloc, workload, &letter.message, outs);
    }
    if from == 1 {
        return Ok(());
    }
    let site = Site(from as u8 - 1);
    hear_of_site(parts, alloc, workload, site, letter, outs)
}
