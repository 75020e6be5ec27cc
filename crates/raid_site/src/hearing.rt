//! Which letter has which row.

ghost use Rattle.std.specs.Prelude.{◌≡◌, ◌≤◌, ◌<◌, ◌&&◌, [], IsTrue, OnOk};
ghost use Rattle.raid_steps.specs.Fits.{is_of_sequencer, is_of_site};
ghost use Rattle.raid_steps.specs.Programs.{ask_commits};
ghost use Rattle.raid_steps.specs.Site as steps;
ghost use Rattle.raid_driver.specs.Drive.{may_ask};
ghost use Rattle.raid_site.specs.Whole.{turn, state_of, IsLive, IsWhole};

use crate::parts::Parts;
use crate::table::{
    apply_row, copied_row, copy_row, done_row, down_row, drop_row, prepare_row, read_row,
    serving_row, up_row, value_row, vote_row, welcome_row,
};
use crate::{fits, programs};
use raid_base::{NoMemory, Site};
use raid_message::{Letter, Message, Outs};
use raid_workload::Workload;
use std::alloc::Global;

/// A letter of the sequencer that fits.
fn sequencer_row(
    parts: &mut Parts,
    alloc: Global,
    workload: &Workload,
    message: &Message,
    outs: &mut Outs,
) -> Result<(), NoMemory>
    requires live { IsLive workload.now parts.old }
    requires whole { IsWhole workload.now parts.old }
    requires asks { IsTrue (may_ask parts.old.driver.running) }
    requires known { IsTrue (is_of_sequencer workload.now message.now) }
    requires here { IsTrue (steps.fits_here workload.now (state_of parts.old) message.now) }
    ensures ok { OnOk result (turn parts.new outs.new ≡ steps.sequencer_row workload.now (turn parts.old outs.old) message.now) }
    ensures live { OnOk result (IsLive workload.now parts.new) }
    ensures whole { OnOk result (IsWhole workload.now parts.new) }
{
    match message {
        Message::Welcome { vector, next } => {
            welcome_row(parts, alloc, workload, *vector, *next, outs)
        }
        Message::ReadDo {
            txn,
            ask,
            item,
            home,
            home_session,
        } => read_row(
            parts,
            alloc,
            workload,
            *txn,
            *ask,
            *item,
            *home,
            *home_session,
            outs,
        ),
        Message::Serving { txn, ask, site } => {
            serving_row(parts, workload, *txn, *ask, *site, outs);
            Ok(())
        }
        Message::Apply { txn, number } => apply_row(parts, workload, *txn, *number, outs),
        Message::Done { txn } => done_row(parts, alloc, workload, *txn, outs),
        Message::Drop { txn, again } => drop_row(parts, alloc, workload, *txn, *again, outs),
        Message::DownNote { site } => down_row(parts, workload, *site, outs),
        Message::UpNote { site, session } => {
            up_row(parts, alloc, workload, *site, *session, outs)
        }
        Message::CopyDo {
            item,
            target,
            target_session,
        } => copy_row(parts, *item, *target, *target_session, outs),
        _ => Ok(()),
    }
}

/// A letter of another site that fits, sent in a session of it.
fn peer_row(
    parts: &mut Parts,
    alloc: Global,
    workload: &Workload,
    site: Site,
    session: u32,
    message: &Message,
    outs: &mut Outs,
) -> Result<(), NoMemory>
    requires live { IsLive workload.now parts.old }
    requires whole { IsWhole workload.now parts.old }
    requires asks { IsTrue (may_ask parts.old.driver.running) }
    requires least { 1 ≤ site.0 }
    requires most { site.0 ≤ 8 }
    ensures ok { OnOk result (turn parts.new outs.new ≡ steps.peer_row workload.now (turn parts.old outs.old) site session message.now) }
    ensures live { OnOk result (IsLive workload.now parts.new) }
    ensures whole { OnOk result (IsWhole workload.now parts.new) }
{
    match message {
        Message::Value { txn, ask, value } => {
            value_row(parts, alloc, workload, *txn, *ask, *value, outs)
        }
        Message::Prepare { txn, writes } => {
            prepare_row(parts, workload, *txn, writes, site, session, outs)
        }
        Message::Vote { txn, answer } => {
            vote_row(parts, workload, *txn, site, session, *answer, outs);
            Ok(())
        }
        Message::CopyValue {
            item,
            value,
            version,
        } => copied_row(parts, workload, *item, *value, *version, outs),
        _ => Ok(()),
    }
}

/// A letter of the sequencer that fits, and then the commits that may be asked for.
fn do_sequencer(
    parts: &mut Parts,
    alloc: Global,
    workload: &Workload,
    message: &Message,
    outs: &mut Outs,
) -> Result<(), NoMemory>
    requires live { IsLive workload.now parts.old }
    requires whole { IsWhole workload.now parts.old }
    requires asks { IsTrue (may_ask parts.old.driver.running) }
    requires known { IsTrue (is_of_sequencer workload.now message.now) }
    requires here { IsTrue (steps.fits_here workload.now (state_of parts.old) message.now) }
    ensures ok { OnOk result (turn parts.new outs.new ≡ ask_commits (steps.sequencer_row workload.now (turn parts.old outs.old) message.now)) }
    ensures live { OnOk result (IsLive workload.now parts.new) }
    ensures whole { OnOk result (IsWhole workload.now parts.new) }
{
    sequencer_row(parts, alloc, workload, message, outs)?;
    programs::ask_commits(parts, alloc, workload, outs)
}

/// A letter of another site that fits, and then the commits that may be asked for.
fn do_peer(
    parts: &mut Parts,
    alloc: Global,
    workload: &Workload,
    site: Site,
    session: u32,
    message: &Message,
    outs: &mut Outs,
) -> Result<(), NoMemory>
    requires live { IsLive workload.now parts.old }
    requires whole { IsWhole workload.now parts.old }
    requires asks { IsTrue (may_ask parts.old.driver.running) }
    requires least { 1 ≤ site.0 }
    requires most { site.0 ≤ 8 }
    ensures ok { OnOk result (turn parts.new outs.new ≡ ask_commits (steps.peer_row workload.now (turn parts.old outs.old) site session message.now)) }
    ensures live { OnOk result (IsLive workload.now parts.new) }
    ensures whole { OnOk result (IsWhole workload.now parts.new) }
{
    peer_row(parts, alloc, workload, site, session, message, outs)?;
    programs::ask_commits(parts, alloc, workload, outs)
}

/// The site hears the sequencer, in the session that the letter is meant for.
pub fn hear_sequencer(
    parts: &mut Parts,
    alloc: Global,
    workload: &Workload,
    letter: &Letter,
    outs: &mut Outs,
) -> Result<(), NoMemory>
    requires live { IsLive workload.now parts.old }
    requires whole { IsWhole workload.now parts.old }
    requires asks { IsTrue (may_ask parts.old.driver.running) }
    requires none { outs.old ≡ [] }
    ensures ok { OnOk result (turn parts.new outs.new ≡ steps.hear_sequencer workload.now (state_of parts.old) letter.now) }
    ensures live { OnOk result (IsLive workload.now parts.new) }
    ensures whole { OnOk result (IsWhole workload.now parts.new) }
{
    if !fits::is_of_sequencer(workload, &letter.message) {
        return Ok(());
    }
    if !fits::fits_here(parts, workload, &letter.message) {
        return Ok(());
    }
    do_sequencer(parts, alloc, workload, &letter.message, outs)
}

/// The site hears another site, in the session that the letter is meant for.
pub fn hear_peer(
    parts: &mut Parts,
    alloc: Global,
    workload: &Workload,
    site: Site,
    letter: &Letter,
    outs: &mut Outs,
) -> Result<(), NoMemory>
    requires live { IsLive workload.now parts.old }
    requires whole { IsWhole workload.now parts.old }
    requires asks { IsTrue (may_ask parts.old.driver.running) }
    requires none { outs.old ≡ [] }
    requires least { 1 ≤ site.0 }
    requires most { site.0 ≤ 8 }
    ensures ok { OnOk result (turn parts.new outs.new ≡ steps.hear_peer workload.now (state_of parts.old) site letter.now) }
    ensures live { OnOk result (IsLive workload.now parts.new) }
    ensures whole { OnOk result (IsWhole workload.now parts.new) }
{
    if !fits::is_of_site(workload, &letter.message) {
        return Ok(());
    }
    if !fits::fits_here(parts, workload, &letter.message) {
        return Ok(());
    }
    do_peer(
        parts,
        alloc,
        workload,
        site,
        letter.from,
        &letter.message,
        outs,
    )
}
