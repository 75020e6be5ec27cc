//! What the sequencer places for a letter that says of a site that it has stopped or come up.

ghost use Rattle.std.specs.Prelude.{◌≡◌, ◌≤◌, ◌<◌, ◌+◌, ◌==◌, ◌&&◌, true, false, None, Some, OnOk, if◌then◌else◌};
ghost use Rattle.raid_base.specs.declared.entry.Entry.TheVariants as entries;
ghost use Rattle.raid_rules.specs.History.{noted};
ghost use Rattle.raid_base.specs.Sites as sites;
ghost use Rattle.raid_legal.specs.Seen.{is_up, vector};
ghost use Rattle.raid_legal.specs.Forced as words;
ghost use Rattle.raid_faillock.specs.Stands.{is_of_sites};
ghost use Rattle.raid_steps.specs.Sequencer as steps;
ghost use Rattle.raid_record.specs.Tells.{Turns};
ghost use Rattle.raid_sequencer.specs.Kept.{IsKept};
ghost use Rattle.raid_sequencer.specs.Extent.{extent};

use crate::parts::Parts;
use raid_base::{Entry, NoMemory, Site};
use raid_control::Controller;
use raid_message::Outs;
use raid_workload::Workload;
use std::alloc::Global;

/// The site is down from here on.
fn go_down(
    parts: &mut Parts,
    alloc: Global,
    workload: &Workload,
    site: Site,
    outs: &mut Outs,
) -> Result<(), NoMemory>
    requires kept { IsKept ⟦<dyn Controller as Controller>⟧ workload.now parts.old }
    requires quiet { words.forced workload.now (noted parts.old.record.history) ≡ None }
    requires room { extent workload.now parts.old.record.history < 4294967295 }
    requires site { is_of_sites workload.now.sites site ≡ true }
    ensures kept { OnOk result (IsKept ⟦<dyn Controller as Controller>⟧ workload.now parts.new) }
    ensures turns { OnOk result (Turns workload.now parts.old.record outs.old parts.new.record outs.new (λ turn. steps.place workload.now 0 turn (entries.Down site))) }
    ensures extent { OnOk result (extent workload.now parts.new.record.history ≤ extent workload.now parts.old.record.history + 1) }
    ensures down { OnOk result (is_up workload.now (noted parts.new.record.history) site ≡ false) }
{
    parts.place(alloc, workload, 0, Entry::Down { site }, outs)
}

/// The site goes down, where it is up in the session.
fn stop(
    parts: &mut Parts,
    alloc: Global,
    workload: &Workload,
    site: Site,
    session: u32,
    outs: &mut Outs,
) -> Result<(), NoMemory>
    requires kept { IsKept ⟦<dyn Controller as Controller>⟧ workload.now parts.old }
    requires quiet { words.forced workload.now (noted parts.old.record.history) ≡ None }
    requires room { extent workload.now parts.old.record.history < 4294967200 }
    requires site { is_of_sites workload.now.sites site ≡ true }
    ensures kept { OnOk result (IsKept ⟦<dyn Controller as Controller>⟧ workload.now parts.new) }
    ensures turns { OnOk result (Turns workload.now parts.old.record outs.old parts.new.record outs.new (λ turn. steps.place_if workload.now 0 turn (if is_up workload.now (steps.so_far turn) site && sites.session (vector workload.now (steps.so_far turn)) site == session then Some (entries.Down site) else None))) }
    ensures extent { OnOk result (extent workload.now parts.new.record.history ≤ extent workload.now parts.old.record.history + 1) }
{
    if parts.is_in(workload, site, session) {
        go_down(parts, alloc, workload, site, outs)?;
    }
    Ok(())
}

/// A session of the site has ended, which is announced: it goes down, where it is up in that session.
pub fn down_row(
    parts: &mut Parts,
    alloc: Global,
    workload: &Workload,
    site: Site,
    session: u32,
    outs: &mut Outs,
) -> Result<(), NoMemory>
    requires kept { IsKept ⟦<dyn Controller as Controller>⟧ workload.now parts.old }
    requires quiet { words.forced workload.now (noted parts.old.record.history) ≡ None }
    requires room { extent workload.now parts.old.record.history < 4294967200 }
    requires site { is_of_sites workload.now.sites site ≡ true }
    ensures kept { OnOk result (IsKept ⟦<dyn Controller as Controller>⟧ workload.now parts.new) }
    ensures turns { OnOk result (Turns workload.now parts.old.record outs.old parts.new.record outs.new (λ turn. steps.down_row workload.now turn site session)) }
    ensures extent { OnOk result (extent workload.now parts.new.record.history ≤ extent workload.now parts.old.record.history + 1) }
{
    parts.announce(workload, site, session);
    stop(parts, alloc, workload, site, session, outs)?;
    Ok(())
}

/// Before the site comes up: where it is up its stop wasn't announced yet, so it goes down, and what this forces is placed.
fn leave(
    parts: &mut Parts,
    alloc: Global,
    workload: &Workload,
    site: Site,
    outs: &mut Outs,
) -> Result<(), NoMemory>
    requires kept { IsKept ⟦<dyn Controller as Controller>⟧ workload.now parts.old }
    requires quiet { words.forced workload.now (noted parts.old.record.history) ≡ None }
    requires room { extent workload.now parts.old.record.history < 4294967200 }
    requires site { is_of_sites workload.now.sites site ≡ true }
    ensures kept { OnOk result (IsKept ⟦<dyn Controller as Controller>⟧ workload.now parts.new) }
    ensures turns { OnOk result (Turns workload.now parts.old.record outs.old parts.new.record outs.new (λ turn. steps.leave workload.now turn site)) }
    ensures extent { OnOk result (extent workload.now parts.new.record.history ≤ extent workload.now parts.old.record.history + 1) }
    ensures quiet { OnOk result (words.forced workload.now (noted parts.new.record.history) ≡ None) }
    ensures down { OnOk result (is_up workload.now (noted parts.new.record.history) site ≡ false) }
{
    if parts.record.is_up(site) {
        go_down(parts, alloc, workload, site, outs)?;
        parts.settle(alloc, workload, outs)?;
    }
    Ok(())
}

/// The site, which is down, is up in the session from here on.
fn come_up(
    parts: &mut Parts,
    alloc: Global,
    workload: &Workload,
    site: Site,
    session: u32,
    outs: &mut Outs,
) -> Result<(), NoMemory>
    requires kept { IsKept ⟦<dyn Controller as Controller>⟧ workload.now parts.old }
    requires quiet { words.forced workload.now (noted parts.old.record.history) ≡ None }
    requires room { extent workload.now parts.old.record.history < 4294967295 }
    requires site { is_of_sites workload.now.sites site ≡ true }
    requires down { is_up workload.now (noted parts.old.record.history) site ≡ false }
    ensures kept { OnOk result (IsKept ⟦<dyn Controller as Controller>⟧ workload.now parts.new) }
    ensures turns { OnOk result (Turns workload.now parts.old.record outs.old parts.new.record outs.new (λ turn. steps.place workload.now 0 turn (entries.Up site session))) }
    ensures extent { OnOk result (extent workload.now parts.new.record.history ≤ extent workload.now parts.old.record.history + 1) }
{
    parts.place(alloc, workload, 0, Entry::Up { site, session }, outs)
}

/// After the site has come up: where the end of its new session was announced already, it goes down again.
fn leave_again(
    parts: &mut Parts,
    alloc: Global,
    workload: &Workload,
    site: Site,
    session: u32,
    outs: &mut Outs,
) -> Result<(), NoMemory>
    requires kept { IsKept ⟦<dyn Controller as Controller>⟧ workload.now parts.old }
    requires room { extent workload.now parts.old.record.history < 4294967290 }
    requires site { is_of_sites workload.now.sites site ≡ true }
    ensures kept { OnOk result (IsKept ⟦<dyn Controller as Controller>⟧ workload.now parts.new) }
    ensures turns { OnOk result (Turns workload.now parts.old.record outs.old parts.new.record outs.new (λ turn. steps.leave_again workload.now turn site session)) }
    ensures extent { OnOk result (extent workload.now parts.new.record.history ≤ extent workload.now parts.old.record.history + 1) }
{
    if session <= parts.record.announced(site) {
        parts.settle(alloc, workload, outs)?;
        go_down(parts, alloc, workload, site, outs)?;
    }
    Ok(())
}

/// The site has come up in a new session.
pub fn hello_row(
    parts: &mut Parts,
    alloc: Global,
    workload: &Workload,
    site: Site,
    session: u32,
    outs: &mut Outs,
) -> Result<(), NoMemory>
    requires kept { IsKept ⟦<dyn Controller as Controller>⟧ workload.now parts.old }
    requires quiet { words.forced workload.now (noted parts.old.record.history) ≡ None }
    requires room { extent workload.now parts.old.record.history < 4294967200 }
    requires site { is_of_sites workload.now.sites site ≡ true }
    ensures kept { OnOk result (IsKept ⟦<dyn Controller as Controller>⟧ workload.now parts.new) }
    ensures turns { OnOk result (Turns workload.now parts.old.record outs.old parts.new.record outs.new (λ turn. steps.hello_row workload.now turn site session)) }
    ensures extent { OnOk result (extent workload.now parts.new.record.history ≤ extent workload.now parts.old.record.history + 3) }
{
    leave(parts, alloc, workload, site, outs)?;
    come_up(parts, alloc, workload, site, session, outs)?;
    leave_again(parts, alloc, workload, site, session, outs)?;
    Ok(())
}
