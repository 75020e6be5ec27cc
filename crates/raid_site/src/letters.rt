//! What a site does with a letter, by who sent it.

ghost use Rattle.std.specs.Prelude.{◌≡◌, ◌≤◌, ◌<◌, ◌-◌, ◌==◌, [], IsTrue, OnOk, if◌then◌else◌};
ghost use Rattle.raid_base.specs.Sites.{site};
ghost use Rattle.raid_steps.specs.State.{opened};
ghost use Rattle.raid_steps.specs.Site as steps;
ghost use Rattle.raid_driver.specs.Drive.{may_ask};
ghost use Rattle.raid_site.specs.Whole.{turn, state_of, IsLive, IsWhole};

use crate::hearing::{hear_peer, hear_sequencer};
use crate::parts::Parts;
use crate::table::{refuse, return_row, stop_row};
use raid_base::{NoMemory, Site};
use raid_message::{Letter, Message, Outs};
use raid_workload::Workload;
use std::alloc::Global;

/// An up site hears the monitor.
fn stop(
    parts: &mut Parts,
    workload: &Workload,
    message: &Message,
    outs: &mut Outs,
) -> Result<(), NoMemory>
    requires live { IsLive workload.now parts.old }
    requires whole { IsWhole workload.now parts.old }
    requires none { outs.old ≡ [] }
    ensures ok { OnOk result (turn parts.new outs.new ≡ steps.stop workload.now (state_of parts.old) message.now) }
    ensures live { OnOk result (IsLive workload.now parts.new) }
    ensures whole { OnOk result (IsWhole workload.now parts.new) }
{
    match message {
        Message::Stop => stop_row(parts, workload, outs),
        _ => Ok(()),
    }
}

/// What a stopped site does: it hears the monitor alone.
fn hear_down(
    parts: &mut Parts,
    workload: &Workload,
    from: u16,
    letter: &Letter,
    outs: &mut Outs,
) -> Result<(), NoMemory>
    requires live { IsLive workload.now parts.old }
    requires whole { IsWhole workload.now parts.old }
    requires none { outs.old ≡ [] }
    requires session { parts.old.session < 4294967295 }
    ensures ok { OnOk result (turn parts.new outs.new ≡ steps.hear_down (state_of parts.old) from letter.now) }
    ensures live { OnOk result (IsLive workload.now parts.new) }
    ensures whole { OnOk result (IsWhole workload.now parts.new) }
{
    if from != 0 {
        return Ok(());
    }
    match &letter.message {
        Message::Return => return_row(parts, workload, outs),
        _ => Ok(()),
    }
}

/// A letter of another site.
fn hear_site(
    parts: &mut Parts,
    alloc: Global,
    workload: &Workload,
    from: u16,
    letter: &Letter,
    outs: &mut Outs,
) -> Result<(), NoMemory>
    requires live { IsLive workload.now parts.old }
    requires whole { IsWhole workload.now parts.old }
    requires asks { IsTrue (may_ask parts.old.driver.running) }
    requires none { outs.old ≡ [] }
    requires least { 2 ≤ from }
    requires most { from ≤ 9 }
    ensures ok { OnOk result (turn parts.new outs.new ≡ (if letter.now.to == parts.old.session then steps.hear_peer workload.now (state_of parts.old) (site (from - 1)) letter.now else steps.refuse (state_of parts.old) from letter.now letter.now.message)) }
    ensures live { OnOk result (IsLive workload.now parts.new) }
    ensures whole { OnOk result (IsWhole workload.now parts.new) }
{
    if letter.to == parts.session {
        let site = Site(from as u8 - 1);
        return hear_peer(parts, alloc, workload, site, letter, outs);
    }
    refuse(parts, from, letter, outs)
}

/// A letter of the sequencer.
fn hear_first(
    parts: &mut Parts,
    alloc: Global,
    workload: &Workload,
    letter: &Letter,
    outs: &mut Outs,
) -> Result<(), NoMemory>
    requires live { IsLive workload.now parts.old }
    requires whole { IsWhole workload.now parts.old }
    requires asks { IsTrue (may_ask parts.old.driver.running) }
    requires none { outs.old ≡ [] }
    ensures ok { OnOk result (turn parts.new outs.new ≡ (if letter.now.to == parts.old.session then steps.hear_sequencer workload.now (state_of parts.old) letter.now else opened (state_of parts.old))) }
    ensures live { OnOk result (IsLive workload.now parts.new) }
    ensures whole { OnOk result (IsWhole workload.now parts.new) }
{
    if letter.to == parts.session {
        return hear_sequencer(parts, alloc, workload, letter, outs);
    }
    Ok(())
}

/// What an up site does.
#[tactic(auto, using(crate::proofs::Senders::of_site, crate::proofs::Senders::of_sequencer, crate::proofs::Senders::of_monitor))]
fn hear_up(
    parts: &mut Parts,
    alloc: Global,
    workload: &Workload,
    from: u16,
    letter: &Letter,
    outs: &mut Outs,
) -> Result<(), NoMemory>
    requires live { IsLive workload.now parts.old }
    requires whole { IsWhole workload.now parts.old }
    requires asks { IsTrue (may_ask parts.old.driver.running) }
    requires none { outs.old ≡ [] }
    requires sender { from ≤ 9 }
    ensures ok { OnOk result (turn parts.new outs.new ≡ steps.hear_up workload.now (state_of parts.old) from letter.now) }
    ensures live { OnOk result (IsLive workload.now parts.new) }
    ensures whole { OnOk result (IsWhole workload.now parts.new) }
{
    if from == 0 {
        return stop(parts, workload, &letter.message, outs);
    }
    if from > 1 {
        return hear_site(parts, alloc, workload, from, letter, outs);
    }
    hear_first(parts, alloc, workload, letter, outs)
}

/// The site's step, given the sender's server number.
pub fn hear(
    parts: &mut Parts,
    alloc: Global,
    workload: &Workload,
    from: u16,
    letter: &Letter,
    outs: &mut Outs,
) -> Result<(), NoMemory>
    requires live { IsLive workload.now parts.old }
    requires whole { IsWhole workload.now parts.old }
    requires asks { IsTrue (may_ask parts.old.driver.running) }
    requires none { outs.old ≡ [] }
    requires sender { from ≤ 9 }
    requires session { parts.old.session < 4294967295 }
    ensures ok { OnOk result (turn parts.new outs.new ≡ steps.hear_site workload.now (state_of parts.old) from letter.now) }
    ensures live { OnOk result (IsLive workload.now parts.new) }
    ensures whole { OnOk result (IsWhole workload.now parts.new) }
{
    if parts.up {
        return hear_up(parts, alloc, workload, from, letter, outs);
    }
    hear_down(parts, workload, from, letter, outs)
}
