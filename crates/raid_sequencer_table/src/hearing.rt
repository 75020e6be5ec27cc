//! A sequencer that hears a sequence of letters.

ghost use Rattle.std.specs.Prelude.{◌≡◌, true};
ghost use Rattle.raid_force.specs.Lasting.{AreClear, are_whole};
ghost use Rattle.raid_sequencer.specs.Runs.{Runs, workload_of};

use anyhow::{Result, bail};
use raid_base::Report;
use raid_control::{Controller, Rack};
use raid_full_rack::{Controllers, full_rack};
use raid_history::History;
use raid_letter_lines::{Step, are_alike};
use raid_rules::order::Order;
use raid_sequencer::Sequencer;
use raid_workload::Workload;

/// The most letters that a server may hear.
const MOST: u32 = 1_000_000_000;

/// Whether the sequencer sends what is wanted at a letter.
fn sends_alike(
    rt: &HostRuntime,
    workload: &Workload,
    server: &mut Sequencer,
    step: &Step,
) -> Result<bool>
    requires runs { Runs ⟦<dyn Controller as Controller>⟧ server.old }
    requires workload { workload_of server.old ≡ workload.now }
    ensures runs { Runs ⟦<dyn Controller as Controller>⟧ server.new }
    ensures workload { workload_of server.new ≡ workload.now }
{
    let heard = &step.heard;
    if heard.from >= u16::from(workload.sites) + 2 || server.heard() >= MOST {
        bail!("no letter of a server");
    }
    let sent = server.hear(rt.alloc(), heard.from, &heard.letter)?;
    let alike = are_alike(rt.alloc(), &sent, &step.sent)?;
    if !alike {
        println!(rt; "after {heard:?} it sends {sent:?}")?;
    }
    Ok(alike)
}

/// Whether the history has these entries and no other.
fn has_entries(rt: &HostRuntime, history: &History, wanted: &Report) -> Result<bool> {
    let mut number = 0;
    for entry in wanted.entries.as_slice() {
        if number >= history.len() {
            println!(rt; "it has {number} entries and no more")?;
            return Ok(false);
        }
        number += 1;
        let placed = format!(in rt.alloc(); "{:?}", history.entry(number))?;
        let entry = format!(in rt.alloc(); "{entry:?}")?;
        if placed.as_str() != entry.as_str() {
            println!(rt; "entry {number} is {}", placed.as_str())?;
            return Ok(false);
        }
    }
    if number < history.len() {
        println!(rt; "entry {} is {:?}", number + 1, history.entry(number + 1))?;
        return Ok(false);
    }
    Ok(true)
}

/// Whether this is the order of the transactions that have committed.
fn has_order(rt: &HostRuntime, order: &Order, wanted: &Report) -> Result<bool> {
    let Order::Whole(order) = order else {
        println!(rt; "it has no order")?;
        return Ok(false);
    };
    let alike = order.as_slice() == wanted.order.as_slice();
    if !alike {
        println!(rt; "the order is {order:?}")?;
    }
    Ok(alike)
}

/// Whether a sequencer with this rack sends what is wanted at each letter, has the wanted entries and order in the end, and gives a rack
/// back that is enough again.
fn hears_with(
    rt: &HostRuntime,
    workload: &Workload,
    rack: Rack,
    steps: &[Step],
    wanted: &Report,
) -> Result<bool>
    requires whole { are_whole ⟦<dyn Controller as Controller>⟧ rack.slots.items ≡ true }
    requires clear { AreClear ⟦<dyn Controller as Controller>⟧ rack.slots.items }
{
    let mut server = Sequencer::new(rt.alloc(), workload, rack)?;
    for step in steps {
        if !sends_alike(rt, workload, &mut server, step)? {
            return Ok(false);
        }
    }
    if !has_entries(rt, server.history(), wanted)? || server.is_finished() {
        return Ok(false);
    }
    let order = server.order(rt.alloc())?;
    if !has_order(rt, &order, wanted)? {
        return Ok(false);
    }
    Ok(server.close().is_whole())
}

/// Whether a new sequencer sends what is wanted at each letter, and has the wanted entries and order in the end.
pub fn hears_alike(
    rt: &HostRuntime,
    workload: &Workload,
    steps: &[Step],
    wanted: &Report,
) -> Result<bool> {
    let made = Controllers::new(rt.alloc())?;
    let rack = full_rack(
        rt.alloc(),
        made.lock,
        made.stamp,
        made.valid,
        made.graph,
        made.first,
        made.second,
    )?;
    hears_with(rt, workload, rack, steps, wanted)
}
