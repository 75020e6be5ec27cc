//! A schedule that a new world takes.

ghost use Rattle.std.specs.Prelude.{◌≡◌, true, OnOk};
ghost use Rattle.raid_force.specs.Lasting.{AreClear, are_whole};
ghost use Rattle.raid_world_table.specs.Reached.{Reached};

use anyhow::{Result, bail};
use raid_base::Bytes;
use raid_control::{Controller, Rack};
use raid_full_rack::{Controllers, full_rack};
use raid_message::Pick;
use raid_workload::Workload;
use raid_world::World;
use std::alloc::Global;

/// How many letters a link of bounded room would hold. It makes no difference to a run.
const PLACES: u32 = 64;

/// The most steps that a server may take.
const MOST: u64 = 1_000_000_000;

/// What came of a schedule.
#[derive(Drop, Debug)]
pub enum End {
    /// This pick, counted from 1, found no letter.
    NoLetter(usize),
    /// All found one: whether a letter is left, and the print of the report.
    Told { is_left: bool, text: Bytes },
}

/// Lets a server take the front letter of a link. False where there is none.
fn take(alloc: Global, workload: &Workload, world: &mut World, pick: Pick) -> Result<bool>
    requires { Reached ⟦<dyn Controller as Controller>⟧ workload.now world.old }
    ensures { OnOk result (Reached ⟦<dyn Controller as Controller>⟧ workload.now world.new) }
{
    let servers = u16::from(workload.sites) + 2;
    if pick.server >= servers || pick.from >= servers || world.steps() >= MOST {
        bail!("no pick of the workload");
    }
    Ok(world.pick(alloc, workload, pick)?)
}

/// Lets the servers take letters as the picks say. The first pick that finds none, counted from 1, is the last that is made.
fn take_all(
    alloc: Global,
    workload: &Workload,
    world: &mut World,
    picks: &[Pick],
) -> Result<Option<usize>>
    requires { Reached ⟦<dyn Controller as Controller>⟧ workload.now world.old }
    ensures { OnOk result (Reached ⟦<dyn Controller as Controller>⟧ workload.now world.new) }
{
    for k in 0..picks.len() {
        if !take(alloc, workload, world, picks[k])? {
            return Ok(Some(k + 1));
        }
    }
    Ok(None)
}

/// Lets the servers take letters in the fixed order, always the least server that has one, from the least sender that it has one from, until
/// no letter is left.
fn take_in_order(alloc: Global, workload: &Workload, world: &mut World) -> Result<()>
    requires { Reached ⟦<dyn Controller as Controller>⟧ workload.now world.old }
    ensures { OnOk result (Reached ⟦<dyn Controller as Controller>⟧ workload.now world.new) }
{
    for _ in 0..MOST {
        let Some(pick) = world.first() else {
            return Ok(());
        };
        take(alloc, workload, world, pick)?;
    }
    bail!("the run doesn't end");
}

/// The print of the world's report.
fn told(alloc: Global, workload: &Workload, world: &World) -> Result<Bytes>
    requires { Reached ⟦<dyn Controller as Controller>⟧ workload.now world.now }
{
    if world.is_finished() || world.steps() > MOST {
        bail!("the world does not go on");
    }
    let report = world.report(alloc, workload)?;
    Ok(raid_report::print(alloc, workload, &report)?)
}

/// What comes of the picks in a new world with this rack.
fn run(alloc: Global, workload: &Workload, rack: Rack, picks: &[Pick]) -> Result<End>
    requires whole { are_whole ⟦<dyn Controller as Controller>⟧ rack.slots.items ≡ true }
    requires clear { AreClear ⟦<dyn Controller as Controller>⟧ rack.slots.items }
{
    let mut world = World::new(alloc, workload, PLACES, rack)?;
    let missed = take_all(alloc, workload, &mut world, picks)?;
    if let Some(k) = missed {
        return Ok(End::NoLetter(k));
    }
    let is_left = world.first().is_some();
    let text = told(alloc, workload, &world)?;
    Ok(End::Told { is_left, text })
}

/// The print of the report of a run in the fixed order, with this rack.
fn run_in_order(alloc: Global, workload: &Workload, rack: Rack) -> Result<Bytes>
    requires whole { are_whole ⟦<dyn Controller as Controller>⟧ rack.slots.items ≡ true }
    requires clear { AreClear ⟦<dyn Controller as Controller>⟧ rack.slots.items }
{
    let mut world = World::new(alloc, workload, PLACES, rack)?;
    take_in_order(alloc, workload, &mut world)?;
    told(alloc, workload, &world)
}

/// What comes of the picks in a new world.
pub fn run_schedule(alloc: Global, workload: &Workload, picks: &[Pick]) -> Result<End> {
    let made = Controllers::new(alloc)?;
    let rack = full_rack(
        alloc,
        made.lock,
        made.stamp,
        made.valid,
        made.graph,
        made.first,
        made.second,
    )?;
    run(alloc, workload, rack, picks)
}

/// The print of the report of a run in the fixed order.
pub fn run_fixed(alloc: Global, workload: &Workload) -> Result<Bytes> {
    let made = Controllers::new(alloc)?;
    let rack = full_rack(
        alloc,
        made.lock,
        made.stamp,
        made.valid,
        made.graph,
        made.first,
        made.second,
    )?;
    run_in_order(alloc, workload, rack)
}
