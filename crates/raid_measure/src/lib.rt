//! A number for each world that bounds how many letters may still be taken.
//!
//! `specs/Measure` has it, a sum of parts. At the start it is below the bound that the workload gives. The functions do
//! nothing: each is a law, and its contract says it.
#![tactic(auto)]

ghost use Rattle.std.specs.Prelude.{◌<◌};
ghost use Rattle.raid_workload.specs.declared.workload.Workload.{Workload};
ghost use Rattle.raid_steps.specs.World.{open_world, rounds};
ghost use Rattle.raid_measure.specs.Measure.{measure};

/// Of every workload: the measure of the world at the start is below the number of picks that no run should come to.
#[tactic(auto, using(crate::proofs::Opening::opening_below))]
pub fn opening_measure_is_below_the_bound()
    ensures { (w : Workload) → measure w (open_world w) < rounds w }
{}
