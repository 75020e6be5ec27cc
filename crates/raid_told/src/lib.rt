//! That sites tell of renewed copies what they should, in every run.
//!
//! `specs/Copiers` says why: while a locked copy waits at an up site, nobody writes its item, so that a source sends the item's version.
//! No value of an item is in it. The functions do nothing: each is a law, and its contract says it.
#![tactic(auto)]

ghost use Rattle.std.specs.Prelude.{List};
ghost use Rattle.raid_workload.specs.declared.workload.Workload.{Workload};
ghost use Rattle.raid_message.specs.declared.letter.Pick.{Pick};
ghost use Rattle.raid_steps.specs.World.{run};
ghost use Rattle.raid_ready.specs.Told.{CopiesAreTold};
ghost use Rattle.raid_told.specs.Copiers.{CopiersTell};

/// Whatever steps were taken: what is on its way for a locked copy at an up site is the item's version.
#[tactic(auto, using(crate::proofs::Runs::runs_tell))]
pub fn copiers_tell_the_version()
    ensures { (w : Workload) (schedule : List Pick) → CopiersTell w (run w schedule) }
{}

/// Whatever steps were taken: where the sequencer hears next that the locked copy of an up site was renewed, it was brought to the item's version.
#[tactic(auto, using(crate::proofs::Runs::runs_told))]
pub fn copies_are_told()
    ensures { (w : Workload) (schedule : List Pick) → CopiesAreTold w (run w schedule) }
{}
