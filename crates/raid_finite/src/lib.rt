//! That every run ends.
//!
//! `rounds` of a workload is a number of picks that no run comes to. The functions do nothing: each is a law, and its contract says it.
#![tactic(auto)]

ghost use Rattle.std.specs.Prelude.{◌≡◌, ◌<◌, true, List, length};
ghost use Rattle.raid_workload.specs.declared.workload.Workload.{Workload};
ghost use Rattle.raid_message.specs.declared.letter.Pick.{Pick};
ghost use Rattle.raid_steps.specs.World.{pick, run, finds, is_schedule, rounds};
ghost use Rattle.raid_measure.specs.Measure.{measure};
ghost use Rattle.raid_ends.specs.Hearing.{AreReady};

/// Whatever a workload: each of its schedules is shorter than `rounds`. So whichever letters are taken first, after fewer picks none is left.
#[tactic(auto, using(crate::proofs::Ends::run_ends))]
pub fn runs_end()
    ensures { (w : Workload) (schedule : List Pick) → is_schedule w schedule ≡ true → length schedule < rounds w }
{}

/// Whatever steps were taken: each further pick that finds a letter lowers the measure.
#[tactic(auto, using(crate::proofs::Ends::run_falls))]
pub fn picks_of_runs_lower_the_measure()
    ensures { (w : Workload) (schedule : List Pick) (p : Pick) → finds (run w schedule) p ≡ true → measure w (pick w (run w schedule) p) < measure w (run w schedule) }
{}

/// Whatever steps were taken: each server may hear the front letter of each of its links.
#[tactic(auto, using(crate::proofs::Ends::ready))]
pub fn servers_are_ready()
    ensures { (w : Workload) (schedule : List Pick) → AreReady w (run w schedule) }
{}
