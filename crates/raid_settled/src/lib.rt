//! That no copy which could be renewed is forgotten, in every run.
//!
//! `specs/Settled` says what that is: each copy that is under way has a letter on its way, or has lost its source or its target; and each copy that
//! could be sent for is under way. The functions do nothing: each is a law, and its contract says it.
#![tactic(auto)]

ghost use Rattle.std.specs.Prelude.{◌≡◌, true, List};
ghost use Rattle.std.specs.List.{list_all};
ghost use Rattle.raid_workload.specs.declared.workload.Workload.{Workload};
ghost use Rattle.raid_workload.specs.Parts.{sites, items};
ghost use Rattle.raid_rules.specs.History.{noted};
ghost use Rattle.raid_legal.specs.Switched.{is_settled};
ghost use Rattle.raid_message.specs.declared.letter.Pick.{Pick};
ghost use Rattle.raid_steps.specs.World.{run, is_idle};
ghost use Rattle.raid_settled.specs.Settled.{CopiesAreCaredFor};

/// Whatever steps were taken: each copy that is sent for has a letter on its way (or its source or target has ended its session), and each copy that could be renewed is sent for.
#[tactic(auto, using(crate::proofs::Runs::runs_cared))]
pub fn copies_are_cared_for()
    ensures { (w : Workload) (schedule : List Pick) → CopiesAreCaredFor w (run w schedule) }
{}

/// Where no letter is left on any link, no copy at an up site could be renewed.
#[tactic(auto, using(crate::proofs::Runs::runs_settled))]
pub fn idle_copies_are_settled()
    ensures { (w : Workload) (schedule : List Pick) → is_idle (run w schedule) ≡ true → list_all (λ s. list_all (is_settled w (noted (run w schedule).servers.sequencer.history) s) (items w)) (sites w) ≡ true }
{}
