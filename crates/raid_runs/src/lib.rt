//! What holds of every run, in whatever order its servers took their letters.
//!
//! `specs/Upheld` says it of the run's report. Not all that makes a report sound is there: that the values read are those of the last writers
//! before, that a program asked for each item that it read, that the copies agree, and that nothing is left to do at the end, is no part of
//! it. The functions do nothing: each is a law, and its contract says it.
#![tactic(auto)]

ghost use Rattle.std.specs.Prelude.{◌≡◌, List, None};
ghost use Rattle.raid_base.specs.declared.entry.Entry.{Entry};
ghost use Rattle.raid_base.specs.declared.report.Report.{Report};
ghost use Rattle.raid_message.specs.declared.letter.Pick.{Pick};
ghost use Rattle.raid_workload.specs.declared.workload.Workload.{Workload};
ghost use Rattle.raid_rules.specs.History.{noted};
ghost use Rattle.raid_legal.specs.Forced.{forced};
ghost use Rattle.raid_legal.specs.Legal.{Legal};
ghost use Rattle.raid_legal.specs.Serial.{Serial};
ghost use Rattle.raid_legal.specs.Switched.{Switched};
ghost use Rattle.raid_steps.specs.World.{run, report};
ghost use Rattle.raid_placed.specs.Placed.{Placed};
ghost use Rattle.raid_runs.specs.Asked.{AreAsked};
ghost use Rattle.raid_runs.specs.Unasked.{SwitchesUnasked};
ghost use Rattle.raid_runs.specs.Upheld.{Upheld};

/// Where nothing is forced any more after a placed history, its switches did just what they may, as in a legal one. No abort for a switch
/// may be an answer to what its transaction asked for: that alone the rules of placed histories leave open.
#[tactic(auto, using(crate::proofs::Switches::placed_switched))]
pub fn placed_histories_are_switched()
    ensures { (w : Workload) (h : List Entry) → Placed w h → SwitchesUnasked h → forced w (noted h) ≡ None → Switched w h }
{}

/// Whatever steps were taken: the report is upheld.
pub fn runs_are_upheld()
    ensures { (w : Workload) (schedule : List Pick) → Upheld w (report w (run w schedule).servers) }
{}

/// What is left between an upheld report and a legal history: that each program asked for the item of each Read, and that the values told of
/// what a transaction read are those that the history has for it. Where that holds the report is legal, and so it is serial.
#[tactic(auto, using(crate::proofs::Legal::upheld_legal))]
pub fn upheld_reports_are_legal_where_asked()
    ensures legal { (w : Workload) (r : Report) → Upheld w r → AreAsked w r.entries → Legal w r.entries }
    ensures serial { (w : Workload) (r : Report) → Upheld w r → AreAsked w r.entries → Serial w r }
{}
