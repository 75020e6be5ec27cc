//! That programs which run are where they can be served, and ask for what there is, in every run.
//!
//! `specs/AtHome` says where the program of a transaction is that runs, or whose Begin is on its way; `specs/Fit`, what sites ask of the
//! sequencer. No value of an item is in it. The functions do nothing: each is a law, and its contract says it.
#![tactic(auto)]

ghost use Rattle.std.specs.Prelude.{List};
ghost use Rattle.raid_workload.specs.declared.workload.Workload.{Workload};
ghost use Rattle.raid_message.specs.declared.letter.Pick.{Pick};
ghost use Rattle.raid_steps.specs.World.{run};
ghost use Rattle.raid_witness.specs.AtHome.{AreAtHome};
ghost use Rattle.raid_witness.specs.Fit.{AsksFit};

/// Whatever steps were taken: of each transaction that runs the history has the home up. Where that home is up itself, in its last session told, the
/// transaction's program runs there; and so do the programs whose Begins it has sent in this session, while these are on their way.
#[tactic(auto, using(crate::proofs::Runs::runs_home))]
pub fn running_programs_are_at_home()
    ensures { (w : Workload) (schedule : List Pick) → AreAtHome w (run w schedule) }
{}

/// Whatever steps were taken: each Begin, ReadAsk, CommitAsk and EndAsk on its way to the sequencer names only transactions, items and sites that the
/// workload has. So the sequencer drops none of them for what it names.
#[tactic(auto, using(crate::proofs::FitRuns::runs_fit))]
pub fn asks_fit_the_workload()
    ensures { (w : Workload) (schedule : List Pick) → AsksFit w (run w schedule) }
{}
