//! That the sequencer answers whatever programs ask, in every run.
//!
//! `specs/Answered` says it: no ask of a program is dropped while its transaction isn't over. No value of an item is in it. The function does
//! nothing: it is a law, and its contract says it.
#![tactic(auto)]

ghost use Rattle.std.specs.Prelude.{List};
ghost use Rattle.raid_workload.specs.declared.workload.Workload.{Workload};
ghost use Rattle.raid_message.specs.declared.letter.Pick.{Pick};
ghost use Rattle.raid_steps.specs.World.{run};
ghost use Rattle.raid_answered.specs.Answered.{AsksAreAnswered};

/// Whatever steps were taken: at a site that is up in its last session told, of each program whose transaction isn't over and which has no ask on
/// its way, the last ask was answered. Who asked for an item was granted as many reads as it has asked for; and who asked for its end waits.

#[tactic(auto, using(crate::proofs::Runs::runs_answer))]
pub fn asks_are_answered()
    ensures { (w : Workload) (schedule : List Pick) → AsksAreAnswered w (run w schedule) }
{}
