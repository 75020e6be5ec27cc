//! That letters on their way say what there is, in every run.
//!
//! `specs/Says` says it of each letter by its message: what it names is where it says, has happened, or was asked for. No value of an item is
//! in it. The functions do nothing: each is a law, and its contract says it.
#![tactic(auto)]

ghost use Rattle.std.specs.Prelude.{List};
ghost use Rattle.raid_workload.specs.declared.workload.Workload.{Workload};
ghost use Rattle.raid_message.specs.declared.letter.Pick.{Pick};
ghost use Rattle.raid_steps.specs.World.{run};
ghost use Rattle.raid_letters.specs.Says.{LettersSay};

/// Whatever steps were taken: each letter on its way says what there is.
pub fn letters_say_what_there_is()
    ensures { (w : Workload) (schedule : List Pick) → LettersSay w (run w schedule) }
{}
