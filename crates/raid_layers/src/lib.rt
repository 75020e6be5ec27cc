//! That programs ask one thing at a time, in every run.
//!
//! `specs/Asks` says it: of a transaction that isn't over, one ask at most is on its way, and it asks for what wasn't read, or may be lost, or
//! tells just what was read; and what its program is about at its home fits what became of the ask. No value of an item is in it. The
//! functions do nothing: each is a law, and its contract says it.
#![tactic(auto)]

ghost use Rattle.std.specs.Prelude.{List};
ghost use Rattle.raid_workload.specs.declared.workload.Workload.{Workload};
ghost use Rattle.raid_message.specs.declared.letter.Pick.{Pick};
ghost use Rattle.raid_steps.specs.World.{run};
ghost use Rattle.raid_layers.specs.Asks.{AskOneThing};

/// Whatever steps were taken: of each transaction that isn't over, one ask at most is on its way from a site, and it is up to date; and at a
/// home that is up in its last session told, each program is about what its asks came to.
#[tactic(auto, using(crate::proofs::Laws::asks_one))]
pub fn programs_ask_one_thing_at_a_time()
    ensures { (w : Workload) (schedule : List Pick) → AskOneThing w (run w schedule) }
{}
