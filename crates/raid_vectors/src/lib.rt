//! That each up site comes to know in which session every site is, and that what it owes is on its way, in every run.
//!
//! `specs/Vectors` says how: what is on its way from the sequencer brings the site's vector to that of the history. No value and no program is in
//! it. The functions do nothing: each is a law, and its contract says it.
#![tactic(auto)]

ghost use Rattle.std.specs.Prelude.{◌≡◌, true, List};
ghost use Rattle.raid_workload.specs.declared.workload.Workload.{Workload};
ghost use Rattle.raid_message.specs.declared.letter.Pick.{Pick};
ghost use Rattle.raid_steps.specs.World.{run, is_idle};
ghost use Rattle.raid_vectors.specs.Vectors.{VectorsCome, VectorsAgree};
ghost use Rattle.raid_vectors.specs.Acks.{AcksCome, NoneOwes};

/// Whatever steps were taken: where the history has a site up in the site's own session, the site's vector comes to that of the history once the
/// site has heard what the sequencer has on its way to it. And the site's own session stands in its vector, or its Welcome is the first that it hears.
pub fn vectors_come_to_what_is_told()
    ensures { (w : Workload) (schedule : List Pick) → VectorsCome w (run w schedule) }
{}

/// Where no letter is left on any link, each site that the history has up in the site's own session knows the vector of the history.
#[tactic(auto, using(crate::proofs::Runs::runs_agree))]
pub fn idle_vectors_are_as_told()
    ensures { (w : Workload) (schedule : List Pick) → is_idle (run w schedule) ≡ true → VectorsAgree w (run w schedule) }
{}

/// Whatever steps were taken: where the history has a site up in the site's own session, and the site owes an Ack of a transaction, the Apply that
/// it waits for is on its way to it, or the Ack is on its way from it.
#[tactic(auto, using(crate::proofs::AckRuns::runs_owe))]
pub fn owed_acks_are_on_their_way()
    ensures { (w : Workload) (schedule : List Pick) → AcksCome w (run w schedule) }
{}

/// Where no letter is left on any link, no site owes an Ack.
pub fn idle_runs_owe_nothing()
    ensures { (w : Workload) (schedule : List Pick) → is_idle (run w schedule) ≡ true → NoneOwes w (run w schedule) }
{}
