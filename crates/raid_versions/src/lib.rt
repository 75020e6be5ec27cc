//! That copies have their items' last versions, in every run.
//!
//! `specs/Versions` says it: a copy that isn't locked, at a site that is up in its last session told, has the item's last version once the Commits
//! are applied that are pending there; and wherever it is read, none was missed. What a copier brings is never newer than what is pending.
//! No value of an item is in it. The functions do nothing: each is a law, and its contract says it.
#![tactic(auto)]

ghost use Rattle.std.specs.Prelude.{List};
ghost use Rattle.raid_workload.specs.declared.workload.Workload.{Workload};
ghost use Rattle.raid_message.specs.declared.letter.Pick.{Pick};
ghost use Rattle.raid_steps.specs.World.{run};
ghost use Rattle.raid_versions.specs.Versions.{HaveLastVersions};

/// Whatever steps were taken: a copy that isn't locked, at a site that is up in its last session told, has the item's last version once the Commits
/// are applied that stand on the link to it; wherever the copy is read on the way, none was missed; and what a copier brings is below all of them.
#[tactic(auto, using(crate::proofs::Runs::runs_last))]
pub fn live_copies_have_the_last_version()
    ensures { (w : Workload) (schedule : List Pick) → HaveLastVersions (run w schedule) }
{}
