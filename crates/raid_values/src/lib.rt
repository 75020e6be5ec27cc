//! That copies have the values of their commits, and that programs get the values that they have seen, in every run.
//!
//! `specs/Values` says the first: the value of a copy, or of one on its way to another site, is the one that the Commit with its version gave
//! the item; and at a live site, a copy that isn't locked has the item's last value and version, or gets them by the Applies on their way.
//! `specs/Gets` says the second: what is on its way to answer a program's ask is the value that the history has just before the Read. The
//! functions do nothing: each is a law, and its contract says it.
#![tactic(auto)]

ghost use Rattle.std.specs.Prelude.{◌≡◌, true, List};
ghost use Rattle.raid_workload.specs.declared.workload.Workload.{Workload};
ghost use Rattle.raid_message.specs.declared.letter.Pick.{Pick};
ghost use Rattle.raid_steps.specs.World.{run, is_idle};
ghost use Rattle.raid_values.specs.Values.{CopiesAreCommitted, CopiesBecomeCurrent, ToldCopiesAreCurrent};
ghost use Rattle.raid_values.specs.Gets.{ProgramsGetWhatTheySaw, GivesSeen};

/// Whatever steps were taken: each copy of each site, up or not, and each copy on its way from a site to another, has the value that the Commit
/// with its version gave the item, or the item's initial value at version 0.
#[tactic(auto, using(crate::proofs::Runs::runs_committed))]
pub fn copies_have_their_commits_values()
    ensures { (w : Workload) (schedule : List Pick) → CopiesAreCommitted w (run w schedule) }
{}

/// Whatever steps were taken: at a site that is up in its last session told, a copy that isn't locked has its item's last value and the
/// number of the Commit that wrote it, once the Applies are heard that are on their way to the site in that session.
pub fn live_copies_have_the_last_value()
    ensures { (w : Workload) (schedule : List Pick) → CopiesBecomeCurrent w (run w schedule) }
{}

/// Where no letter is left on any link: each copy told that may be read, at an up site and unlocked, has its item's final value and the number of
/// the Commit that wrote it.
#[tactic(auto, using(crate::proofs::Idle::idle_current))]
pub fn idle_copies_are_current()
    ensures { (w : Workload) (schedule : List Pick) → is_idle (run w schedule) ≡ true → ToldCopiesAreCurrent w (run w schedule) }
{}

/// Whatever steps were taken: where a program waits for an item, at a home that is up in its last session told, and its transaction isn't over, each
/// value on its way for its ask is the one that the transaction has seen, which is the item's just before the Read; and where a copy is still
/// to be read for it, the copy will then have that value. So the value that it is given is the one that it has seen.
pub fn programs_get_what_they_saw()
    ensures answers { (w : Workload) (schedule : List Pick) → ProgramsGetWhatTheySaw w (run w schedule) }
    ensures given { (w : Workload) (schedule : List Pick) → GivesSeen w (run w schedule) }
{}
