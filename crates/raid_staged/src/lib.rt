//! That what is to be applied is staged, and that what is staged is to be committed, in every run.
//!
//! `specs/Staged` says the first: a site that votes yes has staged its part, a commit is asked for and made to wait once all is staged, and
//! what a site is to apply is staged there. `specs/Agree` says the second: what is staged for a transaction at a site, or asked to be, is the
//! site's part of the writes that its program made, that a commit is asked for, and that are committed. Whether these are the right values is
//! said nowhere here. The functions do nothing: each is a law, and its contract says it.
#![tactic(auto)]

ghost use Rattle.std.specs.Prelude.{List};
ghost use Rattle.raid_workload.specs.declared.workload.Workload.{Workload};
ghost use Rattle.raid_message.specs.declared.letter.Pick.{Pick};
ghost use Rattle.raid_steps.specs.World.{run};
ghost use Rattle.raid_staged.specs.Staged.{StagedFirst};
ghost use Rattle.raid_staged.specs.Agree.{PartsAgree};

/// Whatever steps were taken: what a site voted yes for, what a commit is asked for or waits for, and what is to be applied at a site, is
/// staged at each site that it concerns, as long as the site stays in the session that is meant and the transaction isn't over.
pub fn what_is_to_be_applied_is_staged()
    ensures { (w : Workload) (schedule : List Pick) → StagedFirst w (run w schedule) }
{}

/// Whatever steps were taken: what is staged for a transaction, or asked to be, is each site's part of the writes with which its program is in
/// preparation, that a commit is asked for, that wait, or that are committed. While its program asks for an item nothing is staged for it.
pub fn what_is_staged_is_to_be_committed()
    ensures { (w : Workload) (schedule : List Pick) → PartsAgree w (run w schedule) }
{}
