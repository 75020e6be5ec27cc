//! That each vote that a program in preparation awaits comes, or can't come any more, in every run.
//!
//! `specs/Votes` says how: the letter that asks for it is on its way, or the letter that brings it, or the voter's session has ended. No value of an
//! item is in it. The functions do nothing: each is a law, and its contract says it.
#![tactic(auto)]

ghost use Rattle.std.specs.Prelude.{◌≡◌, true, List};
ghost use Rattle.raid_workload.specs.declared.workload.Workload.{Workload};
ghost use Rattle.raid_message.specs.declared.letter.Pick.{Pick};
ghost use Rattle.raid_steps.specs.World.{run, is_idle};
ghost use Rattle.raid_votes.specs.Votes.{VotesCome, NoneIsPreparing};

/// Whatever steps were taken: each program that is in preparation at its home awaits some vote, and each vote that it awaits is of a site that the
/// home's vector has up. The home's letter that asks for that vote is on its way, or the site's that brings it, or the session asked for has ended.
pub fn awaited_votes_are_on_their_way()
    ensures { (w : Workload) (schedule : List Pick) → VotesCome (run w schedule) }
{}

/// Where no letter is left on any link, no program of any site is in preparation.
#[tactic(auto, using(crate::proofs::Runs::idle_none))]
pub fn idle_programs_await_no_vote()
    ensures { (w : Workload) (schedule : List Pick) → is_idle (run w schedule) ≡ true → NoneIsPreparing (run w schedule) }
{}
