//! That each read which was granted comes to the program that asked for it, in every run.
//!
//! `specs/Grants` says it: what was granted is to be read, or its value is brought, or the site that was to serve it has ended its session; and
//! where the history has that site down, its home hears of it, so that the program asks again. No value of an item is in it. The functions do
//! nothing: each is a law, and its contract says it.
#![tactic(auto)]

ghost use Rattle.std.specs.Prelude.{◌≡◌, true, List};
ghost use Rattle.raid_workload.specs.declared.workload.Workload.{Workload};
ghost use Rattle.raid_message.specs.declared.letter.Pick.{Pick};
ghost use Rattle.raid_steps.specs.World.{run, is_idle};
ghost use Rattle.raid_grants.specs.Grants.{GrantsCome, NoGrantIsAwaited};

/// Whatever steps were taken: at a home that is up in its last session told, where a program waits for an item, its transaction isn't over, its ask
/// was taken, and as many Reads of it were placed as it has asked: the last of them is on its way to be read, or its value is on its way to the home,
/// or the session of the site that was to read it has ended; and where the history has that site down, a note of it stands where the home knows
/// who serves.
#[tactic(auto, using(crate::proofs::Runs::runs_grant))]
pub fn granted_reads_are_on_their_way()
    ensures { (w : Workload) (schedule : List Pick) → GrantsCome w (run w schedule) }
{}

/// Where no letter is left on any link, no program at such a home waits for a read that was granted, unless its transaction is over.
#[tactic(auto, using(crate::proofs::Idle::idle_grants))]
pub fn idle_programs_wait_for_no_read()
    ensures { (w : Workload) (schedule : List Pick) → is_idle (run w schedule) ≡ true → NoGrantIsAwaited w (run w schedule) }
{}
