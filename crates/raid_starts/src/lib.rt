//! That what may begin does: in every run, each transaction that hasn't begun waits for something that comes, until none is left.
//!
//! `specs/Starts` says what comes. No value of an item is in it. The functions do nothing: each is a law, and its contract says it.
#![tactic(auto)]

ghost use Rattle.std.specs.Prelude.{◌≡◌, true, List, []};
ghost use Rattle.std.specs.List.{list_all};
ghost use Rattle.raid_workload.specs.declared.workload.Workload.{Workload};
ghost use Rattle.raid_workload.specs.Parts.{txns};
ghost use Rattle.raid_rules.specs.History.{noted};
ghost use Rattle.raid_legal.specs.Seen.{running};
ghost use Rattle.raid_legal.specs.Switched.{is_served};
ghost use Rattle.raid_message.specs.declared.letter.Pick.{Pick};
ghost use Rattle.raid_steps.specs.World.{run, is_idle};
ghost use Rattle.raid_starts.specs.Starts.{FirstAttemptsCome, NextAttemptsCome, EndsCome};

/// Whatever steps were taken: at a site that the history has up in the site's own session, each first attempt that hasn't begun is at or behind
/// the site's next, or the Welcome that says so or its Begin is on its way. And as many programs run there as may, or the site has no next.
pub fn first_attempts_come()
    ensures { (w : Workload) (schedule : List Pick) → FirstAttemptsCome w (run w schedule) }
{}

/// Whatever steps were taken: where a later attempt is due, the history has its home up. Where that home is up in the session that the history has
/// and the attempt hasn't begun, the one before still runs there, and the Drop is on its way that lets it try again; or the Begin is on its way.
#[tactic(auto, using(crate::proofs::Runs::runs_next))]
pub fn next_attempts_come()
    ensures { (w : Workload) (schedule : List Pick) → NextAttemptsCome w (run w schedule) }
{}

/// Whatever steps were taken: at a site that the history has up in the site's own session, each program that runs and whose transaction is over
/// has its Done or its Drop on the way.
#[tactic(auto, using(crate::proofs::Runs::runs_end))]
pub fn ends_come()
    ensures { (w : Workload) (schedule : List Pick) → EndsCome w (run w schedule) }
{}

/// Where no letter is left on any link and nobody runs, each transaction has begun or needn't.
pub fn idle_runs_have_served_all()
    ensures { (w : Workload) (schedule : List Pick) → is_idle (run w schedule) ≡ true → running w (noted (run w schedule).servers.sequencer.history) ≡ [] → list_all (is_served w (noted (run w schedule).servers.sequencer.history)) (txns w) ≡ true }
{}
