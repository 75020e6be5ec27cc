//! In each run, which programs run at a site, and what they have on its way to the sequencer.
//!
//! `specs/Own` says whose programs run at a site, `specs/Way` what is on its way from it. The functions do nothing: each is a law, and its
//! contract says it.
#![tactic(auto)]

ghost use Rattle.std.specs.Prelude.{◌≡◌, ℕ, true, List, Some, slice_get};
ghost use Rattle.raid_sessions.specs.Present.{last_told};
ghost use Rattle.raid_workload.specs.declared.workload.Workload.{Workload};
ghost use Rattle.raid_message.specs.declared.letter.Pick.{Pick};
ghost use Rattle.raid_steps.specs.State.{SiteState};
ghost use Rattle.raid_steps.specs.World.{run};
ghost use Rattle.raid_asks.specs.Own.{RunsOwn};
ghost use Rattle.raid_asks.specs.Way.{HaveBegun, WaitInTurn};

/// Whatever steps were taken: at each site run programs of the site's own transactions alone, attempts counted, and no transaction has two.
#[tactic(auto, using(crate::proofs::Reached::run_home))]
pub fn programs_run_at_their_homes()
    ensures { (w : Workload) (schedule : List Pick) (k : ℕ) (s : SiteState) → slice_get (run w schedule).servers.sites k ≡ Some s → RunsOwn w k s }
{}

/// Whatever steps were taken: of each program that runs at a site the history has the Begin, or else the Begin is on its way to the
/// sequencer, sent in the site's present session; never both.
#[tactic(auto, using(crate::proofs::Begins::run_begun))]
pub fn programs_that_run_have_begun()
    ensures { (w : Workload) (schedule : List Pick) (k : ℕ) (s : SiteState) → slice_get (run w schedule).servers.sites k ≡ Some s → HaveBegun (run w schedule) k s }
{}

/// Whatever steps were taken: the Begins on their way that a site sent in its session, where the site is up and the history has it in that
/// session, are of different transactions that haven't begun, and the first of them may begin. So a Begin that is taken is placed.
#[tactic(auto, using(crate::proofs::Begins::run_turn))]
pub fn begins_wait_in_turn()
    ensures { (w : Workload) (schedule : List Pick) (k : ℕ) (s : SiteState) → slice_get (run w schedule).servers.sites k ≡ Some s → s.up ≡ true → last_told (run w schedule) k ≡ s.session → WaitInTurn w (run w schedule) k s }
{}
