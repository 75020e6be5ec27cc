//! In every run each server may hear whatever letter it might take next, where the copies are told as they should be; and so runs end.
//!
//! `specs/Told` says how copies should be told. The functions do nothing: each is a law, and its contract says it.
#![tactic(auto)]

ghost use Rattle.std.specs.Prelude.{◌≡◌, ◌<◌, ◌+◌, ℕ, ℤ, true, List, ◌∷◌, length, Option, Some, slice_get};
ghost use Rattle.raid_base.specs.declared.names.Item.{Item};
ghost use Rattle.raid_base.specs.declared.names.Site.{Site};
ghost use Rattle.raid_base.specs.declared.names.Txn.{Txn};
ghost use Rattle.raid_workload.specs.declared.workload.Workload.{Workload};
ghost use Rattle.raid_rules.specs.History.{noted, has_begun};
ghost use Rattle.raid_message.specs.declared.letter.Letter.{Letter};
ghost use Rattle.raid_message.specs.declared.letter.Pick.{Pick};
ghost use Rattle.raid_steps.specs.State.{asking, Running, SiteState};
ghost use Rattle.raid_steps.specs.Programs.{running_of};
ghost use Rattle.raid_steps.specs.World.{link, pick, run, finds, is_schedule, rounds};
ghost use Rattle.raid_measure.specs.Measure.{measure};
ghost use Rattle.raid_ends.specs.Hearing.{AreReady};
ghost use Rattle.raid_ends.specs.Placing.{EachMay};
ghost use Rattle.raid_ends.specs.Ready.{Gives, Ready};
ghost use Rattle.raid_ready.specs.Told.{CopiesAreTold, tells_over};

/// Whatever steps were taken: each entry of the history is one that pays for what it sends. A site goes down, or comes up, no more often than the
/// workload stops it, or lets it return; a transaction ends once; and a Commit is applied at the up holders of what it writes.
#[tactic(auto, using(crate::proofs::Entries::run_may))]
pub fn entries_pay_for_what_they_send()
    ensures { (w : Workload) (schedule : List Pick) → EachMay w (run w schedule).servers.sequencer.history }
{}

/// Whatever steps were taken: a letter that the sequencer takes lowers the measure, where the copies are told as they should be.
#[tactic(auto, using(crate::proofs::Sequencer::run_lowers))]
pub fn picks_of_the_sequencer_lower_the_measure_in_runs()
    ensures { (w : Workload) (schedule : List Pick) → CopiesAreTold w (run w schedule) → (p : Pick) → p.server ≡ 1 → finds (run w schedule) p ≡ true → measure w (pick w (run w schedule) p) < measure w (run w schedule) }
{}

/// Whatever steps were taken: where a program that runs asks for an item, a value of it makes one answer more, and no more than a program may read.
pub fn values_make_answers()
    ensures { (w : Workload) (schedule : List Pick) (k : ℕ) (s : SiteState) → slice_get (run w schedule).servers.sites k ≡ Some s → (r : Running) (i : ℕ) (x : Item) (q : Option Site) (v : ℤ) → running_of s r.txn ≡ Some r → r.phase ≡ asking i x q → Gives w r x v }
{}

/// Whatever steps were taken: a transaction that a site is told to be over has begun.
#[tactic(auto, using(crate::proofs::Over::told_begun))]
pub fn transactions_told_to_be_over_have_begun()
    ensures { (w : Workload) (schedule : List Pick) (k : ℕ) (letter : Letter) (rest : List Letter) → link (run w schedule).links (k + 2) 1 ≡ letter ∷ rest → (t : Txn) → tells_over t letter.message ≡ true → has_begun (noted (run w schedule).servers.sequencer.history) t ≡ true }
{}

/// Whatever steps were taken: each site is ready for the front letter of each of its links. What begins in its step is a transaction of its own that
/// hasn't begun, and doesn't run.
pub fn sites_are_ready()
    ensures { (w : Workload) (schedule : List Pick) (k : ℕ) (s : SiteState) → slice_get (run w schedule).servers.sites k ≡ Some s → (from : ℕ) (letter : Letter) (rest : List Letter) → link (run w schedule).links (k + 2) from ≡ letter ∷ rest → Ready w (noted (run w schedule).servers.sequencer.history) s from letter }
{}

/// Whatever steps were taken: each server may hear the front letter of each of its links, where the copies are told as they should be.
#[tactic(auto, using(crate::proofs::Runs::run_ready))]
pub fn servers_are_ready_where_copies_are_told()
    ensures { (w : Workload) (schedule : List Pick) → CopiesAreTold w (run w schedule) → AreReady w (run w schedule) }
{}

/// Where the copies are told as they should be in all that a workload's runs come to, each of its schedules is shorter than the number of picks
/// that no run should come to.
#[tactic(auto, using(crate::proofs::Runs::run_ends))]
pub fn runs_end_where_copies_are_told()
    ensures { (w : Workload) → ((earlier : List Pick) → CopiesAreTold w (run w earlier)) → (schedule : List Pick) → is_schedule w schedule ≡ true → length schedule < rounds w }
{}
