//! Each pick lowers the measure: that of the monitor whatever the world is, that of a site or of the sequencer where it may hear the letter.
//!
//! `specs/Ready` says what a site has to be like, `specs/Placing` what the sequencer may place. The functions do nothing: each is a law, and its
//! contract says it.
#![tactic(auto)]

ghost use Rattle.std.specs.Prelude.{◌≡◌, ◌<◌, ◌≤◌, ◌+◌, ℕ, true, List, ◌∷◌, length, Some, slice_get};
ghost use Rattle.raid_base.specs.declared.names.Item.{Item};
ghost use Rattle.raid_base.specs.declared.names.Txn.{Txn};
ghost use Rattle.raid_base.specs.Sites.{site};
ghost use Rattle.raid_program.specs.declared.program.Want.TheVariants.{Read};
ghost use Rattle.raid_program.specs.Run.{Answers, outcome_of};
ghost use Rattle.raid_workload.specs.declared.workload.Workload.{Workload};
ghost use Rattle.raid_workload.specs.Parts.{program};
ghost use Rattle.raid_rules.specs.History.{noted};
ghost use Rattle.raid_message.specs.declared.letter.Letter.{Letter};
ghost use Rattle.raid_message.specs.declared.letter.Pick.{Pick};
ghost use Rattle.raid_steps.specs.State.{SiteState};
ghost use Rattle.raid_steps.specs.World.{World, link, pick, run, finds, is_schedule, rounds};
ghost use Rattle.raid_measure.specs.Measure.{most_reads, measure};
ghost use Rattle.raid_ends.specs.Hearing.{AreReady};
ghost use Rattle.raid_ends.specs.Placing.{MayHear};
ghost use Rattle.raid_ends.specs.Ready.{Ready};

/// Whatever the world is: a letter that the monitor takes lowers the measure.
#[tactic(auto, using(crate::proofs::Monitor::monitor_lowers))]
pub fn picks_of_the_monitor_lower_the_measure()
    ensures { (w : Workload) (state : World) (p : Pick) → p.server ≡ 0 → finds state p ≡ true → measure w (pick w state p) < measure w state }
{}

/// A letter that a site takes lowers the measure, where the site is ready for it.
#[tactic(auto, using(crate::proofs::Sites::site_lowers))]
pub fn picks_of_sites_lower_the_measure()
    ensures { (w : Workload) (state : World) (k : ℕ) (s : SiteState) → slice_get state.servers.sites k ≡ Some s → s.site ≡ site (k + 1) → (p : Pick) → p.server ≡ k + 2 → ((letter : Letter) (rest : List Letter) → link state.links p.server p.from ≡ letter ∷ rest → Ready w (noted state.servers.sequencer.history) s p.from letter) → finds state p ≡ true → measure w (pick w state p) < measure w state }
{}

/// A letter that the sequencer takes lowers the measure, where it may hear it.
#[tactic(auto, using(crate::proofs::Sequencer::sequencer_lowers))]
pub fn picks_of_the_sequencer_lower_the_measure()
    ensures { (w : Workload) (state : World) (p : Pick) → p.server ≡ 1 → ((letter : Letter) (rest : List Letter) → link state.links p.server p.from ≡ letter ∷ rest → MayHear w state.servers.sequencer p.from letter) → finds state p ≡ true → measure w (pick w state p) < measure w state }
{}

/// Where each server may hear whatever letter it might take next, each pick that finds a letter lowers the measure.
#[tactic(auto, using(crate::proofs::Runs::pick_falls))]
pub fn picks_lower_the_measure()
    ensures { (w : Workload) (state : World) (p : Pick) → AreReady w state → finds state p ≡ true → measure w (pick w state p) < measure w state }
{}

/// Where that is so in all that a workload's runs come to, each of its schedules is shorter than the number of picks that no run should come to.
#[tactic(auto, using(crate::proofs::Runs::ends))]
pub fn runs_end_where_all_are_ready()
    ensures { (w : Workload) → ((earlier : List Pick) → AreReady w (run w earlier)) → (schedule : List Pick) → is_schedule w schedule ≡ true → length schedule < rounds w }
{}

/// Whatever steps were taken: no site runs more programs than may run at once.
#[tactic(auto, using(crate::proofs::Together::run_few))]
pub fn sites_run_no_more_than_may()
    ensures { (w : Workload) (schedule : List Pick) (k : ℕ) (s : SiteState) → slice_get (run w schedule).servers.sites k ≡ Some s → length s.running ≤ w.together }
{}

/// Whatever a program is answered: where it asks for an item, it has read fewer items than a program may.
#[tactic(auto, using(crate::proofs::Asking::few_reads))]
pub fn programs_that_ask_may_read_on()
    ensures { (w : Workload) (t : Txn) (a : Answers) (x : Item) → (outcome_of (program w t) a).end ≡ Read x → length (outcome_of (program w t) a).reads + 1 ≤ most_reads }
{}
