//! That programs stand where the answers lead that they got, in every run.
//!
//! `specs/Stands` says it of the programs that run at a site: what each has read is what it was answered, and what it is about is what its
//! run on these answers comes to. Whether the answers are the values of the last writers is said nowhere here. The functions do nothing:
//! each is a law, and its contract says it.
#![tactic(auto)]

ghost use Rattle.std.specs.Prelude.{ℕ, ◌+◌, List};
ghost use Rattle.std.specs.List.{AllByRecursion};
ghost use Rattle.raid_workload.specs.declared.workload.Workload.{Workload};
ghost use Rattle.raid_message.specs.declared.letter.Letter.{Letter};
ghost use Rattle.raid_message.specs.declared.letter.Pick.{Pick};
ghost use Rattle.raid_steps.specs.State.{SiteState};
ghost use Rattle.raid_steps.specs.Site.{hear_site};
ghost use Rattle.raid_steps.specs.World.{link, run};
ghost use Rattle.raid_stands.specs.Stands.{AreStanding, IsOfAnother};

/// Where the programs of a site stand where their answers lead, they do so after any letter that the site hears, as long as it isn't told of
/// itself that it is up again.
#[tactic(auto, using(crate::proofs::Sites::site_stands))]
pub fn sites_keep_programs_standing()
    ensures { (w : Workload) (state : SiteState) (from : ℕ) (letter : Letter) → IsOfAnother (state.site.0 + 1) letter.message → AreStanding w state → AreStanding w (hear_site w state from letter).state }
{}

/// Whatever steps were taken: no letter on its way tells a site of itself that it is up again.
#[tactic(auto, using(crate::proofs::Runs::runs_tell))]
pub fn sites_are_told_of_others()
    ensures { (w : Workload) (schedule : List Pick) (server from : ℕ) → AllByRecursion (λ (letter : Letter). IsOfAnother server letter.message) (link (run w schedule).links server from) }
{}

/// Whatever steps were taken: each program that runs at a site stands where its answers lead.
#[tactic(auto, using(crate::proofs::Runs::runs_stand))]
pub fn programs_stand_where_answers_lead()
    ensures { (w : Workload) (schedule : List Pick) → AllByRecursion (AreStanding w) (run w schedule).servers.sites }
{}
