//! Laws on a site's step, whatever letter of whatever server it takes.

ghost use Rattle.std.specs.Prelude.{◌≡◌, ◌≤◌, ◌+◌, ℕ, true};
ghost use Rattle.raid_workload.specs.declared.workload.Workload.{Workload};
ghost use Rattle.raid_message.specs.declared.letter.Letter.{Letter};
ghost use Rattle.raid_steps.specs.State.{SiteState};
ghost use Rattle.raid_steps.specs.Site.{hear_site};
ghost use Rattle.raid_site.specs.Server.{asks_at_most};

/// In a step the largest number of asks of a site's programs rises by one at most.
#[tactic(auto, using(crate::proofs::Asking::asks_once))]
pub fn a_step_asks_once()
    ensures { (w : Workload) (s : SiteState) (from : ℕ) (letter : Letter) (n : ℕ) → asks_at_most n s.running ≡ true → asks_at_most (n + 1) (hear_site w s from letter).state.running ≡ true }
{}

/// In a step a site begins one session at most, and stays the site that it is.
#[tactic(auto, using(crate::proofs::Sessions::stays))]
pub fn a_step_begins_one_session()
    ensures session { (w : Workload) (s : SiteState) (from : ℕ) (letter : Letter) → (hear_site w s from letter).state.session ≤ s.session + 1 }
    ensures site { (w : Workload) (s : SiteState) (from : ℕ) (letter : Letter) → (hear_site w s from letter).state.site ≡ s.site }
{}
