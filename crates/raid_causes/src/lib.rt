//! Why a run on threads is a schedule.
//!
//! On threads the servers take their letters as they find them, and nobody puts their steps in an order. What is known of such a run is what
//! each server did by itself, by the letters that it took, and that each link keeps order and loses nothing: `specs/Histories` says it of an end
//! world. The laws here are that any order of all the steps that agrees with their clocks is a schedule, and that it leads to that end. So
//! whatever holds of every schedule's run holds of it. The functions do nothing: each is a law, and its contract says it.
#![tactic(auto)]

ghost use Rattle.std.specs.Prelude.{◌≡◌, ℕ, ◌<◌, true, List, All, fold};
ghost use Rattle.raid_workload.specs.declared.workload.Workload.{Workload};
ghost use Rattle.raid_message.specs.declared.letter.Pick.{Pick};
ghost use Rattle.raid_merge.specs.Merged.{IsRising, IsMerge};
ghost use Rattle.raid_steps.specs.World.{World, open_world, run, is_schedule};
ghost use Rattle.raid_causes.specs.Histories.{History, Histories, Alone, hearing};
ghost use Rattle.raid_causes.specs.Limited.{hearing_within};
ghost use Rattle.raid_causes.specs.Order.{IsOrder};

/// Picks of all steps of the journals, each journal's in their order and with no clock below one before it, are a schedule, and its run ends
/// where the servers ended.
pub fn merged_runs_are_schedules()
    ensures { (w : Workload) (histories : ℕ → History) (end : World) (picks : List Pick) → Histories w (open_world w) histories end → IsOrder end.journals picks → (is_schedule w picks ≡ true) × (run w picks ≡ end) }
{}

/// In the journals of such an end each step's clock is larger than those before it, so that they can be merged.
pub fn journals_rise()
    ensures { (w : Workload) (histories : ℕ → History) (end : World) → Histories w (open_world w) histories end → All IsRising end.journals }
{}

/// What `merge` makes of the journals is a schedule, and its run ends where the servers ended.
pub fn merges_are_schedules()
    ensures { (w : Workload) (histories : ℕ → History) (end : World) (picks : List Pick) → Histories w (open_world w) histories end → IsMerge end.journals picks → (is_schedule w picks ≡ true) × (run w picks ≡ end) }
{}

/// So each such end is that of a schedule's run.
pub fn ends_are_reached()
    ensures { (w : Workload) (histories : ℕ → History) (end : World) → Histories w (open_world w) histories end → (picks : List Pick) × (is_schedule w picks ≡ true) × (run w picks ≡ end) }
{}

/// The other way, too: a schedule's run is one of servers by themselves. So the ends that are spoken of here are those that schedules lead to,
/// and no others.
pub fn runs_have_histories()
    ensures { (w : Workload) (picks : List Pick) → is_schedule w picks ≡ true → (histories : ℕ → History) × Histories w (open_world w) histories (run w picks) }
{}

/// Where clocks stay at a greatest value, a server that is below it in the end was always below it: its clocks are those without a limit.
pub fn clocks_below_the_limit_are_exact()
    ensures { (w : Workload) (limit server : ℕ) (history : History) (a : Alone) → (fold (hearing_within w limit server) a history).clock < limit → fold (hearing_within w limit server) a history ≡ fold (hearing w server) a history }
{}
