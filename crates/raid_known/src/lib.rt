//! What is told of a reached world: it names all copies that the workload has, and each item's final value.
//!
//! The functions do nothing: each is a law, and its contract says it.
#![tactic(auto)]

ghost use Rattle.std.specs.Prelude.{◌≡◌, ◌<◌, ◌+◌, ℕ, List, map};
ghost use Rattle.raid_workload.specs.declared.workload.Workload.{Workload};
ghost use Rattle.raid_workload.specs.Parts.{items};
ghost use Rattle.raid_known.specs.Rest.{Told};
ghost use Rattle.raid_message.specs.declared.letter.Letter.{Letter};
ghost use Rattle.raid_message.specs.declared.letter.Pick.{Pick};
ghost use Rattle.raid_report.specs.Known.{IsReportOf, place_of, places};
ghost use Rattle.raid_steps.specs.State.{Sequencer};
ghost use Rattle.raid_steps.specs.Sequencer.{hear_sequencer};
ghost use Rattle.raid_steps.specs.World.{run, report};

/// Whatever steps were taken: the report tells all copies of the workload and no others, by site, then item.
#[tactic(auto, using(crate::proofs::Copies::copies_told))]
pub fn reports_tell_all_copies()
    ensures { (w : Workload) (schedule : List Pick) → map place_of (report w (run w schedule).servers).copies ≡ places w }
{}

/// And the final value of each item of the workload, in order, and of no other.
pub fn reports_tell_all_finals()
    ensures { (w : Workload) (schedule : List Pick) → map (λ p. p.0) (report w (run w schedule).servers).finals ≡ items w }
{}

/// Whatever letter the sequencer hears, of whatever server of the workload: the entries that it places name only sites and items of the
/// workload, and each abort has an act that its cause has.
#[tactic(auto, using(crate::proofs::Hearing::hear_told))]
pub fn entries_say_what_there_is()
    ensures { (w : Workload) (s : Sequencer) (from : ℕ) (letter : Letter) → from < w.sites + 2 → Told w s.history → Told w (hear_sequencer w s from letter).state.history }
{}

/// Whatever steps were taken: the report is one of the workload, as whoever prints it asks. It names only what the workload has, and tells
/// all items and all copies in order.
#[tactic(auto, using(crate::proofs::Reached::report_known))]
pub fn reports_are_of_the_workload()
    ensures { (w : Workload) (schedule : List Pick) → IsReportOf w (report w (run w schedule).servers) }
{}
