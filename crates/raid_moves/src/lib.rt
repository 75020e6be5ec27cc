//! A site's step in parts: what its letter does by itself, and then a chain of moves, each of one program.
//!
//! `specs/Moves` has them. What each row gives, and each move keeps, holds after the step (`step_keeps` in `proofs/Steps`): so a law on a site's
//! step needs no walk of its own over the step's definition. `specs/After` says what all programs have come to where a step goes through
//! them, which a chain of moves alone leaves open. The functions do nothing: each is a law, and its contract says it.
#![tactic(auto)]

ghost use Rattle.std.specs.Prelude.{◌≡◌, ℕ, map};
ghost use Rattle.raid_base.specs.declared.names.Site.{Site};
ghost use Rattle.raid_workload.specs.declared.workload.Workload.{Workload};
ghost use Rattle.raid_message.specs.declared.letter.Message.{Message};
ghost use Rattle.raid_message.specs.declared.letter.Message.TheVariants as letters;
ghost use Rattle.raid_message.specs.declared.letter.Letter.{Letter};
ghost use Rattle.raid_steps.specs.State.{Turn, SiteState};
ghost use Rattle.raid_steps.specs.Site.{hear_site};
ghost use Rattle.raid_moves.specs.Moves.{Ascend, Tells, Says, Moves, Reached};
ghost use Rattle.raid_moves.specs.After.{Leaves, lost, joined, committed, NoneIsReady, NoneNeeds};

/// Whatever letter a site hears, where the programs that run at it ascend by their transactions: its step is the letter's row and then moves,
/// each of which names the program that it concerns as it stands at that moment.
#[tactic(auto, using(crate::proofs::Steps::site_moves))]
pub fn sites_step_by_moves()
    ensures { (w : Workload) (state : SiteState) (from : ℕ) (letter : Letter) → Ascend state.running → Reached w state from letter (hear_site w state from letter) }
{}

/// Moves leave the site's number, whether it is up, its session, its vector and its copies: only the row may change these.
#[tactic(auto, using(crate::proofs::Left::moves_leave))]
pub fn moves_leave_what_rows_change()
    ensures { (w : Workload) (state : SiteState) (from : ℕ) (letter : Letter) (turn last : Turn SiteState) → Moves w state from letter turn last → Leaves turn.state last.state }
{}

/// Whatever letter a site hears that is meant for it and fits: after the step no program's commit is still to be asked for. Where the letter
/// says that a site is down, each program that runs has lost what it awaited of it; where it is up again, each awaits its vote where it has to.
#[tactic(auto, using(crate::proofs::Swept::none_ready_told, crate::proofs::Swept::fallen, crate::proofs::Swept::none_needs, crate::proofs::Swept::risen))]
pub fn steps_go_through_all_programs()
    ensures told { (w : Workload) (state : SiteState) (from : ℕ) (letter : Letter) (m : Message) → Tells w state from letter m → Ascend state.running → NoneIsReady (hear_site w state from letter).state }
    ensures said { (w : Workload) (state : SiteState) (from : ℕ) (letter : Letter) (k : ℕ) (m : Message) → Says w state from letter k m → Ascend state.running → NoneIsReady (hear_site w state from letter).state }
    ensures fallen { (w : Workload) (state : SiteState) (from : ℕ) (letter : Letter) (s : Site) → Tells w state from letter (letters.DownNote s) → Ascend state.running → (hear_site w state from letter).state.running ≡ map committed (map (lost s) state.running) }
    ensures needless { (w : Workload) (state : SiteState) (from : ℕ) (letter : Letter) (s : Site) → Tells w state from letter (letters.DownNote s) → Ascend state.running → NoneNeeds s (hear_site w state from letter).state }
    ensures risen { (w : Workload) (state : SiteState) (from : ℕ) (letter : Letter) (s : Site) (n : ℕ) → Tells w state from letter (letters.UpNote s n) → Ascend state.running → (hear_site w state from letter).state.running ≡ map committed (map (joined w s) state.running) }
{}
