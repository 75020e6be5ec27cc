//! What the sequencer's steps leave of a placed history.

ghost use Rattle.std.specs.Prelude.{◌≡◌, ℕ, ◌+◌, ◌*◌, ◌<◌, ◌≤◌, List, [], length, Some, None};
ghost use Rattle.raid_base.specs.declared.entry.Entry.{Entry};
ghost use Rattle.raid_workload.specs.declared.workload.Workload.{Workload};
ghost use Rattle.raid_workload.specs.Parts.{txns};
ghost use Rattle.raid_rules.specs.History.{noted, add};
ghost use Rattle.raid_legal.specs.Forced.{forced};
ghost use Rattle.raid_message.specs.declared.letter.Letter.{Letter};
ghost use Rattle.raid_steps.specs.State.{Turn, Sequencer};
ghost use Rattle.raid_steps.specs.Sequencer.{so_far, place, settle, Settles, hear_sequencer};
ghost use Rattle.raid_placed.specs.Placed.{Placed, to_force};

/// Before the first letter the history is placed, and nothing is forced after it.
pub fn openings_are_placed()
    ensures placed { (w : Workload) → Placed w [] }
    ensures quiet { (w : Workload) → forced w (noted []) ≡ None }
{}

/// Each forced entry leaves fewer to be forced, and from the first there are no more than so many: so placing one after the other ends.
pub fn forced_entries_run_out()
    ensures falls { (w : Workload) (h : List Entry) (e : Entry) → Placed w h → forced w (noted h) ≡ Some e → to_force w (add (noted h) e) < to_force w (noted h) }
    ensures bound { (w : Workload) (h : List Entry) → Placed w h → to_force w (noted h) ≤ length (txns w) + 2 * length w.switches }
{}

/// Placing the forced entries leaves the history placed, leaves none out, and ends where none is forced.
pub fn settling_keeps_placed()
    ensures placed { (w : Workload) (turn : Turn Sequencer) → Placed w turn.state.history → Placed w (settle w turn).state.history }
    ensures all { (w : Workload) (turn : Turn Sequencer) → Placed w turn.state.history → Settles w turn (settle w turn) }
    ensures quiet { (w : Workload) (turn : Turn Sequencer) → Placed w turn.state.history → forced w (so_far (settle w turn)) ≡ None }
{}

/// Settling goes step by step: it is the turn itself where none is forced, and else what settles the turn with the forced entry placed. So
/// whatever turn is come to by placing forced entries until there is none is the settled one.
pub fn settling_goes_step_by_step()
    ensures done { (w : Workload) (turn : Turn Sequencer) → Placed w turn.state.history → forced w (so_far turn) ≡ None → settle w turn ≡ turn }
    ensures step { (w : Workload) (turn : Turn Sequencer) (e : Entry) → Placed w turn.state.history → forced w (so_far turn) ≡ Some e → settle w turn ≡ settle w (place w 0 turn e) }
    ensures one { (w : Workload) (turn last : Turn Sequencer) → Placed w turn.state.history → Settles w turn last → last ≡ settle w turn }
{}

/// Whatever letter the sequencer hears, of whatever server: its history stays placed, and nothing is forced after it.
pub fn hearing_keeps_placed()
    ensures placed { (w : Workload) (s : Sequencer) (from : ℕ) (letter : Letter) → Placed w s.history → forced w (noted s.history) ≡ None → Placed w (hear_sequencer w s from letter).state.history }
    ensures quiet { (w : Workload) (s : Sequencer) (from : ℕ) (letter : Letter) → Placed w s.history → forced w (noted s.history) ≡ None → forced w (so_far (hear_sequencer w s from letter)) ≡ None }
{}
