//! That every run is legal, and so serial.
//!
//! `specs/Tell` says what programs go by: their answers are what the history says that they have seen, and so is what is asked for them. From
//! this each entry of a run's history is one that a legal history may have there. The functions do nothing: each is a law, and its contract
//! says it.
#![tactic(auto)]

ghost use Rattle.std.specs.Prelude.{◌≡◌, ◌⊎◌, true, List, [], ◌∷◌, ◌++◌};
ghost use Rattle.raid_base.specs.declared.names.Txn.{Txn};
ghost use Rattle.raid_base.specs.declared.entry.Act.{Act};
ghost use Rattle.raid_base.specs.declared.entry.Cause.{Cause};
ghost use Rattle.raid_base.specs.declared.entry.Entry.{Entry};
ghost use Rattle.raid_base.specs.declared.entry.Entry.TheVariants.{Abort};
ghost use Rattle.raid_base.specs.declared.verdict.Kind.TheVariants.{Lock, Valid};
ghost use Rattle.raid_workload.specs.declared.workload.Workload.{Workload};
ghost use Rattle.raid_workload.specs.Parts.{home};
ghost use Rattle.raid_rules.specs.Conflict.{Edge, committed, serial_order};
ghost use Rattle.raid_rules.specs.History.{noted, is_running};
ghost use Rattle.raid_message.specs.declared.letter.Pick.{Pick};
ghost use Rattle.raid_steps.specs.World.{run, report, is_idle};
ghost use Rattle.raid_legal.specs.Seen.{is_up, is_restartable};
ghost use Rattle.raid_legal.specs.Legal.{Legal};
ghost use Rattle.raid_legal.specs.Serial.{Serial};
ghost use Rattle.raid_placed.specs.Placed.{Placed};
ghost use Rattle.raid_legal_runs.specs.Tell.{TellSeen};
ghost use Rattle.raid_legal_runs.specs.Truthful.{Truthful};

/// Whatever steps were taken: while a transaction isn't over, its program at a site that is up in its last session told was answered what the
/// history says that it has seen, but for the item that it asks for; and what is asked for it is what its program wants on that.
#[tactic(auto, using(crate::proofs::Laws::tell))]
pub fn programs_tell_what_they_have_seen()
    ensures { (w : Workload) (schedule : List Pick) → TellSeen w (run w schedule) }
{}

/// Whatever steps were taken: the history is legal.
#[tactic(auto, using(crate::proofs::Laws::legal))]
pub fn runs_are_legal()
    ensures { (w : Workload) (schedule : List Pick) → Legal w (report w (run w schedule).servers).entries }
{}

/// Whatever steps were taken: the programs of the committed transactions, run alone one after the other in the order told, make the commits
/// and leave the final values.
#[tactic(auto, using(crate::proofs::Laws::serial))]
pub fn runs_are_serial()
    ensures { (w : Workload) (schedule : List Pick) → Serial w (report w (run w schedule).servers) }
{}

/// Where no letter is left on any link: the report is truthful. What it lacks for being sound is that nothing is left to do.
pub fn idle_runs_are_truthful()
    ensures { (w : Workload) (schedule : List Pick) → is_idle (run w schedule) ≡ true → Truthful w (report w (run w schedule).servers) }
{}

/// An abort after which its transaction may be tried again is placed only while the transaction's home is up, whatever the sequencer hears.
#[tactic(auto, using(crate::proofs::Restarts::restart_home))]
pub fn restartable_aborts_come_while_homes_are_up()
    ensures { (w : Workload) (h : List Entry) (t : Txn) (cause : Cause) (act : Act) → Placed w (h ++ Abort t cause act ∷ []) → is_restartable cause ≡ true → is_up w (noted h) (home w t) ≡ true }
{}

/// Under locking alone, in a legal history, no running transaction has an edge to another: what it has read nobody has written since.
pub fn running_transactions_hold_their_locks()
    ensures { (w : Workload) (h : List Entry) → Legal w h → w.switches ≡ [] → w.kind ≡ Lock → (t u : Txn) → is_running (noted h) t ≡ true → Edge (noted h) t u → ⊥ }
{}

/// Without switches, under locking and under validation, the serial order of a legal history is the order of its Commits.
pub fn orders_are_those_of_the_commits()
    ensures { (w : Workload) (h : List Entry) → Legal w h → w.switches ≡ [] → (w.kind ≡ Lock) ⊎ (w.kind ≡ Valid) → serial_order (noted h) ≡ committed (noted h) }
{}
