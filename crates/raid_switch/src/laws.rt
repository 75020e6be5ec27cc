//! What switches do to the views of the controllers in force.

ghost use Rattle.std.specs.Prelude.{◌≡◌, ℕ, ℤ, true, List, [], ◌∷◌, ◌++◌, All, Some};
ghost use Rattle.raid_base.specs.declared.names.Txn.{Txn};
ghost use Rattle.raid_base.specs.declared.names.Item.{Item};
ghost use Rattle.raid_base.specs.declared.entry.Entry.{Entry};
ghost use Rattle.raid_base.specs.declared.entry.Entry.TheVariants.{SwitchOn, SwitchEnd};
ghost use Rattle.raid_base.specs.declared.entry.Noted.{Noted};
ghost use Rattle.raid_base.specs.declared.verdict.Kind.{Kind};
ghost use Rattle.raid_base.specs.declared.verdict.Method.{Method};
ghost use Rattle.raid_base.specs.declared.verdict.Method.TheVariants.{Generic, Convert, Suffix};
ghost use Rattle.raid_workload.specs.declared.workload.Workload.{Workload};
ghost use Rattle.raid_rules.specs.History.{noted, next, is_running};
ghost use Rattle.raid_rules.specs.Order.{is_seen, MayNote};
ghost use Rattle.raid_rules.specs.Verdicts.{Question};
ghost use Rattle.raid_rules.specs.Views.{view_of, abort_list};
ghost use Rattle.raid_legal.specs.Seen.{running};
ghost use Rattle.raid_legal.specs.InForce.{in_force, controllers, verdict, off_list, past};
ghost use Rattle.raid_legal.specs.Answers.{blocks};
ghost use Rattle.raid_legal.specs.Legal.{Legal};
ghost use Rattle.raid_control.specs.Carried.{carried};
ghost use Rattle.raid_switch.specs.Force.{verdict_by, blocks_by, grown, without, turns_nothing};

/// What the controllers in force after a history say together is the verdict of the rules, and whom they block is whom those say.
pub fn controllers_say_the_verdict()
    ensures verdict { (w : Workload) (p : List Noted) (q : Question) → verdict_by (controllers (in_force w p) p) q ≡ verdict w p q }
    ensures blocks { (w : Workload) (p : List Noted) (u t : Txn) (writes : List (Item × ℤ)) → blocks_by (controllers (in_force w p) p) u t writes ≡ blocks w p u t writes }
{}

/// An entry with which a legal history goes on may be noted after the view of each controller in force.
pub fn legal_entries_may_be_noted()
    ensures { (w : Workload) (h : List Entry) (e : Entry) → Legal w (h ++ e ∷ []) → All (λ c. MayNote c.0 c.1 (next (noted h) e)) (controllers (in_force w (noted h)) (noted h)) }
{}

/// An entry that turns no controller comes last in the view of each.
#[tactic(auto, using(crate::proofs::Turned::others_grow))]
pub fn other_entries_grow_the_views()
    ensures { (w : Workload) (h : List Entry) (e : Entry) → Legal w (h ++ e ∷ []) → turns_nothing e ≡ true → controllers (in_force w (noted (h ++ e ∷ []))) (noted (h ++ e ∷ [])) ≡ grown (next (noted h) e) (controllers (in_force w (noted h)) (noted h)) }
{}

/// A generic switch makes the kind another, over the view of the old controller.
#[tactic(auto, using(crate::proofs::Turned::generic_turns))]
pub fn generic_switches_keep_the_view()
    ensures { (w : Workload) (h : List Entry) (j : ℕ) (to : Kind) → Legal w (h ++ SwitchOn j to Generic ∷ []) → controllers (in_force w (noted (h ++ SwitchOn j to Generic ∷ []))) (noted (h ++ SwitchOn j to Generic ∷ [])) ≡ (to, view_of (in_force w (noted h)).view (noted (h ++ SwitchOn j to Generic ∷ []))) ∷ [] }
{}

/// A conversion gives the new controller just what the old one carries, without the entries of those that the switch aborts; so all that
/// it sees is of running transactions.
#[tactic(auto, using(crate::proofs::Turned::convert_turns, crate::proofs::Turned::convert_runs))]
pub fn conversions_carry_the_survivors()
    ensures view { (w : Workload) (h : List Entry) (j : ℕ) (to : Kind) → Legal w (h ++ SwitchOn j to Convert ∷ []) → controllers (in_force w (noted (h ++ SwitchOn j to Convert ∷ []))) (noted (h ++ SwitchOn j to Convert ∷ [])) ≡ (to, without (off_list w (noted h) Convert to) (carried (view_of (in_force w (noted h)).view (noted (h ++ SwitchOn j to Convert ∷ []))))) ∷ [] }
    ensures running { (w : Workload) (h : List Entry) (j : ℕ) (to : Kind) → Legal w (h ++ SwitchOn j to Convert ∷ []) → (t : Txn) → is_seen (view_of (in_force w (noted (h ++ SwitchOn j to Convert ∷ []))).view (noted (h ++ SwitchOn j to Convert ∷ []))) t ≡ true → is_running (noted (h ++ SwitchOn j to Convert ∷ [])) t ≡ true }
{}

/// A suffix-sufficient switch puts a new controller beside the old one, over the empty view at first.
#[tactic(auto, using(crate::proofs::Turned::suffix_turns))]
pub fn suffix_switches_start_empty()
    ensures { (w : Workload) (h : List Entry) (j : ℕ) (to : Kind) → Legal w (h ++ SwitchOn j to Suffix ∷ []) → controllers (in_force w (noted (h ++ SwitchOn j to Suffix ∷ []))) (noted (h ++ SwitchOn j to Suffix ∷ [])) ≡ ((in_force w (noted h)).kind, view_of (in_force w (noted h)).view (noted (h ++ SwitchOn j to Suffix ∷ []))) ∷ (to, []) ∷ [] }
{}

/// At the end of a suffix-sufficient switch the new controller goes on alone, over its view.
#[tactic(auto, using(crate::proofs::Turned::end_turns))]
pub fn ends_leave_the_new_controller()
    ensures { (w : Workload) (h : List Entry) (j : ℕ) (c : Kind × ℕ) → (in_force w (noted h)).next ≡ Some c → controllers (in_force w (noted (h ++ SwitchEnd j ∷ []))) (noted (h ++ SwitchEnd j ∷ [])) ≡ (c.0, view_of (past c.1) (noted (h ++ SwitchEnd j ∷ []))) ∷ [] }
{}

/// Where a switch comes on, those that are backward over the old controller's view are those that it aborts.
#[tactic(auto, using(crate::proofs::Turned::whom_aborted))]
pub fn views_show_whom_switches_abort()
    ensures { (w : Workload) (h : List Entry) (j : ℕ) (to : Kind) (method : Method) → Legal w (h ++ SwitchOn j to method ∷ []) → abort_list method to (view_of (in_force w (noted h)).view (noted h)) (running w (noted h)) ≡ off_list w (noted h) method to }
{}
