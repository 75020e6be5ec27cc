//! The views of the controllers in force after a placed history, and how they grow.

ghost use Rattle.std.specs.Prelude.{◌≡◌, ℕ, ℤ, ◌+◌, true, false, List, [], ◌∷◌, ◌++◌, length, All, Some};
ghost use Rattle.raid_base.specs.declared.names.Txn.{Txn};
ghost use Rattle.raid_base.specs.Names.{has_txn};
ghost use Rattle.raid_base.specs.declared.names.Item.{Item};
ghost use Rattle.raid_base.specs.declared.entry.Entry.{Entry};
ghost use Rattle.raid_base.specs.declared.entry.Noted.{Noted};
ghost use Rattle.raid_base.specs.declared.entry.Entry.TheVariants.{SwitchOn, SwitchEnd};
ghost use Rattle.raid_base.specs.declared.verdict.Kind.{Kind};
ghost use Rattle.raid_base.specs.declared.verdict.Method.{Method};
ghost use Rattle.raid_workload.specs.declared.workload.Workload.{Workload};
ghost use Rattle.raid_rules.specs.History.{noted, add, next, stamp, has_ended, is_running};
ghost use Rattle.raid_rules.specs.Order.{IsInOrder, Fits, MayNote};
ghost use Rattle.raid_rules.specs.Verdicts.{reading, writing};
ghost use Rattle.raid_rules.specs.Views.{view_of, is_backward, abort_list};
ghost use Rattle.raid_legal.specs.Seen.{running};
ghost use Rattle.raid_legal.specs.InForce.{in_force, turn, is_joint, newer, controllers, off_list};
ghost use Rattle.raid_legal.specs.Forced.{forced};
ghost use Rattle.raid_conflict.specs.Listed.{Extends};
ghost use Rattle.raid_switch.specs.Force.{grown, turns_nothing};
ghost use Rattle.raid_placed.specs.Placed.{Placed, Placeable};
ghost use Rattle.raid_placed.specs.Turned.{older, turned};

/// The views of the controllers in force are in order.
pub fn placed_views_are_in_order()
    ensures { (w : Workload) (h : List Entry) → Placed w h → All (λ c. IsInOrder c.1) (controllers (in_force w (noted h)) (noted h)) }
{}

/// What a running transaction asks fits each of them.
pub fn asks_fit_placed_views()
    ensures read { (w : Workload) (h : List Entry) → Placed w h → (t : Txn) (x : Item) → is_running (noted h) t ≡ true → All (λ c. Fits c.1 (reading t (stamp (noted h) t) x)) (controllers (in_force w (noted h)) (noted h)) }
    ensures commit { (w : Workload) (h : List Entry) → Placed w h → (t : Txn) (writes : List (Item × ℤ)) → is_running (noted h) t ≡ true → All (λ c. Fits c.1 (writing t (stamp (noted h) t) writes)) (controllers (in_force w (noted h)) (noted h)) }
{}

/// Each controller in force may note an entry that may be placed, and so may the graph of the whole history: each controller has granted
/// it where it is an action.
pub fn controllers_may_note()
    ensures each { (w : Workload) (h : List Entry) (e : Entry) → Placed w h → Placeable w (noted h) e → All (λ c. MayNote c.0 c.1 (next (noted h) e)) (controllers (in_force w (noted h)) (noted h)) }
    ensures graph { (w : Workload) (h : List Entry) (e : Entry) → Placed w h → Placeable w (noted h) e → Extends (noted h) (next (noted h) e) }
{}

/// Each entry turns what is in force; one that is no switch's leaves in force what is, with each view grown by it.
pub fn views_grow()
    ensures turn { (w : Workload) (p : List Noted) (e : Entry) → in_force w (add p e) ≡ turn w p (in_force w p) (length p + 1) e }
    ensures same { (w : Workload) (p : List Noted) (e : Entry) → turns_nothing e ≡ true → in_force w (add p e) ≡ in_force w p }
    ensures grow { (w : Workload) (h : List Entry) (e : Entry) → Placed w h → turns_nothing e ≡ true → controllers (in_force w (add (noted h) e)) (add (noted h) e) ≡ grown (next (noted h) e) (controllers (in_force w (noted h)) (noted h)) }
{}

/// A forced SwitchEnd finds two controllers in force, and leaves the second one alone, with its view grown by the entry.
pub fn switch_ends_leave_the_new_one()
    ensures joint { (w : Workload) (h : List Entry) (k : ℕ) → Placed w h → forced w (noted h) ≡ Some (SwitchEnd k) → is_joint (in_force w (noted h)) ≡ true }
    ensures after { (w : Workload) (h : List Entry) (k : ℕ) → Placed w h → forced w (noted h) ≡ Some (SwitchEnd k) → controllers (in_force w (add (noted h) (SwitchEnd k))) (add (noted h) (SwitchEnd k)) ≡ grown (next (noted h) (SwitchEnd k)) (newer (noted h) (in_force w (noted h)).next) }
{}

/// A forced SwitchOn finds one controller in force, whose view it leaves in order, and makes of it what the method says.
pub fn switches_turn_the_old_one()
    ensures in_order { (w : Workload) (h : List Entry) (k : ℕ) (to : Kind) (method : Method) → Placed w h → forced w (noted h) ≡ Some (SwitchOn k to method) → IsInOrder ((older (in_force w (noted h)) (noted h)).1 ++ next (noted h) (SwitchOn k to method) ∷ []) }
    ensures alone { (w : Workload) (h : List Entry) (k : ℕ) (to : Kind) (method : Method) → Placed w h → forced w (noted h) ≡ Some (SwitchOn k to method) → controllers (in_force w (noted h)) (noted h) ≡ older (in_force w (noted h)) (noted h) ∷ [] }
    ensures after { (w : Workload) (h : List Entry) (k : ℕ) (to : Kind) (method : Method) → Placed w h → forced w (noted h) ≡ Some (SwitchOn k to method) → controllers (in_force w (add (noted h) (SwitchOn k to method))) (add (noted h) (SwitchOn k to method)) ≡ turned method to (off_list w (noted h) method to) (next (noted h) (SwitchOn k to method)) (older (in_force w (noted h)) (noted h)) }
{}

/// A running transaction that the last switch doesn't abort is backward over the view in force (the old one's, where there are two) exactly
/// where it is backward over the history.
pub fn placed_views_show_who_is_backward()
    ensures { (w : Workload) (h : List Entry) → Placed w h → (t : Txn) → is_running (noted h) t ≡ true → has_txn (in_force w (noted h)).off t ≡ false → is_backward (view_of (in_force w (noted h)).view (noted h)) t ≡ is_backward (noted h) t }
{}

/// So where a SwitchOn is forced, the old controller's view tells whom it aborts, before it has noted the entry and after.
pub fn old_views_show_whom_a_switch_aborts()
    ensures before { (w : Workload) (h : List Entry) (k : ℕ) (to : Kind) (method : Method) → Placed w h → forced w (noted h) ≡ Some (SwitchOn k to method) → abort_list method to (older (in_force w (noted h)) (noted h)).1 (running w (noted h)) ≡ off_list w (noted h) method to }
    ensures after { (w : Workload) (h : List Entry) (k : ℕ) (to : Kind) (method : Method) → Placed w h → forced w (noted h) ≡ Some (SwitchOn k to method) → abort_list method to ((older (in_force w (noted h)) (noted h)).1 ++ next (noted h) (SwitchOn k to method) ∷ []) (running w (noted h)) ≡ off_list w (noted h) method to }
{}

/// Nobody that runs has ended in the old controller's view, before it has noted a SwitchOn and after.
pub fn old_views_have_no_end_of_who_runs()
    ensures before { (w : Workload) (h : List Entry) → Placed w h → All (λ t. has_ended (older (in_force w (noted h)) (noted h)).1 t ≡ false) (running w (noted h)) }
    ensures after { (w : Workload) (h : List Entry) (k : ℕ) (to : Kind) (method : Method) → Placed w h → All (λ t. has_ended ((older (in_force w (noted h)) (noted h)).1 ++ next (noted h) (SwitchOn k to method) ∷ []) t ≡ false) (running w (noted h)) }
{}
