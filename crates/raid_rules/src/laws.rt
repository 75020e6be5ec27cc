//! Laws of the definitions. Each is the contract of a function with an empty body, which proves it.

ghost use Rattle.std.specs.Prelude.{◌≡◌, ◌↔◌, ◌⊎◌, ℕ, ℤ, ◌+◌, ◌<◌, Bool, true, false, ◌&&◌, List, [], ◌∷◌, ◌++◌, All, Contains, length, map, slice_index_or, if◌then◌else◌};
ghost use Rattle.std.specs.List.{list_any};
ghost use Rattle.raid_base.specs.declared.names.Txn.{Txn};
ghost use Rattle.raid_base.specs.declared.names.Item.{Item};
ghost use Rattle.raid_base.specs.declared.entry.Entry.{Entry};
ghost use Rattle.raid_base.specs.declared.entry.Noted.{Noted};
ghost use Rattle.raid_base.specs.Names.{is_txn};
ghost use Rattle.raid_rules.specs.Entries.{is_abort_of};
ghost use Rattle.raid_rules.specs.History.{noted, add, has_committed, has_aborted};
ghost use Rattle.raid_rules.specs.Conflict.{Edge, Path, edges, leads, serial_order};
ghost use Rattle.raid_rules.specs.Committed.{CommittedEdge, IsSerialOrder};
ghost use Rattle.raid_rules.specs.Last.{Star, NewEdge, acts_by};
ghost use Rattle.raid_rules.specs.Order.{IsInOrder, IsWhole, Follows, RunsWith, Fits};
ghost use Rattle.raid_rules.specs.Verdicts.{reading, writing, is_held, is_blocked_by};
ghost use Rattle.raid_rules.specs.Views.{View, is_in, view_of, is_backward};

/// The computed edges are the edges.
#[tactic(auto, using(crate::proofs::Edges::edges_iff))]
pub fn edges_are_computed()
    ensures { (view : List Noted) (t u : Txn) → (list_any (λ e. is_txn t e.0 && is_txn u e.1) (edges view) ≡ true) ↔ Edge view t u }
{}

/// The computed test for a path answers true exactly where one leads from the one transaction to the other.
#[tactic(auto, using(crate::proofs::Edges::leads_iff))]
pub fn paths_are_computed()
    ensures { (view : List Noted) (t u : Txn) → (leads (edges view) t u ≡ true) ↔ Path (Edge view) t u }
{}

/// A last action adds edges to its own transaction only, one from each transaction with a clashing action
/// before it.
pub fn last_action_adds_edges()
    ensures { (view : List Noted) (n : Noted) (t : Txn) → acts_by t n.entry ≡ true → All (λ m. m.at < n.at) view → has_aborted view t ≡ false → (u v : Txn) → Edge (view ++ n ∷ []) u v ↔ (Edge view u v ⊎ ((v ≡ t) × NewEdge view n t u)) }
{}

/// A path after a last action was there before, or comes to its transaction by one of the new edges and goes
/// on by old ones.
#[tactic(auto, using(crate::proofs::Last::path_last))]
pub fn last_action_adds_paths()
    ensures { (view : List Noted) (n : Noted) (t : Txn) → acts_by t n.entry ≡ true → All (λ m. m.at < n.at) view → (a b : Txn) → Path (Edge (view ++ n ∷ [])) a b → Path (Edge view) a b ⊎ ((u : Txn) × Star (Edge view) a u × NewEdge view n t u × Star (Edge view) t b) }
{}

/// An entry that is neither a Read nor a Commit adds no edge.
#[tactic(auto, using(crate::proofs::Last::edge_none))]
pub fn other_entries_add_no_edge()
    ensures { (view : List Noted) (n : Noted) → ((w : Txn) → acts_by w n.entry ≡ false) → (u v : Txn) → Edge (view ++ n ∷ []) u v → Edge view u v }
{}

/// Only an Abort takes edges away.
#[tactic(auto, using(crate::proofs::Last::edge_stays))]
pub fn edges_stay()
    ensures { (view : List Noted) (n : Noted) → ((w : Txn) → is_abort_of w n.entry ≡ false) → (u v : Txn) → Edge view u v → Edge (view ++ n ∷ []) u v }
{}

/// Where there is no cycle, a last action closes one only through its own transaction.
#[tactic(auto, using(crate::proofs::Last::cycle_last))]
pub fn last_action_closes_cycles()
    ensures { (view : List Noted) (n : Noted) (t : Txn) → acts_by t n.entry ≡ true → All (λ m. m.at < n.at) view → ((a : Txn) → Path (Edge view) a a → ⊥) → (Path (Edge (view ++ n ∷ [])) t t → ⊥) → (a : Txn) → Path (Edge (view ++ n ∷ [])) a a → ⊥ }
{}

/// Where the committed transactions have no cycle, they have none after a last action whose transaction is on
/// no cycle then.
#[tactic(auto, using(crate::proofs::Last::committed_cycle_last))]
pub fn last_action_closes_committed_cycles()
    ensures { (view : List Noted) (n : Noted) (t : Txn) → acts_by t n.entry ≡ true → All (λ m. m.at < n.at) view → ((a : Txn) → Path (CommittedEdge view) a a → ⊥) → (Path (Edge (view ++ n ∷ [])) t t → ⊥) → (a : Txn) → Path (CommittedEdge (view ++ n ∷ [])) a a → ⊥ }
{}

/// No path leaves a transaction that has not committed and isn't backward.
#[tactic(auto, using(crate::proofs::Backward::no_path))]
pub fn nothing_leaves_unless_backward()
    ensures { (view : List Noted) (t : Txn) → has_committed view t ≡ false → is_backward view t ≡ false → (u : Txn) → Path (Edge view) t u → ⊥ }
{}

/// Where the committed transactions have no cycle, the serial order lists each of them, once and no other,
/// and each of their edges leads onward in it.
#[tactic(auto, using(crate::proofs::Listing::order_lists))]
pub fn order_lists_all()
    ensures { (p : List Noted) → ((t : Txn) → Path (CommittedEdge p) t t → ⊥) → IsSerialOrder p (serial_order p) }
{}

/// Where they have a cycle, the serial order is empty.
#[tactic(auto, using(crate::proofs::Listing::order_empty))]
pub fn order_is_empty()
    ensures { (p : List Noted) (t : Txn) → Path (CommittedEdge p) t t → serial_order p ≡ [] }
{}

/// A list in which each of them stands once, and each edge leads onward, shows that they have no cycle.
#[tactic(auto, using(crate::proofs::Listing::serial_acyclic))]
pub fn serial_order_bars_cycles()
    ensures { (p : List Noted) (order : List Txn) → IsSerialOrder p order → (t : Txn) → Path (CommittedEdge p) t t → ⊥ }
{}

/// A commit has to wait exactly where some reader blocks it.
#[tactic(auto, using(crate::proofs::Waits::held_iff_blocked))]
pub fn waits_where_blocked()
    ensures { (view : List Noted) (writer : Txn) (writes : List (Item × ℤ)) → (is_held view writer writes ≡ true) ↔ ((reader : Txn) × (is_blocked_by reader view writer writes ≡ true)) }
{}

/// Noting keeps the entries.
#[tactic(auto, using(crate::proofs::Places::noted_entries))]
pub fn noting_keeps_entries()
    ensures { (h : List Entry) → map (λ n. n.entry) (noted h) ≡ h }
{}

/// The number of an entry is its place, counted from 1.
#[tactic(auto, using(crate::proofs::Places::noted_number))]
pub fn numbers_are_places()
    ensures { (h : List Entry) (k : ℕ) (d : Noted) → k < length h → (slice_index_or (noted h) k d).at ≡ k + 1 }
{}

/// A history with one more entry, noted, is the noted history with that entry added.
#[tactic(auto, using(crate::proofs::Push::noted_push))]
pub fn noted_grows()
    ensures { (h : List Entry) (e : Entry) → noted (h ++ e ∷ []) ≡ add (noted h) e }
{}

/// In a view in order a number belongs to one entry.
pub fn one_entry_a_number()
    ensures { (view : List Noted) → IsInOrder view → (a b : Noted) → Contains view a → Contains view b → a.at ≡ b.at → a ≡ b }
{}

/// One more entry comes last in a view, or isn't in it.
#[tactic(auto, using(crate::proofs::ViewsOf::view_push))]
pub fn views_grow()
    ensures { (v : View) (p : List Noted) (n : Noted) → view_of v (p ++ n ∷ []) ≡ view_of v p ++ (if is_in v n then n ∷ [] else []) }
{}

/// A whole view in order stays so with an entry that follows.
#[tactic(auto, using(crate::proofs::Push::whole_push))]
pub fn order_is_kept()
    ensures in_order { (view : List Noted) (n : Noted) → IsInOrder view → IsWhole view → Follows view n → IsInOrder (view ++ n ∷ []) }
    ensures whole { (view : List Noted) (n : Noted) → IsWhole view → Follows view n → IsWhole (view ++ n ∷ []) }
{}

/// What a running transaction asks fits a whole view in order.
pub fn asks_fit()
    ensures read { (view : List Noted) (t : Txn) (stamp : ℕ) (x : Item) → IsInOrder view → IsWhole view → RunsWith view t stamp → Fits view (reading t stamp x) }
    ensures commit { (view : List Noted) (t : Txn) (stamp : ℕ) (writes : List (Item × ℤ)) → IsInOrder view → IsWhole view → RunsWith view t stamp → Fits view (writing t stamp writes) }
{}
