//! The placed histories: which they are, and that they are in order.

ghost use Rattle.std.specs.Prelude.{◌≡◌, ◌<◌, true, false, List, [], ◌∷◌, ◌++◌, ◌↔◌, AllPairs, Some};
ghost use Rattle.raid_base.specs.Names.{has_txn};
ghost use Rattle.raid_base.specs.declared.names.Txn.{Txn};
ghost use Rattle.raid_base.specs.declared.request.Request.{Request};
ghost use Rattle.raid_base.specs.declared.entry.Entry.{Entry};
ghost use Rattle.raid_base.specs.declared.entry.Entry.TheVariants.{Wait};
ghost use Rattle.raid_base.specs.declared.entry.Noted.{Noted};
ghost use Rattle.raid_workload.specs.declared.workload.Workload.{Workload};
ghost use Rattle.raid_workload.specs.Parts.{txns};
ghost use Rattle.raid_rules.specs.Entries.{named};
ghost use Rattle.raid_rules.specs.History.{noted, add, is_running, is_waiting, waiting};
ghost use Rattle.raid_rules.specs.Conflict.{Path, committed};
ghost use Rattle.raid_rules.specs.Committed.{AllOnce, CommittedEdge};
ghost use Rattle.raid_rules.specs.Order.{IsInOrder, IsWhole};
ghost use Rattle.raid_legal.specs.Seen.{running};
ghost use Rattle.raid_legal.specs.Legal.{Legal};
ghost use Rattle.raid_history.specs.Tables.{may_follow};
ghost use Rattle.raid_placed.specs.Placed.{Placed, Placeable, AreKnown};
ghost use Rattle.raid_placed.specs.Waiting.{turn_waiting};

/// A legal history is one that is placed.
#[tactic(auto, using(crate::proofs::Sent::legal_placed))]
pub fn legal_are_placed()
    ensures { (w : Workload) (h : List Entry) → Legal w h → Placed w h }
{}

/// A history with one more entry is placed exactly where the history is and the entry may be placed next.
#[tactic(auto, using(crate::proofs::Sent::placed_push))]
pub fn placed_push()
    ensures { (w : Workload) (h : List Entry) (e : Entry) → Placed w (h ++ e ∷ []) ↔ (Placed w h × Placeable w (noted h) e) }
{}

/// A placed history is in order, and each transaction that it names has its Begin in it.
#[tactic(auto, using(crate::proofs::Orderly::placed_in_order, crate::proofs::Orderly::placed_whole))]
pub fn placed_are_in_order()
    ensures in_order { (w : Workload) (h : List Entry) → Placed w h → IsInOrder (noted h) }
    ensures whole { (w : Workload) (h : List Entry) → Placed w h → IsWhole (noted h) }
{}

/// Its transactions are the workload's, so that those that run in it are the running ones of the workload.
pub fn placed_are_of_the_workload()
    ensures known { (w : Workload) (h : List Entry) → Placed w h → AreKnown w (noted h) }
    ensures running { (w : Workload) (h : List Entry) → Placed w h → (t : Txn) → has_txn (running w (noted h)) t ≡ is_running (noted h) t }
{}

/// An entry that may be placed may follow: a transaction begins once, and acts only while it is running.
#[tactic(auto, using(crate::proofs::Orderly::placeable_follows))]
pub fn placeable_may_follow()
    ensures { (w : Workload) (p : List Noted) (e : Entry) → Placeable w p e → may_follow p e ≡ true }
{}

/// Each transaction that an entry names which may be placed is of the workload.
pub fn placeable_names_are_known()
    ensures { (w : Workload) (h : List Entry) (e : Entry) (t : Txn) → Placed w h → Placeable w (noted h) e → named e ≡ Some t → has_txn (txns w) t ≡ true }
{}

/// A list of the transactions that run, ascending by number, is the list of the running ones.
pub fn running_lists_are_one()
    ensures { (w : Workload) (h : List Entry) (ts : List Txn) → Placed w h → ((t : Txn) → has_txn ts t ≡ is_running (noted h) t) → AllPairs (λ a b. a.0 < b.0) ts → ts ≡ running w (noted h) }
{}

/// A Wait adds a request to those that wait, and an end takes its transaction's away; only who doesn't wait begins to.
pub fn waiting_requests_turn()
    ensures turn { (w : Workload) (h : List Entry) (e : Entry) → Placed w h → Placeable w (noted h) e → waiting (add (noted h) e) ≡ turn_waiting (waiting (noted h)) e }
    ensures once { (w : Workload) (p : List Noted) (t : Txn) (request : Request) → Placeable w p (Wait t request) → is_waiting p t ≡ false }
{}

/// Nobody commits twice, and no committed transaction reaches itself along conflicts of committed ones: so a placed history has a serial order.
pub fn placed_are_serial()
    ensures once { (w : Workload) (h : List Entry) → Placed w h → AllOnce (committed (noted h)) }
    ensures acyclic { (w : Workload) (h : List Entry) → Placed w h → (t : Txn) → Path (CommittedEdge (noted h)) t t → ⊥ }
{}
