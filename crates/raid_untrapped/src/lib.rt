//! No transactions wait for one another alone.
//!
//! A request that can't be granted yet waits, and a new one is refused where it would wait for itself. So
//! whatever the sequencer places, no transactions wait for one another alone. Switches don't change that, though
//! a request may wait on through one to another kind, where the next, back to locking, is forced at once.
//! `specs/Trap` says who waits for whom. The functions do nothing: each is a law, and its contract says it.
#![tactic(auto)]

ghost use Rattle.std.specs.Prelude.{◌≡◌, true, List, [], None};
ghost use Rattle.raid_base.specs.declared.names.Txn.{Txn};
ghost use Rattle.raid_base.specs.declared.entry.Entry.{Entry};
ghost use Rattle.raid_workload.specs.declared.workload.Workload.{Workload};
ghost use Rattle.raid_rules.specs.History.{noted, is_running, is_waiting};
ghost use Rattle.raid_legal.specs.Seen.{running};
ghost use Rattle.raid_legal.specs.Forced.{forced};
ghost use Rattle.raid_placed.specs.Placed.{Placed};
ghost use Rattle.raid_untrapped.specs.Trap.{is_trap, waits_for, waits_on_reads, EndsFree};

/// After a placed history there is no trap of waits: no transactions, but none at all, each of which waits for one of them. So it is if one
/// waits for those whose reads block it under the controllers in force, and also if it waits for all that run and have read what it is to
/// write, past the cut.
#[tactic(auto, using(crate::proofs::Free::waits_trapless, crate::proofs::Free::reads_trapless))]
pub fn placed_have_no_trap()
    ensures waits { (w : Workload) (h : List Entry) → Placed w h → (ts : List Txn) → is_trap (waits_for w (noted h)) ts ≡ true → ts ≡ [] }
    ensures reads { (w : Workload) (h : List Entry) → Placed w h → (ts : List Txn) → is_trap (waits_on_reads w (noted h)) ts ≡ true → ts ≡ [] }
{}

/// Where nothing is forced, following who waits for whom leads from each waiting transaction to one that runs and doesn't wait.
#[tactic(auto, using(crate::proofs::Free::placed_ends_free))]
pub fn waits_end_at_one_that_goes_on()
    ensures { (w : Workload) (h : List Entry) → Placed w h → forced w (noted h) ≡ None → (t : Txn) → is_waiting (noted h) t ≡ true → EndsFree w (noted h) t }
{}

/// So where nothing is forced and each transaction that runs waits, none runs.
#[tactic(auto, using(crate::proofs::Free::all_wait_none))]
pub fn not_all_that_run_wait()
    ensures { (w : Workload) (h : List Entry) → Placed w h → forced w (noted h) ≡ None → ((t : Txn) → is_running (noted h) t ≡ true → is_waiting (noted h) t ≡ true) → running w (noted h) ≡ [] }
{}
