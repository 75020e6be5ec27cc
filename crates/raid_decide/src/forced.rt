//! The entries that may have to come next.

ghost use Rattle.std.specs.Prelude.{◌≡◌, ℕ, nat_le, false, not, ◌&&◌, List, [], ◌∷◌, Some, None, option_map, find, if◌then◌else◌, IfOk};
ghost use Rattle.std.specs.List.{list_any};
ghost use Rattle.raid_base.specs.declared.entry.Act.TheVariants as acts;
ghost use Rattle.raid_base.specs.declared.entry.Entry.TheVariants as entries;
ghost use Rattle.raid_base.specs.declared.entry.Noted.{Noted};
ghost use Rattle.raid_base.specs.declared.verdict.Kind.{Kind};
ghost use Rattle.raid_workload.specs.declared.workload.Workload.{Workload};
ghost use Rattle.raid_workload.specs.Parts as parts;
ghost use Rattle.raid_rules.specs.History as rules;
ghost use Rattle.raid_rules.specs.Sessions as sessions;
ghost use Rattle.raid_legal.specs.Seen as seen;
ghost use Rattle.raid_legal.specs.Seen.{running};
ghost use Rattle.raid_legal.specs.InForce.{InForce, in_force, controllers, is_joint, is_tied, end_due};
ghost use Rattle.raid_legal.specs.Forced as words;
ghost use Rattle.raid_conflict.specs.Live.{Stands};
ghost use Rattle.raid_placed.specs.Placed.{Placed};
ghost use Rattle.raid_decide.specs.Stand.{AreKept, AreOf, PartsStand, SwitchesStand};

use crate::homes::{are_all_up, home, is_up};
use crate::woken::woken;
use raid_base::{Act, Cause, Entry, NoMemory, Txn, TxnList, Vector};
use raid_conflict::Graph;
use raid_control::Controller;
use raid_faillock::FailLocks;
use raid_history::History;
use raid_switch::Eras;
use raid_waits::Waits;
use raid_workload::{Switch, Workload};
use std::alloc::Global;

/// The abort of a transaction that asked for nothing, where there is one to abort.
fn abort_of(found: Option<Txn>, cause: Cause) -> Option<Entry>
    ensures { result ≡ option_map (λ t. entries.Abort t cause acts.Nothing) found }
{
    match found {
        Some(txn) => Some(Entry::Abort {
            txn,
            cause,
            act: Act::Nothing,
        }),
        None => None,
    }
}

/// The first of the transactions whose home is down in the vector.
fn first_homeless(workload: &Workload, vector: Vector, running: &[Txn]) -> Option<Txn>
    ensures { result ≡ find (λ t. not (sessions.is_site_up vector (parts.home workload.now t))) running.now }
{
    for txn in running {
        if !is_up(vector, home(workload, *txn)) {
            return Some(*txn);
        }
    }
    None
}

/// The Abort of the least running transaction whose home is down, if there is one. Where all sites are up, none is looked for.
pub fn home_down(workload: &Workload, history: &History, vector: Vector) -> Option<Entry>
    ensures { Placed workload.now history.now → vector ≡ seen.vector workload.now (rules.noted history.now) → result ≡ words.home_down workload.now (rules.noted history.now) }
{
    if are_all_up(workload, vector) {
        return None;
    }
    let found = first_homeless(workload, vector, history.running().as_slice());
    abort_of(found, Cause::HomeDown)
}

/// The first of the transactions that still runs.
fn first_running(history: &History, off: &[Txn]) -> Option<Txn>
    ensures { result ≡ find (rules.is_running (rules.noted history.now)) off.now }
{
    for txn in off {
        if history.is_running(*txn) {
            return Some(*txn);
        }
    }
    None
}

/// The Abort of the least transaction that the last switch, of this number, aborts and that still runs, if there is one.
pub fn switch_off(history: &History, switches: u8, off: &TxnList) -> Option<Entry>
    ensures { (f : InForce) → switches ≡ f.switches → off.now ≡ f.off → result ≡ words.switch_off (rules.noted history.now) f }
{
    let found = first_running(history, off.as_slice());
    abort_of(found, Cause::SwitchOff(switches))
}

/// The SwitchOn of the switch with this number, where its trigger has come and one controller is in force.
fn come_on(next: Switch, number: u8, history: &History, joint: bool) -> Option<Entry>
    ensures { result ≡ (if nat_le next.trigger (rules.ends (rules.noted history.now)) && not joint then Some (entries.SwitchOn number next.kind next.method) else None) }
{
    if next.trigger <= history.ends() && !joint {
        Some(Entry::SwitchOn {
            switch: number,
            kind: next.kind,
            method: next.method,
        })
    } else {
        None
    }
}

/// The SwitchOn of the switch that follows so many, once its trigger has come, and not while two controllers are in force.
#[tactic(auto, using(crate::proofs::Rules::few_switches))]
pub fn switch_on(workload: &Workload, history: &History, switches: u8, joint: bool) -> Option<Entry>
    ensures { (f : InForce) → switches ≡ f.switches → joint ≡ is_joint f → result ≡ words.switch_on workload.now (rules.noted history.now) f }
{
    if switches as usize >= workload.switches.len() {
        return None;
    }
    let next = *workload.switches.get(switches as usize);
    come_on(next, switches + 1, history, joint)
}

/// The SwitchEnd of the last switch, of this number, where its end is due.
#[tactic(auto, using(crate::proofs::Coming::ends_on))]
pub fn switch_end(due: bool, switches: u8) -> Option<Entry>
    ensures { (w : Workload) (p : List Noted) (f : InForce) → due ≡ end_due w p → switches ≡ f.switches → result ≡ words.switch_end w p f }
{
    if due {
        Some(Entry::SwitchEnd { switch: switches })
    } else {
        None
    }
}

/// The end of a suffix-sufficient switch is due where no running transaction is tied to the time before its SwitchOn; where none is on,
/// no end is due.
#[tactic(auto, using(crate::proofs::Coming::due_where_none_is_tied, crate::proofs::Coming::none_due))]
pub fn ends_are_due_where_none_is_tied()
    ensures joint { (w : Workload) (p : List Noted) (c : Kind × ℕ) → (in_force w p).next ≡ Some c → end_due w p ≡ not (list_any (is_tied p c.1) (running w p)) }
    ensures alone { (w : Workload) (p : List Noted) → (in_force w p).next ≡ None → end_due w p ≡ false }
{}

/// Whether the end of the switch that is on is due, as the controllers and the graph tell; none is where one controller is in force.
fn is_end_due(history: &History, graph: &mut Graph, eras: &Eras) -> bool
    ensures due { (w : Workload) → AreOf ⟦<dyn Controller as Controller>⟧ w history.now eras.now → Stands graph.old (rules.noted history.now) → ((c : Kind × ℕ) → (in_force w (rules.noted history.now)).next ≡ Some c → eras.now.since ≡ c.1) → result ≡ end_due w (rules.noted history.now) }
    ensures stands { (view : List Noted) → Stands graph.old view → Stands graph.new view }
{
    if !eras.is_joint() {
        return false;
    }
    eras.end_due(graph, history.running(), history)
}

/// The entry that must come before any waiting request is answered, if there is one.
fn forced_first(
    workload: &Workload,
    history: &History,
    vector: Vector,
    graph: &mut Graph,
    eras: &Eras,
    off: &TxnList,
    switches: u8,
) -> Option<Entry>
    ensures answer { AreOf ⟦<dyn Controller as Controller>⟧ workload.now history.now eras.now → vector ≡ seen.vector workload.now (rules.noted history.now) → SwitchesStand workload.now history.now graph.old eras.now.since switches off.now → result ≡ words.earliest (words.home_down workload.now (rules.noted history.now) ∷ words.switch_off (rules.noted history.now) (in_force workload.now (rules.noted history.now)) ∷ words.switch_end workload.now (rules.noted history.now) (in_force workload.now (rules.noted history.now)) ∷ words.switch_on workload.now (rules.noted history.now) (in_force workload.now (rules.noted history.now)) ∷ []) }
    ensures stands { (view : List Noted) → Stands graph.old view → Stands graph.new view }
{
    let first = home_down(workload, history, vector);
    if first.is_some() {
        return first;
    }
    let second = switch_off(history, switches, off);
    if second.is_some() {
        return second;
    }
    let third = switch_end(is_end_due(history, graph, eras), switches);
    if third.is_some() {
        return third;
    }
    switch_on(workload, history, switches, eras.is_joint())
}

/// The entry that must come next, if one must: the first of the Abort of who has lost its home, the Abort of whom the last switch aborts,
/// the SwitchEnd, the SwitchOn, and the answer to the earliest request that needn't wait any more. The graph and the controllers stand for
/// what they stood for, after want of memory too, the only error. The history isn't searched.
pub fn forced(
    alloc: Global,
    workload: &Workload,
    history: &History,
    locks: &FailLocks,
    waits: &Waits,
    graph: &mut Graph,
    eras: &mut Eras,
    off: &TxnList,
    switches: u8,
) -> Result<Option<Entry>, NoMemory>
    requires stand { PartsStand ⟦<dyn Controller as Controller>⟧ workload.now history.now locks.now waits.now eras.old }
    requires switches { SwitchesStand workload.now history.now graph.old eras.old.since switches off.now }
    ensures answer { IfOk result (λ e. e ≡ words.forced workload.now (rules.noted history.now)) }
    ensures stands { (view : List Noted) → Stands graph.old view → Stands graph.new view }
    ensures keeps { AreKept ⟦<dyn Controller as Controller>⟧ eras.old eras.new }
{
    let first = forced_first(
        workload,
        history,
        locks.vector(),
        graph,
        eras,
        off,
        switches,
    );
    if first.is_some() {
        return Ok(first);
    }
    woken(alloc, workload, history, locks, waits, eras)
}
