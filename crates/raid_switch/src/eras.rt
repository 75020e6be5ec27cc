ghost use Rattle.std.specs.Prelude.{◌≡◌, ℕ, ℤ, nat_lt, true, false, not, List, [], ◌∷◌, ◌++◌, All, Some, None, is_some, option_map, option_to_list, OnOk, OnErr, IfOk, IfErr};
ghost use Rattle.std.specs.Bool.{OnTrue, OnFalse};
ghost use Rattle.std.specs.List.{list_any};
ghost use Rattle.raid_base.specs.declared.names.Txn.{Txn};
ghost use Rattle.raid_base.specs.declared.names.Item.{Item};
ghost use Rattle.raid_base.specs.declared.entry.Noted.{Noted};
ghost use Rattle.raid_base.specs.declared.verdict.Kind.{Kind};
ghost use Rattle.raid_rules.specs.Verdicts.{asked, verdict_of};
ghost use Rattle.raid_rules.specs.History.{noted, stamp, has_ended};
ghost use Rattle.raid_legal.specs.InForce.{is_tied};
ghost use Rattle.raid_conflict.specs.Listed.{reaches_before};
ghost use Rattle.raid_conflict.specs.Live.{Stands};
ghost use Rattle.raid_rules.specs.Order.{IsInOrder, Fits, MayNote};
ghost use Rattle.raid_control.specs.Carried.{IsCarry, carried, is_generic};
ghost use Rattle.raid_switch.specs.Force.{Each, AreInForce, of_each, verdict_by, blocks_by, grown, without};

use raid_base::{Ask, Entry, Kind, NoMemory, Pairs, Txn, TxnList, Verdict, meet};
use raid_conflict::Graph;
use raid_control::{Blocks, Carry, Controller};
use raid_history::History;
use std::alloc::Global;
use std::mem;

/// A controller of whatever kind and structure.
pub type Control = Box<dyn Controller>;

/// The controllers in force: one, or two while a suffix-sufficient switch is on, the old one first.
///
/// The promises are made for whatever views the controllers stand for. Once [`note`](Eras::note) has found no memory the eras are
/// finished: each later call that can answer NoMemory answers it.
#[derive(Drop)]
pub struct Eras {
    first: Control,
    second: Option<Control>,
    // The number of the SwitchOn with which the second came; without a second it says nothing.
    since: u32,
    finished: bool,
}

/// Takes the entries of these transactions out.
fn take_out(carry: &mut Carry, off: &[Txn])
    ensures is { carry.new ≡ without off.now carry.old }
    ensures may { IsCarry carry.old → IsCarry carry.new }
{
    for txn in off {
        carry.without(*txn);
    }
}

/// What a controller carries, as it promises for each view that it stands for.
fn carry_of(alloc: Global, control: &Control) -> Result<Carry, NoMemory>
    ensures { IfOk result (λ c. (view : List Noted) → stands control.now view → c ≡ carried view) }
{
    control.carry(alloc)
}

/// What the old controller carries to the next one, without some transactions.
fn carry_without(alloc: Global, old: &Control, off: &TxnList) -> Result<Carry, NoMemory>
    ensures is { IfOk result (λ c. (view : List Noted) → stands old.now view → c ≡ without off.now (carried view)) }
    ensures may { IfOk result (λ c. (view : List Noted) → stands old.now view → IsInOrder view → IsCarry c) }
{
    let mut carry = carry_of(alloc, old)?;
    take_out(&mut carry, off.as_slice());
    Ok(carry)
}

/// The new controller, cleared before, with what it starts with after a conversion from the old one; or, after want of memory, as it
/// was.
fn loaded(
    alloc: Global,
    old: &Control,
    next: Control,
    off: &TxnList,
) -> Result<Control, (NoMemory, Control)>
    requires { stands next [] }
    ensures ok { IfOk result (λ c. (view : List Noted) → stands old.now view → IsInOrder view → stands c (without off.now (carried view))) }
    ensures kind { IfOk result (λ c. kind_of c ≡ kind_of next) }
    ensures structure { IfOk result (λ c. structure_of c ≡ structure_of next) }
    ensures clear { IfErr result (λ e. stands e.1 []) }
    ensures back_kind { IfErr result (λ e. kind_of e.1 ≡ kind_of next) }
    ensures back_structure { IfErr result (λ e. structure_of e.1 ≡ structure_of next) }
{
    let mut next = next;
    match carry_without(alloc, old, off) {
        Ok(carry) => match next.load(&carry) {
            Ok(()) => Ok(next),
            Err(error) => Err((error, next)),
        },
        Err(error) => Err((error, next)),
    }
}

/// What one controller says of an action, as it promises for each view that it stands for.
fn judge_one(control: &mut Control, ask: &Ask) -> Verdict
    ensures answers { (view : List Noted) → stands control.old view → Fits view (asked ask.now) → result ≡ verdict_of (kind_of control.old) view (asked ask.now) }
    ensures keeps { (view : List Noted) → stands control.old view → stands control.new view }
    ensures kind { kind_of control.new ≡ kind_of control.old }
    ensures structure { structure_of control.new ≡ structure_of control.old }
{
    control.judge(ask)
}

/// Tells one controller of an entry, as it promises for each view that it stands for.
fn note_one(control: &mut Control, at: u32, stamp: u32, entry: &Entry) -> Result<(), NoMemory>
    ensures ok { OnOk result ((view : List Noted) → stands control.old view → MayNote (kind_of control.old) view (record { at = at; stamp = stamp; entry = entry.now }) → stands control.new (view ++ record { at = at; stamp = stamp; entry = entry.now } ∷ [])) }
    ensures kind { kind_of control.new ≡ kind_of control.old }
    ensures structure { structure_of control.new ≡ structure_of control.old }
{
    control.note(at, stamp, entry)
}

/// Tells the second controller of an entry, where there is one.
fn note_second(
    second: &mut Option<Control>,
    at: u32,
    stamp: u32,
    entry: &Entry,
) -> Result<(), NoMemory>
    ensures ok { OnOk result ((cs : List (Kind × List Noted)) → Each kind_of stands (option_to_list second.old) cs → All (λ c. MayNote c.0 c.1 (record { at = at; stamp = stamp; entry = entry.now })) cs → Each kind_of stands (option_to_list second.new) (grown (record { at = at; stamp = stamp; entry = entry.now }) cs)) }
    ensures kind { option_map kind_of second.new ≡ option_map kind_of second.old }
    ensures structure { option_map structure_of second.new ≡ option_map structure_of second.old }
{
    match second.take() {
        Some(mut next) => {
            let noted = note_one(&mut next, at, stamp, entry);
            *second = Some(next);
            noted
        }
        None => Ok(()),
    }
}

/// Whether one of the transactions began before the entry with this number.
fn any_began_before(history: &History, running: &[Txn], before: u32) -> bool
    ensures { result ≡ list_any (λ t. nat_lt (stamp (noted history.now) t) before) running.now }
{
    running.iter().any(|txn| history.stamp(*txn) < before)
}

/// Whether conflicts lead from one of the transactions to one that did.
fn any_reaches_before(graph: &mut Graph, running: &[Txn], before: u32) -> bool
    ensures answer { (view : List Noted) → Stands graph.old view → All (λ t. has_ended view t ≡ false) running.now → result ≡ list_any (λ t. reaches_before view t before) running.now }
    ensures stands { (view : List Noted) → Stands graph.old view → Stands graph.new view }
{
    for txn in running {
        if graph.reaches_before(*txn, before) {
            return true;
        }
    }
    false
}

/// Whether one of the transactions ties a new controller to the time before the entry with this number. The graph is searched only
/// where none of them began before that entry itself.
#[tactic(auto, using(crate::proofs::Tied::tied_apart))]
fn any_tied(graph: &mut Graph, history: &History, running: &[Txn], before: u32) -> bool
    ensures answer { Stands graph.old (noted history.now) → All (λ t. has_ended (noted history.now) t ≡ false) running.now → result ≡ list_any (is_tied (noted history.now) before) running.now }
    ensures stands { (view : List Noted) → Stands graph.old view → Stands graph.new view }
{
    any_began_before(history, running, before) || any_reaches_before(graph, running, before)
}

impl Eras {
    /// One controller is in force.
    pub fn new(first: Control) -> Eras
        ensures first { result.first ≡ first }
        ensures alone { result.second ≡ None }
        ensures goes_on { result.finished ≡ false }
    {
        Eras {
            first,
            second: None,
            since: 0,
            finished: false,
        }
    }

    /// Whether two are in force.
    pub fn is_joint(&self) -> bool
        ensures { result ≡ is_some self.now.second }
    {
        self.second.is_some()
    }

    /// The kinds of the verdicts, the old controller's first.
    pub fn kinds(&self) -> (Kind, Option<Kind>)
        ensures { result ≡ of_each kind_of self.now.first self.now.second }
    {
        let second = match &self.second {
            Some(next) => Some(next.kind()),
            None => None,
        };
        (self.first.kind(), second)
    }

    /// The one controller, or the old one of two.
    pub fn old(&self) -> &Control
        ensures { result.now ≡ self.now.first }
    {
        &self.first
    }

    /// What the controllers say of an action: the meeting of their verdicts, over views that the ask fits. They stand for what they
    /// stood for. Takes no memory.
    pub fn judge(&mut self, ask: &Ask) -> Verdict
        ensures answers { (cs : List (Kind × List Noted)) → AreInForce kind_of stands self.old.first self.old.second cs → All (λ c. Fits c.1 (asked ask.now)) cs → result ≡ verdict_by cs (asked ask.now) }
        ensures keeps { (cs : List (Kind × List Noted)) → AreInForce kind_of stands self.old.first self.old.second cs → AreInForce kind_of stands self.new.first self.new.second cs }
        ensures kinds { of_each kind_of self.new.first self.new.second ≡ of_each kind_of self.old.first self.old.second }
        ensures structures { of_each structure_of self.new.first self.new.second ≡ of_each structure_of self.old.first self.old.second }
        ensures since { self.new.since ≡ self.old.since }
        ensures finished { self.new.finished ≡ self.old.finished }
    {
        let first = judge_one(&mut self.first, ask);
        match self.second.take() {
            Some(mut next) => {
                let second = judge_one(&mut next, ask);
                self.second = Some(next);
                meet(first, second)
            }
            None => first,
        }
    }

    /// Tells each controller of an entry, with its number and its transaction's stamp (0 where it has none). After Ok their views have
    /// it, where each view may have it noted. After want of memory the eras are finished, and nothing is said of the views.
    pub fn note(&mut self, at: u32, stamp: u32, entry: &Entry) -> Result<(), NoMemory>
        ensures ok { OnOk result ((cs : List (Kind × List Noted)) → AreInForce kind_of stands self.old.first self.old.second cs → All (λ c. MayNote c.0 c.1 (record { at = at; stamp = stamp; entry = entry.now })) cs → AreInForce kind_of stands self.new.first self.new.second (grown (record { at = at; stamp = stamp; entry = entry.now }) cs)) }
        ensures kinds { of_each kind_of self.new.first self.new.second ≡ of_each kind_of self.old.first self.old.second }
        ensures structures { of_each structure_of self.new.first self.new.second ≡ of_each structure_of self.old.first self.old.second }
        ensures since { self.new.since ≡ self.old.since }
        ensures refuses { OnOk result (self.old.finished ≡ false) }
        ensures finishes { OnErr result (self.new.finished ≡ true) }
        ensures goes_on { OnOk result (self.new.finished ≡ false) }
    {
        if self.finished {
            return Err(NoMemory);
        }
        // Taken back where each has noted it.
        self.finished = true;
        note_one(&mut self.first, at, stamp, entry)?;
        note_second(&mut self.second, at, stamp, entry)?;
        self.finished = false;
        Ok(())
    }

    /// Makes the verdicts those of another kind, over the same views. False exactly where the controller's structure is native; then
    /// nothing changes. Takes no memory.
    pub fn turn_generic(&mut self, kind: Kind) -> bool
        requires { self.old.second ≡ None }
        ensures answers { result ≡ is_generic (structure_of self.old.first) }
        ensures turned { OnTrue result ((k : Kind) (view : List Noted) → AreInForce kind_of stands self.old.first self.old.second ((k, view) ∷ []) → AreInForce kind_of stands self.new.first self.new.second ((kind, view) ∷ [])) }
        ensures unturned { OnFalse result ((cs : List (Kind × List Noted)) → AreInForce kind_of stands self.old.first self.old.second cs → AreInForce kind_of stands self.new.first self.new.second cs) }
        ensures kind { OnTrue result (kind_of self.new.first ≡ kind) }
        ensures same_kind { OnFalse result (kind_of self.new.first ≡ kind_of self.old.first) }
        ensures structure { structure_of self.new.first ≡ structure_of self.old.first }
        ensures alone { self.new.second ≡ None }
        ensures finished { self.new.finished ≡ self.old.finished }
    {
        self.first.set_kind(kind)
    }

    /// Puts a cleared controller in the place of the old one, which is handed back. It starts with what the old one carries from its
    /// view, where that is in order, without the entries of the transactions that the switch aborts. After want of memory the eras are
    /// as they were, and the new controller comes back as it was.
    pub fn turn_convert(
        &mut self,
        alloc: Global,
        next: Control,
        off: &TxnList,
    ) -> Result<Control, (NoMemory, Control)>
        requires alone { self.old.second ≡ None }
        requires clear { stands next [] }
        ensures old { IfOk result (λ c. c ≡ self.old.first) }
        ensures turned { OnOk result ((k : Kind) (view : List Noted) → AreInForce kind_of stands self.old.first self.old.second ((k, view) ∷ []) → IsInOrder view → AreInForce kind_of stands self.new.first self.new.second ((kind_of next, without off.now (carried view)) ∷ [])) }
        ensures kind { OnOk result (kind_of self.new.first ≡ kind_of next) }
        ensures structure { OnOk result (structure_of self.new.first ≡ structure_of next) }
        ensures same { OnErr result (self.new.first ≡ self.old.first) }
        ensures clear { IfErr result (λ e. stands e.1 []) }
        ensures back_kind { IfErr result (λ e. kind_of e.1 ≡ kind_of next) }
        ensures back_structure { IfErr result (λ e. structure_of e.1 ≡ structure_of next) }
        ensures alone { self.new.second ≡ None }
        ensures refuses { OnOk result (self.old.finished ≡ false) }
        ensures finished { self.new.finished ≡ self.old.finished }
    {
        if self.finished {
            return Err((NoMemory, next));
        }
        let next = loaded(alloc, &self.first, next, off)?;
        Ok(mem::replace(&mut self.first, next))
    }

    /// Puts a cleared controller beside the old one, with the SwitchOn of this number; both decide from now on. Takes no memory.
    pub fn turn_suffix(&mut self, next: Control, at: u32)
        requires alone { self.old.second ≡ None }
        requires clear { stands next [] }
        ensures turned { (k : Kind) (view : List Noted) → AreInForce kind_of stands self.old.first self.old.second ((k, view) ∷ []) → AreInForce kind_of stands self.new.first self.new.second ((k, view) ∷ (kind_of next, []) ∷ []) }
        ensures first { self.new.first ≡ self.old.first }
        ensures second { self.new.second ≡ Some next }
        ensures since { self.new.since ≡ at }
        ensures finished { self.new.finished ≡ self.old.finished }
    {
        self.second = Some(next);
        self.since = at;
    }

    /// Whether the switch is over, for whatever history the graph stands for: no running transaction began before its SwitchOn, or
    /// conflicts lead from it to one that did. The graph still stands for that history. Takes no memory.
    pub fn end_due(&self, graph: &mut Graph, running: &TxnList, history: &History) -> bool
        requires joint { is_some self.now.second ≡ true }
        ensures due { Stands graph.old (noted history.now) → All (λ t. has_ended (noted history.now) t ≡ false) running.now → result ≡ not (list_any (is_tied (noted history.now) self.now.since) running.now) }
        ensures stands { (view : List Noted) → Stands graph.old view → Stands graph.new view }
    {
        !any_tied(graph, history, running.as_slice(), self.since)
    }

    /// Lets the old controller of two go, and hands it back: the new one alone is in force. Takes no memory.
    pub fn end_suffix(&mut self) -> Control
        requires { is_some self.old.second ≡ true }
        ensures turned { (c d : Kind × List Noted) → AreInForce kind_of stands self.old.first self.old.second (c ∷ d ∷ []) → AreInForce kind_of stands self.new.first self.new.second (d ∷ []) }
        ensures old { result ≡ self.old.first }
        ensures first { self.old.second ≡ Some self.new.first }
        ensures alone { self.new.second ≡ None }
        ensures finished { self.new.finished ≡ self.old.finished }
    {
        match self.second.take() {
            Some(next) => mem::replace(&mut self.first, next),
            None => unreachable!(),
        }
    }

    /// The controllers as they are, given away.
    pub fn close(self) -> (Control, Option<Control>)
        ensures { result ≡ (self.first, self.second) }
    {
        (self.first, self.second)
    }
}

impl Blocks for Eras {
    ghost says = { λ e test. (cs : List (Kind × List Noted)) × AreInForce (λ b. (Controller-box b).kind_of b.value) (λ b view. (Controller-box b).stands b.value view) e.first e.second cs × ((u t : Txn) (writes : List (Item × ℤ)) → test u t writes ≡ blocks_by cs u t writes) };

    fn blocks(&self, reader: Txn, writer: Txn, writes: &Pairs) -> bool {
        self.first.blocks(reader, writer, writes)
            || match &self.second {
                Some(next) => next.blocks(reader, writer, writes),
                None => false,
            }
    }
}
