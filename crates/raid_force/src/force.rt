ghost use Rattle.std.specs.Prelude.{◌≡◌, ℕ, length, IfOk, ◌+◌, ◌<◌, List, [], ◌∷◌, ◌++◌, All, None, true, false, OnOk, OnErr, is_some};
ghost use Rattle.raid_base.specs.declared.entry.Entry.TheVariants.{SwitchOn};
ghost use Rattle.raid_base.specs.declared.entry.Noted.{Noted};
ghost use Rattle.raid_base.specs.declared.verdict.Kind.{Kind};
ghost use Rattle.raid_base.specs.declared.verdict.Method.TheVariants.{Suffix};
ghost use Rattle.raid_base.specs.declared.verdict.Structure.{Structure};
ghost use Rattle.raid_base.specs.declared.verdict.Structure.TheVariants.{GenericState};
ghost use Rattle.raid_workload.specs.declared.workload.Workload.{Workload};
ghost use Rattle.raid_workload.specs.Rules.{is_method_for};
ghost use Rattle.raid_rules.specs.History.{noted, stamp_at};
ghost use Rattle.raid_rules.specs.Order.{IsInOrder, Fits, MayNote};
ghost use Rattle.raid_rules.specs.Verdicts.{asked};
ghost use Rattle.raid_legal.specs.InForce.{in_force, controllers, verdict, off_list};
ghost use Rattle.raid_placed.specs.Placed.{Placed, Placeable};
ghost use Rattle.raid_control.specs.Carried.{carried};
ghost use Rattle.raid_switch.specs.Force.{grown, verdict_by, without};
ghost use Rattle.raid_force.specs.Force.{AreRuling, Racked, InStep, Holds, in_all, put_on};
ghost use Rattle.raid_force.specs.Lasting.{lasting, AreClear, are_whole};

use crate::lend::{give_back, serve};
use raid_base::{Ask, Entry, Kind, Method, NoMemory, Structure, TxnList, Verdict};
use raid_control::{Controller, Rack};
use raid_history::History;
use raid_switch::{Eras, abort_list};
use raid_workload::Workload;
use std::alloc::Global;

/// The controllers in force, the rack that they come from and go back to, and whom the last switch aborts.
#[derive(Drop)]
pub struct Force {
    /// The controllers in force.
    pub eras: Eras,
    /// All others.
    pub rack: Rack,
    // Whether they are for once.
    first_once: bool,
    // Without a second it says nothing.
    second_once: bool,
    /// Whom the last switch aborts, ascending by number.
    pub off: TxnList,
    /// How many switches there were: the number of the last one, 0 before the first.
    pub switches: u8,
    // Memory was wanted.
    finished: bool,
}

impl Force {
    /// The force before the first entry: the opening controller is the first of the rack that serves. Takes no memory.
    pub fn new(alloc: Global, workload: &Workload, rack: Rack) -> Force
        requires whole { are_whole ⟦<dyn Controller as Controller>⟧ rack.slots.items ≡ true }
        requires clear { AreClear ⟦<dyn Controller as Controller>⟧ rack.slots.items }
        ensures holds { Holds ⟦<dyn Controller as Controller>⟧ workload.now result [] }
        ensures lasting { (k : Kind) (s : Structure) → in_all ⟦<dyn Controller as Controller>⟧ result k s ≡ lasting ⟦<dyn Controller as Controller>⟧ rack.slots.items k s }
        ensures goes_on { result.finished ≡ false }
    {
        let mut rack = rack;
        let (once, first) = serve(&mut rack, workload.kind, workload.structure);
        Force {
            eras: Eras::new(first),
            rack,
            first_once: once,
            second_once: false,
            off: TxnList::new(alloc),
            switches: 0,
            finished: false,
        }
    }

    /// Keeps the force in step with the entry that comes next in the history, with its number and its transaction's stamp (0 where it has
    /// none). After want of memory it is finished: each later call answers NoMemory. The controllers that last stay in any case.
    pub fn note(
        &mut self,
        alloc: Global,
        workload: &Workload,
        history: &History,
        at: u32,
        stamp: u32,
        entry: &Entry,
    ) -> Result<(), NoMemory>
        requires holds { Holds ⟦<dyn Controller as Controller>⟧ workload.now self.old (noted history.now) }
        requires placed { Placed workload.now history.now }
        requires placeable { Placeable workload.now (noted history.now) entry.now }
        requires number { at ≡ length history.now + 1 }
        requires stamp { stamp ≡ stamp_at (noted history.now) at entry.now }
        ensures holds { Holds ⟦<dyn Controller as Controller>⟧ workload.now self.new (noted (history.now ++ entry.now ∷ [])) }
        ensures lasting { (k : Kind) (s : Structure) → in_all ⟦<dyn Controller as Controller>⟧ self.new k s ≡ in_all ⟦<dyn Controller as Controller>⟧ self.old k s }
        ensures refuses { OnOk result (self.old.finished ≡ false) }
        ensures goes_on { OnOk result (self.new.finished ≡ false) }
        ensures finishes { OnErr result (self.new.finished ≡ true) }
    {
        if self.finished {
            return Err(NoMemory);
        }
        match self.place(alloc, workload, history, at, stamp, entry) {
            Ok(()) => Ok(()),
            Err(error) => {
                self.finished = true;
                Err(error)
            }
        }
    }

    /// What the controllers in force say of an action, as the rules have it for whatever prefix the force is in step with, where the action fits
    /// each of their views. Takes no memory.
    pub fn judge(&mut self, ask: &Ask) -> Verdict
        requires racked { (s : Structure) × Racked ⟦<dyn Controller as Controller>⟧ s self.old }
        ensures answers { (w : Workload) (p : List Noted) → InStep ⟦<dyn Controller as Controller>⟧ w self.old p → All (λ c. Fits c.1 (asked ask.now)) (controllers (in_force w p) p) → result ≡ verdict w p (asked ask.now) }
        ensures holds { (w : Workload) (p : List Noted) → Holds ⟦<dyn Controller as Controller>⟧ w self.old p → Holds ⟦<dyn Controller as Controller>⟧ w self.new p }
        ensures lasting { (k : Kind) (s : Structure) → in_all ⟦<dyn Controller as Controller>⟧ self.new k s ≡ in_all ⟦<dyn Controller as Controller>⟧ self.old k s }
        ensures finished { self.new.finished ≡ self.old.finished }
    {
        self.ask(ask)
    }

    /// Whether two controllers are in force.
    pub fn is_joint(&self) -> bool
        ensures { result ≡ is_some self.now.eras.second }
    {
        self.eras.is_joint()
    }

    /// The rack with all controllers back in it and cleared; but those for `once` that were taken are dropped. Takes no memory.
    pub fn close(self) -> Rack
        requires racked { (s : Structure) × Racked ⟦<dyn Controller as Controller>⟧ s self }
        ensures clear { AreClear ⟦<dyn Controller as Controller>⟧ result.slots.items }
        ensures whole { are_whole ⟦<dyn Controller as Controller>⟧ result.slots.items ≡ true }
        ensures lasting { (k : Kind) (s : Structure) → lasting ⟦<dyn Controller as Controller>⟧ result.slots.items k s ≡ in_all ⟦<dyn Controller as Controller>⟧ self k s }
    {
        self.gather()
    }

    /// Keeps a force that isn't finished in step.
    fn place(
        &mut self,
        alloc: Global,
        workload: &Workload,
        history: &History,
        at: u32,
        stamp: u32,
        entry: &Entry,
    ) -> Result<(), NoMemory>
        requires in_step { InStep ⟦<dyn Controller as Controller>⟧ workload.now self.old (noted history.now) }
        requires racked { Racked ⟦<dyn Controller as Controller>⟧ workload.now.structure self.old }
        requires placed { Placed workload.now history.now }
        requires placeable { Placeable workload.now (noted history.now) entry.now }
        requires number { at ≡ length history.now + 1 }
        requires stamp { stamp ≡ stamp_at (noted history.now) at entry.now }
        ensures ok { OnOk result (InStep ⟦<dyn Controller as Controller>⟧ workload.now self.new (noted (history.now ++ entry.now ∷ []))) }
        ensures racked { Racked ⟦<dyn Controller as Controller>⟧ workload.now.structure self.new }
        ensures lasting { (k : Kind) (s : Structure) → in_all ⟦<dyn Controller as Controller>⟧ self.new k s ≡ in_all ⟦<dyn Controller as Controller>⟧ self.old k s }
        ensures finished { self.new.finished ≡ self.old.finished }
    {
        match entry {
            Entry::SwitchOn {
                switch,
                kind,
                method,
            } => {
                let off = self.aborted(alloc, history, *kind, *method)?;
                self.tell(at, stamp, entry)?;
                self.turn(alloc, workload.structure, at, *kind, *method, &off)?;
                self.off = off;
                self.switches = *switch;
                Ok(())
            }
            Entry::SwitchEnd { .. } => {
                self.tell(at, stamp, entry)?;
                self.part();
                Ok(())
            }
            _ => self.tell(at, stamp, entry),
        }
    }

    /// Asks the controllers in force, as the eras promise.
    fn ask(&mut self, ask: &Ask) -> Verdict
        requires racked { (s : Structure) × Racked ⟦<dyn Controller as Controller>⟧ s self.old }
        ensures answers { (cs : List (Kind × List Noted)) → AreRuling ⟦<dyn Controller as Controller>⟧ self.old cs → All (λ c. Fits c.1 (asked ask.now)) cs → result ≡ verdict_by cs (asked ask.now) }
        ensures keeps { (cs : List (Kind × List Noted)) → AreRuling ⟦<dyn Controller as Controller>⟧ self.old cs → AreRuling ⟦<dyn Controller as Controller>⟧ self.new cs }
        ensures racked { (s : Structure) → Racked ⟦<dyn Controller as Controller>⟧ s self.old → Racked ⟦<dyn Controller as Controller>⟧ s self.new }
        ensures lasting { (k : Kind) (s : Structure) → in_all ⟦<dyn Controller as Controller>⟧ self.new k s ≡ in_all ⟦<dyn Controller as Controller>⟧ self.old k s }
        ensures since { self.new.eras.since ≡ self.old.eras.since }
        ensures rest { (self.new.off ≡ self.old.off) × (self.new.switches ≡ self.old.switches) × (self.new.finished ≡ self.old.finished) }
    {
        self.eras.judge(ask)
    }

    /// The rack with all controllers back in it.
    fn gather(self) -> Rack
        requires racked { (s : Structure) × Racked ⟦<dyn Controller as Controller>⟧ s self }
        ensures clear { AreClear ⟦<dyn Controller as Controller>⟧ result.slots.items }
        ensures lasting { (k : Kind) (s : Structure) → lasting ⟦<dyn Controller as Controller>⟧ result.slots.items k s ≡ in_all ⟦<dyn Controller as Controller>⟧ self k s }
    {
        let mut rack = self.rack;
        let (first, second) = self.eras.close();
        give_back(&mut rack, self.first_once, first);
        if let Some(second) = second {
            give_back(&mut rack, self.second_once, second);
        }
        rack
    }

    /// Whom a switch aborts that comes next in the history.
    fn aborted(
        &self,
        alloc: Global,
        history: &History,
        kind: Kind,
        method: Method,
    ) -> Result<TxnList, NoMemory>
        ensures { IfOk result (λ ts. (w : Workload) (k : ℕ) → Placed w history.now → Placeable w (noted history.now) (SwitchOn k kind method) → InStep ⟦<dyn Controller as Controller>⟧ w self.now (noted history.now) → ts ≡ off_list w (noted history.now) method kind) }
    {
        abort_list(alloc, method, kind, self.eras.old(), history.running())
    }

    /// Tells each controller in force of an entry, as the eras promise.
    //
    // The check takes no call of a method without a `requires` from one that has some, where both take the boxes; so this one asks for what each
    // caller knows.
    fn tell(&mut self, at: u32, stamp: u32, entry: &Entry) -> Result<(), NoMemory>
        requires racked { (s : Structure) × Racked ⟦<dyn Controller as Controller>⟧ s self.old }
        ensures ok { OnOk result ((cs : List (Kind × List Noted)) → AreRuling ⟦<dyn Controller as Controller>⟧ self.old cs → All (λ c. MayNote c.0 c.1 (record { at = at; stamp = stamp; entry = entry.now })) cs → AreRuling ⟦<dyn Controller as Controller>⟧ self.new (grown (record { at = at; stamp = stamp; entry = entry.now }) cs)) }
        ensures racked { (s : Structure) → Racked ⟦<dyn Controller as Controller>⟧ s self.old → Racked ⟦<dyn Controller as Controller>⟧ s self.new }
        ensures lasting { (k : Kind) (s : Structure) → in_all ⟦<dyn Controller as Controller>⟧ self.new k s ≡ in_all ⟦<dyn Controller as Controller>⟧ self.old k s }
        ensures alone { self.old.eras.second ≡ None → self.new.eras.second ≡ None }
        ensures since { self.new.eras.since ≡ self.old.eras.since }
        ensures rest { (self.new.off ≡ self.old.off) × (self.new.switches ≡ self.old.switches) × (self.new.finished ≡ self.old.finished) }
    {
        self.eras.note(at, stamp, entry)
    }

    /// Puts a controller from the rack, with what the old one carries, in its place; the old one goes back. After want of memory all is as it was, but
    /// for a controller for `once` that was taken.
    fn convert(
        &mut self,
        alloc: Global,
        kind: Kind,
        structure: Structure,
        off: &TxnList,
    ) -> Result<(), NoMemory>
        requires alone { self.old.eras.second ≡ None }
        requires some { 0 < lasting ⟦<dyn Controller as Controller>⟧ self.old.rack.slots.items kind structure }
        requires racked { Racked ⟦<dyn Controller as Controller>⟧ structure self.old }
        ensures ok { OnOk result ((k : Kind) (view : List Noted) → AreRuling ⟦<dyn Controller as Controller>⟧ self.old ((k, view) ∷ []) → IsInOrder view → AreRuling ⟦<dyn Controller as Controller>⟧ self.new ((kind, without off.now (carried view)) ∷ [])) }
        ensures racked { Racked ⟦<dyn Controller as Controller>⟧ structure self.new }
        ensures lasting { (k : Kind) (s : Structure) → in_all ⟦<dyn Controller as Controller>⟧ self.new k s ≡ in_all ⟦<dyn Controller as Controller>⟧ self.old k s }
        ensures rest { (self.new.off ≡ self.old.off) × (self.new.switches ≡ self.old.switches) × (self.new.finished ≡ self.old.finished) }
    {
        let (once, next) = serve(&mut self.rack, kind, structure);
        match self.eras.turn_convert(alloc, next, off) {
            Ok(old) => {
                give_back(&mut self.rack, self.first_once, old);
                self.first_once = once;
                Ok(())
            }
            Err((error, next)) => {
                give_back(&mut self.rack, once, next);
                Err(error)
            }
        }
    }

    /// Puts a controller from the rack beside the old one.
    fn join(&mut self, kind: Kind, structure: Structure, at: u32)
        requires alone { self.old.eras.second ≡ None }
        requires some { 0 < lasting ⟦<dyn Controller as Controller>⟧ self.old.rack.slots.items kind structure }
        requires racked { Racked ⟦<dyn Controller as Controller>⟧ structure self.old }
        ensures turned { (k : Kind) (view : List Noted) → AreRuling ⟦<dyn Controller as Controller>⟧ self.old ((k, view) ∷ []) → AreRuling ⟦<dyn Controller as Controller>⟧ self.new ((k, view) ∷ (kind, []) ∷ []) }
        ensures racked { Racked ⟦<dyn Controller as Controller>⟧ structure self.new }
        ensures lasting { (k : Kind) (s : Structure) → in_all ⟦<dyn Controller as Controller>⟧ self.new k s ≡ in_all ⟦<dyn Controller as Controller>⟧ self.old k s }
        ensures since { self.new.eras.since ≡ at }
        ensures rest { (self.new.off ≡ self.old.off) × (self.new.switches ≡ self.old.switches) × (self.new.finished ≡ self.old.finished) }
    {
        let (once, next) = serve(&mut self.rack, kind, structure);
        self.eras.turn_suffix(next, at);
        self.second_once = once;
    }

    /// Lets the old controller of two go back.
    fn part(&mut self)
        requires joint { is_some self.old.eras.second ≡ true }
        requires racked { (s : Structure) × Racked ⟦<dyn Controller as Controller>⟧ s self.old }
        ensures turned { (c d : Kind × List Noted) → AreRuling ⟦<dyn Controller as Controller>⟧ self.old (c ∷ d ∷ []) → AreRuling ⟦<dyn Controller as Controller>⟧ self.new (d ∷ []) }
        ensures racked { (s : Structure) → Racked ⟦<dyn Controller as Controller>⟧ s self.old → Racked ⟦<dyn Controller as Controller>⟧ s self.new }
        ensures lasting { (k : Kind) (s : Structure) → in_all ⟦<dyn Controller as Controller>⟧ self.new k s ≡ in_all ⟦<dyn Controller as Controller>⟧ self.old k s }
        ensures rest { (self.new.off ≡ self.old.off) × (self.new.switches ≡ self.old.switches) × (self.new.finished ≡ self.old.finished) }
    {
        let last = self.eras.end_suffix();
        give_back(&mut self.rack, self.first_once, last);
        self.first_once = self.second_once;
    }

    /// Lets the old controller, which has noted a SwitchOn, turn: its verdicts are of the other kind; or one from the rack takes its place; or
    /// one from the rack comes beside it.
    fn turn(
        &mut self,
        alloc: Global,
        structure: Structure,
        at: u32,
        kind: Kind,
        method: Method,
        off: &TxnList,
    ) -> Result<(), NoMemory>
        requires alone { self.old.eras.second ≡ None }
        requires some { 0 < lasting ⟦<dyn Controller as Controller>⟧ self.old.rack.slots.items kind structure }
        requires fits { is_method_for structure method ≡ true }
        requires racked { Racked ⟦<dyn Controller as Controller>⟧ structure self.old }
        ensures ok { OnOk result ((k : Kind) (view : List Noted) → AreRuling ⟦<dyn Controller as Controller>⟧ self.old ((k, view) ∷ []) → IsInOrder view → AreRuling ⟦<dyn Controller as Controller>⟧ self.new (put_on method kind off.now (k, view))) }
        ensures racked { Racked ⟦<dyn Controller as Controller>⟧ structure self.new }
        ensures lasting { (k : Kind) (s : Structure) → in_all ⟦<dyn Controller as Controller>⟧ self.new k s ≡ in_all ⟦<dyn Controller as Controller>⟧ self.old k s }
        ensures since { method ≡ Suffix → self.new.eras.since ≡ at }
        ensures rest { (self.new.off ≡ self.old.off) × (self.new.switches ≡ self.old.switches) × (self.new.finished ≡ self.old.finished) }
    {
        match method {
            Method::Generic => {
                self.set(kind);
                Ok(())
            }
            Method::Convert => self.convert(alloc, kind, structure, off),
            Method::Suffix => {
                self.join(kind, structure, at);
                Ok(())
            }
        }
    }

    /// Makes the verdicts of the one controller, a generic one, those of another kind.
    fn set(&mut self, kind: Kind)
        requires alone { self.old.eras.second ≡ None }
        requires racked { Racked ⟦<dyn Controller as Controller>⟧ GenericState self.old }
        ensures turned { (k : Kind) (view : List Noted) → AreRuling ⟦<dyn Controller as Controller>⟧ self.old ((k, view) ∷ []) → AreRuling ⟦<dyn Controller as Controller>⟧ self.new ((kind, view) ∷ []) }
        ensures racked { Racked ⟦<dyn Controller as Controller>⟧ GenericState self.new }
        ensures lasting { (k : Kind) (s : Structure) → in_all ⟦<dyn Controller as Controller>⟧ self.new k s ≡ in_all ⟦<dyn Controller as Controller>⟧ self.old k s }
        ensures rest { (self.new.off ≡ self.old.off) × (self.new.switches ≡ self.old.switches) × (self.new.finished ≡ self.old.finished) }
    {
        self.eras.turn_generic(kind);
    }
}
