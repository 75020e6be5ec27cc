ghost use Rattle.std.specs.Prelude.{count_by, ◌≡◌, ◌<◌, ◌+◌, ◌≤◌, [], ◌∷◌, ◌++◌, false, true, not, ◌&&◌, find, take, drop, length, vec_capacity, vec_len, slice_get, option_and_then, Some, OnOk, IfErr, IfSome};
ghost use Rattle.std.specs.List.{list_any};
ghost use Rattle.std.specs.Option.{option_map_or};
ghost use Rattle.raid_control.specs.Carried.{is_generic};
ghost use Rattle.raid_control.specs.Racked as words;

use crate::controller::Controller;
use raid_base::{Kind, Structure};
use std::alloc::Global;

/// A controller that is lent out: for `once`, or again and again.
#[derive(Drop)]
pub struct Slot {
    pub once: bool,
    pub control: Box<dyn Controller>,
}

/// Cleared controllers, to be taken for switches and given back. Each of them stands for the empty view; contracts say so of its slots
/// at each call, since no type can speak of what is in a box.
#[derive(Drop)]
pub struct Rack {
    pub slots: Vec<Slot>,
}

impl Rack {
    /// The empty rack.
    pub fn new(alloc: Global) -> Rack
        ensures { result.slots.items ≡ [] }
    {
        Rack {
            slots: Vec::new(alloc),
        }
    }

    /// Puts a slot behind the others. After want of memory the slot is handed back, and the rack is as it was.
    pub fn add(&mut self, slot: Slot) -> Result<(), Slot>
        ensures ok { OnOk result (self.new.slots.items ≡ self.old.slots.items ++ slot ∷ []) }
        ensures err { IfErr result (λ back. (back ≡ slot) × (self.new.slots.items ≡ self.old.slots.items)) }
    {
        match self.slots.push(slot) {
            Ok(()) => Ok(()),
            Err(failed) => Err(failed.value),
        }
    }

    /// Takes the first slot that serves: a native one of the kind, or for the generic structure any generic one, whose kind can be set.
    /// None exactly where no slot serves. The place stays reserved for [`give_back`](Rack::give_back). Takes no memory.
    pub fn take(&mut self, kind: Kind, structure: Structure) -> Option<Slot>
        ensures first { result ≡ find (λ s. words.serves kind structure (kind_of s.control) (structure_of s.control)) self.old.slots.items }
        ensures rest { self.new.slots.items ≡ words.without_first (λ s. words.serves kind structure (kind_of s.control) (structure_of s.control)) self.old.slots.items }
        ensures capacity { vec_capacity self.new.slots ≡ vec_capacity self.old.slots }
        ensures room { IfSome result (λ s. vec_len self.new.slots < vec_capacity self.new.slots) }
    {
        let place = place_of(&self.slots, kind, structure)?;
        Some(self.slots.remove(place))
    }

    /// Takes a slot back: one for `once` is dropped, any other is put behind the others, its controller cleared. There has to be a
    /// free place, as after [`take`](Rack::take). Takes no memory.
    pub fn give_back(&mut self, mut slot: Slot)
        requires room { vec_len self.old.slots < vec_capacity self.old.slots }
        ensures once { slot.once ≡ true → self.new.slots.items ≡ self.old.slots.items }
        ensures back { slot.once ≡ false → (s : _) × (self.new.slots.items ≡ self.old.slots.items ++ s ∷ []) × (s.once ≡ false) × (kind_of s.control ≡ kind_of slot.control) × (structure_of s.control ≡ structure_of slot.control) × stands s.control [] }
        ensures capacity { vec_capacity self.new.slots ≡ vec_capacity self.old.slots }
    {
        if slot.once {
            return;
        }
        slot.control.clear();
        self.slots.push_reserved(slot);
    }

    /// Whether there is a lasting slot of each native kind, and there are two lasting ones of the generic structure: enough for every
    /// workload, since a switch takes one slot while one is in force. Takes no memory.
    pub fn is_whole(&self) -> bool
        ensures { result ≡ words.is_whole (λ s. s.once) (λ s. kind_of s.control) (λ s. structure_of s.control) self.now.slots.items }
    {
        are_enough(&self.slots)
    }
}

/// Whether the slot is a lasting native one of the kind.
fn does_last(slot: &Slot, kind: Kind) -> bool
    ensures { result ≡ words.lasts (λ s. s.once) (λ s. kind_of s.control) (λ s. structure_of s.control) kind slot.now }
{
    !slot.once && does_serve(slot, kind, Structure::Native)
}

fn has_lasting(slots: &[Slot], kind: Kind) -> bool
    ensures { result ≡ list_any (words.lasts (λ s. s.once) (λ s. kind_of s.control) (λ s. structure_of s.control) kind) slots.now }
{
    for slot in slots {
        if does_last(slot, kind) {
            return true;
        }
    }
    false
}

/// Whether there is a lasting slot of each native kind.
fn has_natives(slots: &[Slot]) -> bool
    ensures { result ≡ words.has_natives (λ s. s.once) (λ s. kind_of s.control) (λ s. structure_of s.control) slots.now }
{
    if !has_lasting(slots, Kind::Lock) {
        return false;
    }
    if !has_lasting(slots, Kind::Stamp) {
        return false;
    }
    if !has_lasting(slots, Kind::Valid) {
        return false;
    }
    has_lasting(slots, Kind::Graph)
}

/// Whether the slots are enough for every workload.
fn are_enough(slots: &[Slot]) -> bool
    ensures { result ≡ words.is_whole (λ s. s.once) (λ s. kind_of s.control) (λ s. structure_of s.control) slots.now }
{
    if !has_natives(slots) {
        return false;
    }
    lasting_generic(slots) >= 2
}

/// Whether the slot is a lasting generic one.
fn does_serve_all(slot: &Slot) -> bool
    ensures { result ≡ (not slot.now.once && is_generic (structure_of slot.now.control)) }
{
    !slot.once && slot.control.structure() == Structure::GenericState
}

fn lasting_generic(slots: &[Slot]) -> usize
    ensures { result ≡ count_by (λ s. not s.once && is_generic (structure_of s.control)) slots.now }
{
    let mut count = 0;
    for slot in slots {
        if does_serve_all(slot) {
            count += 1;
        }
    }
    count
}

/// Whether the controller of the slot serves.
fn does_serve(slot: &Slot, kind: Kind, structure: Structure) -> bool
    ensures { result ≡ words.serves kind structure (kind_of slot.now.control) (structure_of slot.now.control) }
{
    match structure {
        Structure::Native => {
            slot.control.kind() == kind && slot.control.structure() == Structure::Native
        }
        Structure::GenericState => slot.control.structure() == Structure::GenericState,
    }
}

/// The place of the first slot that serves.
fn place_of(slots: &[Slot], kind: Kind, structure: Structure) -> Option<usize>
    ensures found { IfSome result (λ k. k < length slots.now) }
    ensures first { find (λ s. words.serves kind structure (kind_of s.control) (structure_of s.control)) slots.now ≡ option_and_then (slice_get slots.now) result }
    ensures rest { words.without_first (λ s. words.serves kind structure (kind_of s.control) (structure_of s.control)) slots.now ≡ option_map_or (λ k. take k slots.now ++ drop (k + 1) slots.now) result slots.now }
{
    for (k, slot) in slots.iter().enumerate() {
        if does_serve(slot, kind, structure) {
            return Some(k);
        }
    }
    None
}
