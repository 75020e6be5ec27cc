//! Slots of a rack that can serve: taken, and put back.

ghost use Rattle.std.specs.Prelude.{◌≡◌, ◌<◌, ◌≤◌, ◌+◌, List, [], false, vec_len, vec_capacity};
ghost use Rattle.raid_base.specs.declared.verdict.Kind.{Kind};
ghost use Rattle.raid_base.specs.declared.verdict.Structure.{Structure};
ghost use Rattle.raid_base.specs.declared.entry.Noted.{Noted};
ghost use Rattle.raid_control.specs.Carried.{is_generic};
ghost use Rattle.raid_force.specs.Lasting.{lasting, counts, AreClear};

use raid_base::{Kind, Structure};
use raid_control::{Controller, Rack, Slot};
use raid_switch::Control;

/// Takes the first slot that serves, which there is; its controller is of the wanted kind and structure. Takes no memory.
pub fn serve(rack: &mut Rack, kind: Kind, structure: Structure) -> (bool, Control)
    requires some { 0 < lasting ⟦<dyn Controller as Controller>⟧ rack.old.slots.items kind structure }
    requires clear { AreClear ⟦<dyn Controller as Controller>⟧ rack.old.slots.items }
    ensures kind { kind_of result.1 ≡ kind }
    ensures structure { structure_of result.1 ≡ structure }
    ensures empty { stands result.1 [] }
    ensures clear { AreClear ⟦<dyn Controller as Controller>⟧ rack.new.slots.items }
    ensures lasting { (k : Kind) (s : Structure) → lasting ⟦<dyn Controller as Controller>⟧ rack.old.slots.items k s ≡ lasting ⟦<dyn Controller as Controller>⟧ rack.new.slots.items k s + counts k s result.0 (kind_of result.1) (structure_of result.1) }
    ensures room { vec_len rack.new.slots + 1 ≡ vec_len rack.old.slots }
    ensures capacity { vec_capacity rack.new.slots ≡ vec_capacity rack.old.slots }
{
    match rack.take(kind, structure) {
        Some(slot) => (slot.once, of_kind(slot.control, kind)),
        None => unreachable!(),
    }
}

/// The controller with its verdicts of the kind: a generic one's is set, a native one's is that already.
fn of_kind(mut control: Control, kind: Kind) -> Control
    requires fits { is_generic (structure_of control) ≡ false → kind_of control ≡ kind }
    ensures kind { kind_of result ≡ kind }
    ensures structure { structure_of result ≡ structure_of control }
    ensures keeps { (view : List Noted) → stands control view → stands result view }
{
    control.set_kind(kind);
    control
}

/// Puts a slot back, cleared; one for `once` is dropped. Takes no memory.
pub fn give_back(rack: &mut Rack, once: bool, control: Control)
    requires room { vec_len rack.old.slots < vec_capacity rack.old.slots }
    requires clear { AreClear ⟦<dyn Controller as Controller>⟧ rack.old.slots.items }
    ensures clear { AreClear ⟦<dyn Controller as Controller>⟧ rack.new.slots.items }
    ensures lasting { (k : Kind) (s : Structure) → lasting ⟦<dyn Controller as Controller>⟧ rack.new.slots.items k s ≡ lasting ⟦<dyn Controller as Controller>⟧ rack.old.slots.items k s + counts k s once (kind_of control) (structure_of control) }
    ensures room { vec_len rack.new.slots ≤ vec_len rack.old.slots + 1 }
    ensures capacity { vec_capacity rack.new.slots ≡ vec_capacity rack.old.slots }
{
    rack.give_back(Slot { once, control });
}
