ghost use Rattle.std.specs.Prelude.{◌≡◌, true, false, [], ◌∷◌, ◌++◌, All, OnOk, IfOk};
ghost use Rattle.raid_base.specs.declared.verdict.Kind.TheVariants.{Lock, Stamp, Valid, Graph};
ghost use Rattle.raid_base.specs.declared.verdict.Structure.TheVariants.{Native, GenericState};
ghost use Rattle.raid_control.specs.Racked.{is_whole};

use raid_base::NoMemory;
use raid_control::{Controller, Rack, Slot};
use std::alloc::Global;

/// Puts a new controller, to be taken again and again, behind the others.
fn add(rack: &mut Rack, control: Box<dyn Controller>) -> Result<(), NoMemory>
    requires { stands control [] }
    ensures { OnOk result (rack.new.slots.items ≡ rack.old.slots.items ++ record { once = false; control = control } ∷ []) }
{
    match rack.add(Slot {
        once: false,
        control,
    }) {
        Ok(()) => Ok(()),
        Err(_) => Err(NoMemory),
    }
}

/// The rack with these new controllers, each to be taken again and again. It is enough for every workload. Want of memory is the only
/// error.
pub fn full_rack(
    alloc: Global,
    lock: Box<dyn Controller>,
    stamp: Box<dyn Controller>,
    valid: Box<dyn Controller>,
    graph: Box<dyn Controller>,
    first: Box<dyn Controller>,
    second: Box<dyn Controller>,
) -> Result<Rack, NoMemory>
    requires lock { (kind_of lock ≡ Lock) × (structure_of lock ≡ Native) × stands lock [] }
    requires stamp { (kind_of stamp ≡ Stamp) × (structure_of stamp ≡ Native) × stands stamp [] }
    requires valid { (kind_of valid ≡ Valid) × (structure_of valid ≡ Native) × stands valid [] }
    requires graph { (kind_of graph ≡ Graph) × (structure_of graph ≡ Native) × stands graph [] }
    requires first { (structure_of first ≡ GenericState) × stands first [] }
    requires second { (structure_of second ≡ GenericState) × stands second [] }
    ensures whole { IfOk result (λ r. is_whole (λ s. s.once) (λ s. kind_of s.control) (λ s. structure_of s.control) r.slots.items ≡ true) }
    ensures clear { IfOk result (λ r. All (λ s. stands s.control []) r.slots.items) }
{
    let mut rack = Rack::new(alloc);
    add(&mut rack, lock)?;
    add(&mut rack, stamp)?;
    add(&mut rack, valid)?;
    add(&mut rack, graph)?;
    add(&mut rack, first)?;
    add(&mut rack, second)?;
    Ok(rack)
}
