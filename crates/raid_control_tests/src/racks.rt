//! The rack, a carry without a transaction, and what a native and a generic controller say alike.

use crate::play::{numbers, play};
use raid_base::{Ask, Item, Kind, NoMemory, Structure, Txn, Verdict};
use raid_control::{Controller, Rack, Slot, judge_alike};
use raid_generic::GenericControl;
use raid_lock::LockControl;
use raid_valid::ValidControl;

/// Puts a controller that lasts behind the others. False where there was no memory.
fn put(rack: &mut Rack, control: Box<dyn Controller>) -> bool {
    rack.add(Slot {
        once: false,
        control,
    })
    .is_ok()
}

/// Whether a slot serves. It is given back.
fn serves(rack: &mut Rack, kind: Kind, structure: Structure) -> bool {
    let Some(slot) = rack.take(kind, structure) else {
        return false;
    };
    rack.give_back(slot);
    true
}

#[test]
fn a_slot_serves_its_kind_and_structure_alone(rt: HostRuntime) -> Result<(), NoMemory> {
    let alloc = rt.alloc();
    let mut rack = Rack::new(alloc);
    assert!(rt; !serves(&mut rack, Kind::Lock, Structure::Native));
    let locks = LockControl::new(alloc, 0, 0)?;
    assert!(rt; put(&mut rack, Box::new(alloc, locks)?));
    let generic = GenericControl::new(alloc, Kind::Stamp, 0, 0)?;
    assert!(rt; put(&mut rack, Box::new(alloc, generic)?));
    assert!(rt; serves(&mut rack, Kind::Lock, Structure::Native));
    // The generic one has the kind, but native is another structure.
    assert!(rt; !serves(&mut rack, Kind::Stamp, Structure::Native));
    assert!(rt; serves(&mut rack, Kind::Valid, Structure::GenericState));
    assert_eq!(rt; rack.slots.len(), 2);
    assert!(rt; !rack.is_whole());
    Ok(())
}

#[test]
fn a_transaction_is_taken_out_of_a_carry(rt: HostRuntime) -> Result<(), NoMemory> {
    let alloc = rt.alloc();
    let mut control = ValidControl::new(alloc, 0, 0)?;
    play(alloc, &mut control, 0, "b1 b2 r1x c2x b3 r3x")?;
    let mut carry = control.carry(alloc)?;
    assert_eq!(rt; numbers(alloc, &carry)?.as_slice(), [1, 3, 5, 6].as_slice());
    carry.without(Txn(1));
    assert_eq!(rt; numbers(alloc, &carry)?.as_slice(), [5, 6].as_slice());
    carry.without(Txn(3));
    assert!(rt; carry.is_empty());
    Ok(())
}

#[test]
fn a_native_and_a_generic_one_judge_alike(rt: HostRuntime) -> Result<(), NoMemory> {
    let mut native = LockControl::new(rt.alloc(), 0, 0)?;
    let mut generic = GenericControl::new(rt.alloc(), Kind::Lock, 0, 0)?;
    let ask = Ask::Read {
        txn: Txn(1),
        stamp: 1,
        item: Item(0),
    };
    let said = judge_alike(&mut native, &mut generic, &ask);
    assert_eq!(rt; said, (Verdict::Grant, Verdict::Grant));
    Ok(())
}
