//! What a full rack lends.

use crate::{Controllers, full_rack};
use raid_base::{Kind, NoMemory, Structure};
use raid_control::{Controller, Rack};
use std::alloc::Global;
use std::test::Fail;

const KINDS: [Kind; 4] = [Kind::Lock, Kind::Stamp, Kind::Valid, Kind::Graph];

/// A rack of new controllers.
fn new_rack(alloc: Global) -> Result<Rack, NoMemory> {
    let made = Controllers::new(alloc)?;
    full_rack(
        alloc,
        made.lock,
        made.stamp,
        made.valid,
        made.graph,
        made.first,
        made.second,
    )
}

/// Takes a slot, which isn't given back: whether it was for once, and the kind of its controller.
fn taken(rack: &mut Rack, kind: Kind, structure: Structure) -> Option<(bool, Kind)> {
    let slot = rack.take(kind, structure)?;
    Some((slot.once, slot.control.kind()))
}

#[test]
fn a_full_rack_is_whole(rt: HostRuntime) -> Result<(), Fail> {
    let rack = new_rack(rt.alloc())?;
    assert!(rt; rack.is_whole());
    assert_eq!(rt; rack.slots.len(), 6);
    Ok(())
}

#[test]
fn each_kind_has_one_native_controller(rt: HostRuntime) -> Result<(), Fail> {
    let mut rack = new_rack(rt.alloc())?;
    for kind in KINDS {
        assert_eq!(rt;
            taken(&mut rack, kind, Structure::Native),
            Some((false, kind))
        );
        assert_eq!(rt; taken(&mut rack, kind, Structure::Native), None);
    }
    assert_eq!(rt; rack.slots.len(), 2);
    Ok(())
}

#[test]
fn two_controllers_serve_every_kind(rt: HostRuntime) -> Result<(), Fail> {
    for kind in KINDS {
        let mut rack = new_rack(rt.alloc())?;
        assert!(rt; taken(&mut rack, kind, Structure::GenericState).is_some());
        assert!(rt; taken(&mut rack, kind, Structure::GenericState).is_some());
        assert_eq!(rt; taken(&mut rack, kind, Structure::GenericState), None);
        assert_eq!(rt; rack.slots.len(), 4);
    }
    Ok(())
}
