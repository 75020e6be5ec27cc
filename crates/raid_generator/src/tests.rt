use crate::making::make;
use raid_base::{Item, Site, Sites};
use raid_program::{Statement, Term};
use raid_workload::Homed;
use std::test::Fail;

/// The items of a program's first two reads, and the amount that its test asks for.
fn choices(homed: &Homed) -> Option<(Item, Item, i64)> {
    if homed.program.len() != 5 {
        return None;
    }
    let Statement::Read { item: from, .. } = homed.program.get(0) else {
        return None;
    };
    let Statement::Read { item: to, .. } = homed.program.get(1) else {
        return None;
    };
    match homed.program.get(2) {
        Statement::StopIf { right, .. } => match right.first {
            Term::Value(amount) => Some((*from, *to, amount)),
            Term::Reg(_) => None,
        },
        _ => None,
    }
}

#[test]
fn seed_one_takes_47_from_item_136(rt: HostRuntime) -> Result<(), Fail> {
    let workload = make(rt.alloc(), 1, 1)?;
    assert_eq!(rt; workload.programs.len(), 1);
    for homed in workload.programs.as_slice() {
        assert_eq!(rt; homed.home, Site(1));
        assert_eq!(rt; choices(homed), Some((Item(136), Item(808), 47)));
    }
    Ok(())
}

#[test]
fn the_most_programs(rt: HostRuntime) -> Result<(), Fail> {
    let workload = make(rt.alloc(), 4_294_967_295, 2000)?;
    assert_eq!(rt; workload.programs.len(), 2000);
    assert_eq!(rt; workload.items.len(), 1024);
    let mut found = false;
    for line in workload.items.as_slice() {
        if line.name.as_slice() == b"i1023".as_slice() {
            found = true;
            assert_eq!(rt; line.holders, Sites::none().with(Site(4)).with(Site(1)));
        }
    }
    assert!(rt; found);
    let mut triggers = Vec::new(rt.alloc());
    for switch in workload.switches.as_slice() {
        triggers.push(switch.trigger)?;
    }
    assert_eq!(rt; triggers.as_slice(), [500, 1000, 1500].as_slice());
    Ok(())
}
