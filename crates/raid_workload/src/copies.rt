use crate::name::Name;
use crate::workload::{Event, Homed, ItemLine, Switch, Workload};
use raid_base::{Duplicate, NoMemory};
use std::alloc::Global;

impl Duplicate for Name {
    fn copy(&self, alloc: Global) -> Result<Name, NoMemory> {
        Name::new(alloc, self.as_slice())
    }
}

impl Duplicate for ItemLine {
    fn copy(&self, alloc: Global) -> Result<ItemLine, NoMemory> {
        let name = self.name.copy(alloc)?;
        Ok(ItemLine {
            name,
            value: self.value,
            holders: self.holders,
        })
    }
}

impl Duplicate for Switch {
    fn copy(&self, _alloc: Global) -> Result<Switch, NoMemory> {
        Ok(*self)
    }
}

impl Duplicate for Event {
    fn copy(&self, _alloc: Global) -> Result<Event, NoMemory> {
        Ok(*self)
    }
}

impl Duplicate for Homed {
    fn copy(&self, alloc: Global) -> Result<Homed, NoMemory> {
        let program = self.program.copy(alloc)?;
        Ok(Homed {
            home: self.home,
            program,
        })
    }
}

impl Duplicate for Workload {
    fn copy(&self, alloc: Global) -> Result<Workload, NoMemory> {
        let items = self.items.copy(alloc)?;
        let switches = self.switches.copy(alloc)?;
        let events = self.events.copy(alloc)?;
        let programs = self.programs.copy(alloc)?;
        Ok(Workload {
            version: self.version,
            restarts: self.restarts,
            sites: self.sites,
            together: self.together,
            items,
            kind: self.kind,
            structure: self.structure,
            switches,
            events,
            programs,
        })
    }
}
