ghost use Rattle.std.specs.Prelude.{[], IfOk};

use raid_base::{Kind, NoMemory};
use raid_control::Controller;
use raid_generic::GenericControl;
use raid_graph::GraphControl;
use raid_lock::LockControl;
use raid_stamp::StampControl;
use raid_valid::ValidControl;
use std::alloc::Global;

/// How many transactions a new controller has room for; it takes memory for more as they come.
const TRANSACTIONS: u32 = 64;

/// How many items.
const ITEMS: u32 = 16;

/// New controllers, enough for every workload: one of each native kind, and two that serve every kind, since a switch takes one while
/// one is in force. Each has a box of its own type.
#[derive(Drop)]
pub struct Controllers {
    pub lock: Box<LockControl>,
    pub stamp: Box<StampControl>,
    pub valid: Box<ValidControl>,
    pub graph: Box<GraphControl>,
    pub first: Box<GenericControl>,
    pub second: Box<GenericControl>,
}

impl Controllers {
    /// Each of them stands for the empty view. Want of memory is the only error.
    pub fn new(alloc: Global) -> Result<Controllers, NoMemory>
        ensures lock { IfOk result (λ c. ⟦<LockControl as Controller>⟧.stands c.lock.value []) }
        ensures stamp { IfOk result (λ c. ⟦<StampControl as Controller>⟧.stands c.stamp.value []) }
        ensures valid { IfOk result (λ c. ⟦<ValidControl as Controller>⟧.stands c.valid.value []) }
        ensures graph { IfOk result (λ c. ⟦<GraphControl as Controller>⟧.stands c.graph.value []) }
        ensures first { IfOk result (λ c. ⟦<GenericControl as Controller>⟧.stands c.first.value []) }
        ensures second { IfOk result (λ c. ⟦<GenericControl as Controller>⟧.stands c.second.value []) }
    {
        let lock = new_lock(alloc)?;
        let stamp = new_stamp(alloc)?;
        let valid = new_valid(alloc)?;
        let graph = new_graph(alloc)?;
        let first = new_generic(alloc)?;
        let second = new_generic(alloc)?;
        Ok(Controllers {
            lock,
            stamp,
            valid,
            graph,
            first,
            second,
        })
    }
}

fn new_lock(alloc: Global) -> Result<Box<LockControl>, NoMemory>
    ensures { IfOk result (λ c. ⟦<LockControl as Controller>⟧.stands c.value []) }
{
    let control = LockControl::new(alloc, TRANSACTIONS, ITEMS)?;
    Ok(Box::new(alloc, control)?)
}

fn new_stamp(alloc: Global) -> Result<Box<StampControl>, NoMemory>
    ensures { IfOk result (λ c. ⟦<StampControl as Controller>⟧.stands c.value []) }
{
    let control = StampControl::new(alloc, TRANSACTIONS, ITEMS)?;
    Ok(Box::new(alloc, control)?)
}

fn new_valid(alloc: Global) -> Result<Box<ValidControl>, NoMemory>
    ensures { IfOk result (λ c. ⟦<ValidControl as Controller>⟧.stands c.value []) }
{
    let control = ValidControl::new(alloc, TRANSACTIONS, ITEMS)?;
    Ok(Box::new(alloc, control)?)
}

fn new_graph(alloc: Global) -> Result<Box<GraphControl>, NoMemory>
    ensures { IfOk result (λ c. ⟦<GraphControl as Controller>⟧.stands c.value []) }
{
    let control = GraphControl::new(alloc, TRANSACTIONS, ITEMS)?;
    Ok(Box::new(alloc, control)?)
}

/// A controller that serves every kind. Its kind is set when it is taken.
fn new_generic(alloc: Global) -> Result<Box<GenericControl>, NoMemory>
    ensures { IfOk result (λ c. ⟦<GenericControl as Controller>⟧.stands c.value []) }
{
    let control = GenericControl::new(alloc, Kind::Lock, TRANSACTIONS, ITEMS)?;
    Ok(Box::new(alloc, control)?)
}
