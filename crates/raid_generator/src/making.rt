ghost use Rattle.std.specs.Prelude.{◌≡◌, ◌≤◌, IfOk};
ghost use Rattle.raid_generator.specs.Made as made;

use crate::items::items;
use crate::programs::programs;
use raid_base::{Kind, Listed, Method, NoMemory, Structure};
use raid_workload::{Switch, Switches, Workload};
use std::alloc::Global;

/// A switch once so many transactions have ended, but not before the first.
fn switch(kind: Kind, method: Method, trigger: u32) -> Switch
    ensures { result ≡ made.switch kind method trigger }
{
    Switch {
        kind,
        method,
        trigger: trigger.max(1),
    }
}

/// The three switches of a workload of so many programs.
fn switches(alloc: Global, count: u32) -> Result<Switches, NoMemory>
    requires { count ≤ 2000 }
    ensures { IfOk result (λ switches. switches ≡ made.switches_of count) }
{
    let mut switches = Listed::new(alloc);
    switches.push(switch(Kind::Valid, Method::Suffix, count / 4))?;
    switches.push(switch(Kind::Stamp, Method::Convert, count / 2))?;
    switches.push(switch(Kind::Lock, Method::Suffix, 3 * count / 4))?;
    Ok(switches)
}

/// The workload that a seed and a count of programs make: four sites that run eight transactions at once,
/// 1,024 items with two holders each, three switches, and `count` transfers between two items that the seed
/// chooses. Want of memory is the only error.
pub fn make(alloc: Global, seed: u32, count: u32) -> Result<Workload, NoMemory>
    requires some { 1 ≤ count }
    requires few { count ≤ 2000 }
    ensures { IfOk result (made.IsMade seed count) }
{
    let items = items(alloc)?;
    let switches = switches(alloc, count)?;
    let programs = programs(alloc, seed, count)?;
    Ok(Workload {
        version: 1,
        restarts: 0,
        sites: 4,
        together: 8,
        items,
        kind: Kind::Lock,
        structure: Structure::Native,
        switches,
        events: Listed::new(alloc),
        programs,
    })
}
