//! Workloads with a switch added last.

ghost use Rattle.std.specs.Prelude.{◌≡◌, IsTrue, IfOk};
ghost use Rattle.raid_workload.specs.Rules.{is_method_for};
ghost use Rattle.raid_advise.specs.Added as words;

use raid_base::{Duplicate, Kind, Method, NoMemory, Structure};
use raid_workload::{Switch, Workload};
use std::alloc::Global;

/// The most switches that a workload has.
pub const MOST_SWITCHES: usize = 64;

/// The largest trigger.
pub const LARGEST_TRIGGER: u32 = 2000;

/// The workload with one switch more, the last one: to the kind, by the method, once `after` transactions
/// have ended. Want of memory is the only error.
pub fn with(
    alloc: Global,
    workload: &Workload,
    kind: Kind,
    method: Method,
    after: u32,
) -> Result<Workload, NoMemory>
    requires { IsTrue (words.may_be_added workload.now (words.switch kind method after)) }
    ensures { IfOk result (words.AddsSwitch workload.now (words.switch kind method after)) }
{
    let mut switches = workload.switches.copy(alloc)?;
    switches.push(Switch {
        kind,
        method,
        trigger: after,
    })?;
    let items = workload.items.copy(alloc)?;
    let events = workload.events.copy(alloc)?;
    let programs = workload.programs.copy(alloc)?;
    Ok(Workload {
        version: workload.version,
        restarts: workload.restarts,
        sites: workload.sites,
        together: workload.together,
        items,
        kind: workload.kind,
        structure: workload.structure,
        switches,
        events,
        programs,
    })
}

/// Whether the switch may be added last: the workload has fewer than 64; the kind isn't the one that they
/// lead to; the method is for the structure; and `after` is at least the last trigger and at most 2,000.
pub fn may_be_added(workload: &Workload, kind: Kind, method: Method, after: u32) -> bool
    ensures { result ≡ words.may_be_added workload.now (words.switch kind method after) }
{
    workload.switches.len() < MOST_SWITCHES
        && kind != last_kind(workload)
        && is_method_for(workload.structure, method)
        && last_trigger(workload) <= after
        && after <= LARGEST_TRIGGER
}

/// The kind that the last switch is to, the opening kind where there is none.
fn last_kind(workload: &Workload) -> Kind
    ensures { result ≡ words.last_kind workload.now }
{
    let mut kind = workload.kind;
    for switch in workload.switches.as_slice() {
        kind = switch.kind;
    }
    kind
}

/// The trigger of the last switch, 1 where there is none.
pub fn last_trigger(workload: &Workload) -> u32
    ensures { result ≡ words.last_trigger workload.now }
{
    let mut trigger = 1;
    for switch in workload.switches.as_slice() {
        trigger = switch.trigger;
    }
    trigger
}

/// Whether the method is for the structure.
fn is_method_for(structure: Structure, method: Method) -> bool
    ensures { result ≡ is_method_for structure method }
{
    !matches!((structure, method), (Structure::Native, Method::Generic))
}
