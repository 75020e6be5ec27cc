//! Advice: the switch that a history speaks for.

ghost use Rattle.std.specs.Prelude.{◌≡◌, ◌*◌, ◌<◌, ◌^◌, Ok};
ghost use Rattle.raid_advise.specs.Advice as words;

use crate::added::{LARGEST_TRIGGER, MOST_SWITCHES, last_trigger};
use crate::past::{Past, commits, costs, window};
use raid_base::{Entries, Kind, Method, NoMemory, Structure};
use raid_workload::Workload;
use std::alloc::Global;

/// What to do with a workload's switches.
#[derive(Clone, Copy, Debug, PartialEq, Eq)]
pub enum Advice {
    /// Leave them as they are.
    Keep,
    /// Add this one last: to the kind, by the method, once `after` transactions have ended, 1 to 2,000.
    Switch {
        kind: Kind,
        method: Method,
        after: u32,
    },
}

/// What a history of the workload speaks for, by its entries with the last so many ends, `last`. It takes no
/// memory today, so it answers without fail.
pub fn advise(
    _alloc: Global,
    workload: &Workload,
    entries: &Entries,
    last: u32,
) -> Result<Advice, NoMemory>
    ensures { result ≡ Ok (words.advice workload.now entries.now last) }
{
    let past = Past::of(workload.kind, entries.as_slice());
    let switches = workload.switches.len();
    if switches == MOST_SWITCHES || past.switches < switches {
        return Ok(Advice::Keep);
    }
    let seen = window(entries.as_slice(), past.ends, last);
    let to = better(past.kind, commits(seen), costs(past.kind, seen));
    Ok(advice_to(workload, past.ends, to))
}

/// The advice to go to a kind, if there is one, given the count of ends.
fn advice_to(workload: &Workload, ends: usize, to: Option<Kind>) -> Advice
    ensures { result ≡ words.advice_to workload.now ends to }
{
    match to {
        None => Advice::Keep,
        Some(kind) => Advice::Switch {
            kind,
            method: method_for(workload.structure),
            after: trigger(workload, ends),
        },
    }
}

/// The kind to go to from this one, given the counts of Commits and of what the kind costs.
fn better(kind: Kind, commits: usize, costs: usize) -> Option<Kind>
    requires { 2 * costs < 2 ^ 64 }
    ensures { result ≡ words.better kind commits costs }
{
    match kind {
        Kind::Lock if costs > commits => Some(Kind::Stamp),
        Kind::Lock if costs == 0 && commits > 0 => Some(Kind::Valid),
        Kind::Stamp if 2 * costs > commits => Some(Kind::Lock),
        Kind::Valid if 2 * costs > commits => Some(Kind::Lock),
        Kind::Graph if 2 * costs > commits => Some(Kind::Stamp),
        _ => None,
    }
}

/// The method for a structure.
fn method_for(structure: Structure) -> Method
    ensures { result ≡ words.method_for structure }
{
    match structure {
        Structure::Native => Method::Suffix,
        Structure::GenericState => Method::Generic,
    }
}

/// The trigger of a switch that is added last, given the count of ends.
fn trigger(workload: &Workload, ends: usize) -> u32
    ensures { result ≡ words.trigger workload.now ends }
{
    last_trigger(workload).max(ends.min(LARGEST_TRIGGER as usize) as u32)
}
