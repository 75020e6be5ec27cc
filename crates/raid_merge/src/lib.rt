//! The journals of the servers, merged into one list of picks by the clocks of their steps.
//!
//! A run on threads leaves a journal for each server, and no order between the steps of two servers but their clocks. `merge` gives one order
//! of them all, always the same: `raid_causes` has the law that it is a run of the definitions.
#![tactic(auto)]

ghost use Rattle.std.specs.Prelude.{◌≡◌, ◌≤◌, ◌+◌, ◌*◌, ◌++◌, List, length, map, All, IfOk, OnOk};
ghost use Rattle.std.specs.Bool.{OnTrue, OnFalse};
ghost use Rattle.std.specs.List.Sorted.{IsPermutation, IsNonDecreasingBy};
ghost use Rattle.raid_message.specs.declared.letter.Pick.{Pick};
ghost use Rattle.raid_merge.specs.Merged.{IsRising, IsMerge, pick_of};
ghost use Rattle.raid_merge.specs.Gathered.{tag, flat, key};

use raid_base::{Listed, NoMemory};
use raid_message::{Pick, Step};
use std::alloc::Global;

/// The steps of one server, first step first.
pub type Journal = Listed<Step>;

/// The journal of each server, by its number: that of server 0 first.
pub type Journals = Listed<Journal>;

/// The picks of a run, in order.
pub type Schedule = Listed<Pick>;

/// Whether each step's clock is larger than those of the steps before it.
pub fn is_rising(journal: &[Step]) -> bool
    ensures rises { OnTrue result (IsRising journal.now) }
    ensures falls { OnFalse result (IsRising journal.now → ⊥) }
{
    for k in 1..journal.len() {
        if journal[k].clock <= journal[k - 1].clock {
            return false;
        }
    }
    true
}

/// Whether each journal's clocks rise, as those that are to be merged have to.
pub fn are_rising(journals: &Journals) -> bool
    ensures rise { OnTrue result (All IsRising journals.now) }
    ensures fall { OnFalse result (All IsRising journals.now → ⊥) }
{
    for journal in journals.as_slice() {
        if !is_rising(journal.as_slice()) {
            return false;
        }
    }
    true
}

/// Adds the steps of one server.
fn add(all: &mut Vec<(u16, Step)>, server: u16, journal: &[Step]) -> Result<(), NoMemory>
    ensures { OnOk result (all.new.items ≡ all.old.items ++ map (tag server) journal.now) }
{
    for step in journal {
        all.push((server, *step))?;
    }
    Ok(())
}

/// The steps of all servers, one server after another.
fn gather(alloc: Global, journals: &[Journal]) -> Result<Vec<(u16, Step)>, NoMemory>
    requires { length journals.now ≤ 65536 }
    ensures { IfOk result (λ all. all.items ≡ flat 0 journals.now) }
{
    let mut all = Vec::new(alloc);
    for k in 0..journals.len() {
        add(&mut all, k as u16, journals[k].as_slice())?;
    }
    Ok(all)
}

/// A step's clock and its server's number as one number.
fn key_of(clock: u64, server: u16) -> u128
    ensures { result ≡ clock * 65536 + server }
{
    u128::from(clock) * 65536 + u128::from(server)
}

/// Puts the steps in order: by clock, and then by server number. Takes no memory.
fn put_in_order(all: &mut Vec<(u16, Step)>)
    ensures same { IsPermutation all.old.items all.new.items }
    ensures ordered { IsNonDecreasingBy key all.new.items }
{
    all.sort_unstable_by_key(|taken| key_of(taken.1.clock, taken.0));
}

/// The picks that let the servers take these steps.
fn picks_of(alloc: Global, all: &[(u16, Step)]) -> Result<Schedule, NoMemory>
    ensures { IfOk result (λ picks. picks ≡ map pick_of all.now) }
{
    let mut picks = Schedule::new(alloc);
    for taken in all {
        picks.push(Pick {
            server: taken.0,
            from: taken.1.from,
        })?;
    }
    Ok(picks)
}

/// All steps of the journals as picks, by clock, and then by server number. There is one such list and no other. Want of memory is the
/// only error.
pub fn merge(alloc: Global, journals: &Journals) -> Result<Schedule, NoMemory>
    requires few { length journals.now ≤ 65536 }
    requires rising { All IsRising journals.now }
    ensures merge { IfOk result (IsMerge journals.now) }
    ensures only { IfOk result (λ picks. (other : List Pick) → IsMerge journals.now other → other ≡ picks) }
{
    let mut all = gather(alloc, journals.as_slice())?;
    put_in_order(&mut all);
    picks_of(alloc, all.as_slice())
}
