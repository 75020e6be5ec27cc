//! What an entry does to each of the tables.

ghost use Rattle.std.specs.Prelude.{◌≡◌, ◌+◌, ◌&&◌, ◌||◌, not, true, false, List, [], ◌∷◌, ◌++◌, filter, length, slice_index_or, IfOk, OnOk, OnErr};
ghost use Rattle.raid_base.specs.declared.names.Txn.{Txn};
ghost use Rattle.raid_base.specs.Names.{has_txn};
ghost use Rattle.raid_workload.specs.Parts as parts;
ghost use Rattle.raid_rules.specs.History as rules;
ghost use Rattle.raid_steps.specs.State.{Copying};
ghost use Rattle.raid_steps.specs.Sequencer.{ends_copying};
ghost use Rattle.raid_copier.specs.Copiers as ways;
ghost use Rattle.raid_record.specs.Keeps.{AreNext, is_fit};
ghost use Rattle.raid_record.specs.Turns as words;

use crate::homes::Nexts;
use crate::left::Left;
use raid_base::{Duplicate, Entry, NoMemory};
use raid_copier::Copiers;
use raid_history::History;
use raid_waits::Waits;
use raid_workload::Workload;
use std::alloc::Global;

/// The stamp of the entry that comes next, with its number: that of its transaction, 0 where it names none.
pub fn stamp_of(history: &History, number: u32, entry: &Entry) -> u32
    ensures { result ≡ rules.stamp_at (rules.noted history.now) number entry.now }
{
    match entry {
        Entry::Begin { .. } => number,
        Entry::Read { txn, .. }
        | Entry::Wait { txn, .. }
        | Entry::Commit { txn, .. }
        | Entry::Abort { txn, .. }
        | Entry::Ack { txn, .. } => history.stamp(*txn),
        Entry::SwitchOn { .. }
        | Entry::SwitchEnd { .. }
        | Entry::Down { .. }
        | Entry::Up { .. }
        | Entry::Clear { .. } => 0,
    }
}

/// A Wait's request waits from here on, and a transaction that ends waits no longer.
pub fn turn_waits(waits: &mut Waits, alloc: Global, entry: &Entry) -> Result<(), NoMemory>
    requires { words.waits_anew waits.old entry.now ≡ true }
    ensures ok { OnOk result (waits.new ≡ words.turn_waits waits.old entry.now) }
    ensures err { OnErr result (waits.new ≡ waits.old) }
{
    match entry {
        Entry::Wait { txn, request } => {
            let request = request.copy(alloc)?;
            return waits.push(*txn, request);
        }
        Entry::Commit { txn, .. } | Entry::Abort { txn, .. } => {
            waits.remove(*txn);
        }
        Entry::Begin { .. }
        | Entry::Read { .. }
        | Entry::Ack { .. }
        | Entry::SwitchOn { .. }
        | Entry::SwitchEnd { .. }
        | Entry::Down { .. }
        | Entry::Up { .. }
        | Entry::Clear { .. } => {}
    }
    Ok(())
}

/// Copies that a Commit renews, and those of which a site goes down, are no longer under way.
pub fn turn_copiers(copiers: &mut Copiers, entry: &Entry)
    ensures { (out : List Copying) → ways.Stands copiers.old out → ways.Stands copiers.new (filter (λ c. not (ends_copying entry.now c)) out) }
{
    match entry {
        Entry::Commit {
            request,
            applied,
            ..
        } => copiers.renewed(&request.writes, *applied),
        Entry::Down { site } => copiers.lost(*site),
        _ => {}
    }
}

/// An aborted transaction's program may be tried again where the cause allows it, until its home goes down.
pub fn turn_left(left: &mut Left, workload: &Workload, entry: &Entry) -> Result<(), NoMemory>
    ensures { OnOk result ((t : Txn) → slice_index_or left.new t.0 false ≡ words.turn_left workload.now t (slice_index_or left.old t.0 false) entry.now) }
{
    match entry {
        Entry::Abort { txn, cause, .. } => left.abort(*txn, *cause),
        Entry::Down { site } => {
            left.down(workload, *site);
            Ok(())
        }
        Entry::Begin { .. }
        | Entry::Read { .. }
        | Entry::Wait { .. }
        | Entry::Commit { .. }
        | Entry::Ack { .. }
        | Entry::SwitchOn { .. }
        | Entry::SwitchEnd { .. }
        | Entry::Up { .. }
        | Entry::Clear { .. } => Ok(()),
    }
}

/// A home whose next transaction begins has another one next.
pub fn turn_nexts(nexts: &mut Nexts, workload: &Workload, history: &History, entry: &Entry)
    requires { is_fit workload.now (rules.noted history.now) entry.now ≡ true }
    ensures { AreNext workload.now nexts.old (rules.noted history.now) → AreNext workload.now nexts.new (rules.add (rules.noted history.now) entry.now) }
{
    match entry {
        Entry::Begin { txn, .. } => nexts.begin(workload, history, *txn),
        _ => {}
    }
}
