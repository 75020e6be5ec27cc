ghost use Rattle.std.specs.Prelude.{◌≡◌, true, IfOk};
ghost use Rattle.raid_force.specs.Lasting.{AreClear, are_whole};
ghost use Rattle.raid_check.specs.Finding.{Finds, IsFirstIllegal};
ghost use Rattle.raid_check.specs.Replay.{Stands};

use crate::replay::Replay;
use crate::{copies, finals, rest};
use raid_base::{Entries, NoMemory, Report};
use raid_control::{Controller, Rack};
use raid_workload::Workload;
use std::alloc::Global;

/// What is found of a report.
#[derive(Clone, Copy, Debug, PartialEq, Eq)]
pub enum Finding {
    /// All that is claimed of a run's report holds of it.
    Sound,
    /// Its history isn't legal: the entry with this number is the first that isn't allowed after those before it.
    Legal(u32),
    /// Its history is legal, but its order or its finals aren't those of the committed transactions.
    Serial,
    /// Its history is legal and it is serial, but its copies aren't all told, or one that may be read isn't current.
    Copies,
    /// All else is right, but something was left to do after its last entry.
    Finished,
}

/// The number of the first entry that isn't allowed after those before it; None exactly where the history is legal. The rack has to be
/// whole, its controllers cleared; it is dropped. Want of memory is the only error; it also comes where there are more entries than can be
/// numbered, which is from 4,294,967,295 on.
pub fn legal(
    alloc: Global,
    workload: &Workload,
    entries: &Entries,
    rack: Rack,
) -> Result<Option<u32>, NoMemory>
    requires whole { are_whole ⟦<dyn Controller as Controller>⟧ rack.slots.items ≡ true }
    requires clear { AreClear ⟦<dyn Controller as Controller>⟧ rack.slots.items }
    ensures { IfOk result (λ first. IsFirstIllegal workload.now entries.now first) }
{
    let mut replay = Replay::new(alloc, workload, rack)?;
    let first = replay.go(alloc, workload, entries.as_slice())?;
    Ok(first)
}

/// What is found of a report of the workload, whoever made it. The rack has to be whole, its controllers cleared; it is dropped. Want of
/// memory is the only error; it also comes where there are more entries than can be numbered, which is from 4,294,967,295 on.
///
/// The entries are gone through once. That a report with the serial order of a legal history and the items' last values is serial is a law, and
/// so is that a legal history after which nothing is forced is switched: so no program is run again for the former, and the latter has no
/// finding of its own.
pub fn check(
    alloc: Global,
    workload: &Workload,
    report: &Report,
    rack: Rack,
) -> Result<Finding, NoMemory>
    requires whole { are_whole ⟦<dyn Controller as Controller>⟧ rack.slots.items ≡ true }
    requires clear { AreClear ⟦<dyn Controller as Controller>⟧ rack.slots.items }
    ensures { IfOk result (λ finding. Finds workload.now report.now finding) }
{
    let mut replay = Replay::new(alloc, workload, rack)?;
    let first = replay.go(alloc, workload, report.entries.as_slice())?;
    match first {
        Some(number) => Ok(Finding::Legal(number)),
        None => judge(alloc, workload, report, &mut replay),
    }
}

/// What is found of a report whose history is legal and has been replayed.
fn judge(
    alloc: Global,
    workload: &Workload,
    report: &Report,
    replay: &mut Replay,
) -> Result<Finding, NoMemory>
    requires stands { Stands ⟦<dyn Controller as Controller>⟧ workload.now replay.old }
    requires entries { replay.old.tables.history ≡ report.now.entries }
    ensures { IfOk result (λ finding. Finds workload.now report.now finding) }
{
    let is_serial = finals::is_serial(alloc, workload, &replay.tables, report)?;
    if !is_serial {
        return Ok(Finding::Serial);
    }
    let are_right = copies::are_right(alloc, workload, &replay.tables, report)?;
    if !are_right {
        return Ok(Finding::Copies);
    }
    let is_finished = rest::is_finished(alloc, workload, replay)?;
    if !is_finished {
        return Ok(Finding::Finished);
    }
    Ok(Finding::Sound)
}
