//! What the commands that judge a report tell of a sound one.
ghost use Rattle.std.specs.Prelude.{◌≡◌, IfOk};
ghost use Rattle.raid_app.specs.Wanted.{told_of};

use crate::lines::{advice_line, finding_line};
use raid_advise::advise;
use raid_base::{Bytes, NoMemory, Report};
use raid_check::Finding;
use raid_workload::Workload;
use std::alloc::Global;

/// What a command wants to be told of a report that is sound.
#[derive(Clone, Copy, Debug, PartialEq, Eq)]
pub enum Wanted {
    /// That it is sound.
    Soundness,
    /// The switch that its entries with the last so many ends speak for, `last` of them.
    Advice { last: u32 },
}

/// What is told of a sound report of the workload.
pub fn told(
    alloc: Global,
    wanted: Wanted,
    workload: &Workload,
    report: &Report,
) -> Result<Bytes, NoMemory>
    ensures { IfOk result (λ text. text ≡ told_of wanted workload.now report.now) }
{
    match wanted {
        Wanted::Soundness => finding_line(alloc, Finding::Sound),
        Wanted::Advice { last } => {
            let advice = advise(alloc, workload, &report.entries, last)?;
            advice_line(alloc, advice)
        }
    }
}
