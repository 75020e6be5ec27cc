//! The run of a workload's servers.
ghost use Rattle.std.specs.Prelude.{◌≡◌, ◌<◌, ◌^◌, ◌-◌, true, length, IfOk};
ghost use Rattle.raid_force.specs.Lasting.{AreClear, are_whole};
ghost use Rattle.raid_report.specs.Known.{IsReportOf};
ghost use Rattle.raid_app.specs.Answer as saying;

use crate::answer::Answer;
use crate::statuses::DONE;
use raid_base::{Bytes, NoMemory, Report};
use raid_control::{Controller, Rack};
use raid_link::Gate;
use raid_nodes::Nodes;
use raid_report::{brief, print};
use raid_rounds::Rounds;
use raid_workload::Workload;
use raid_world::rounds;
use std::alloc::Global;
use std::thread::Threads;

/// How many letters the ring of a link holds. More wait, so it makes no difference to what is told of a run.
const PLACES: u32 = 64;

/// What is written of a report: its text, or its summary.
fn told(
    alloc: Global,
    is_brief: bool,
    workload: &Workload,
    report: &Report,
) -> Result<Bytes, NoMemory>
    requires few { length report.now.entries < 2 ^ 32 - 1 }
    requires report { IsReportOf workload.now report.now }
    ensures { IfOk result (λ text. text ≡ saying.told is_brief workload.now report.now) }
{
    if is_brief {
        brief(alloc, workload, report)
    } else {
        print(alloc, workload, report)
    }
}

/// Runs the servers of a workload, each in a thread of its own, with this gate before each step. What is to be said of it is its report, which
/// is sound, or where `is_brief` holds its summary. Want of memory is the only error: no run takes as many letters as `rounds` has, so none is cut
/// off.
pub fn run_workload<R: Threads + Sync, G: Gate>(
    rt: &R,
    alloc: Global,
    is_brief: bool,
    workload: &Workload,
    rack: Rack,
    gate: &G,
) -> Result<Answer, NoMemory>
    requires whole { are_whole ⟦<dyn Controller as Controller>⟧ rack.slots.items ≡ true }
    requires clear { AreClear ⟦<dyn Controller as Controller>⟧ rack.slots.items }
    ensures { IfOk result (saying.Runs is_brief workload.now) }
{
    let mut nodes = Nodes::new(alloc, workload, PLACES, rack)?;
    let end = nodes.run(rt, alloc, workload, gate, rounds(workload))?;
    let schedule = nodes.schedule(alloc)?;
    match end {
        Rounds::Spent => unreachable!(),
        Rounds::Idle => {
            let report = nodes.report(alloc, workload)?;
            let text = told(alloc, is_brief, workload, &report)?;
            Ok(Answer {
                status: DONE,
                text: Some(text),
                schedule,
            })
        }
    }
}
