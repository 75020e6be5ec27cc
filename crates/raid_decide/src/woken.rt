//! The waiting requests that needn't wait any more.

ghost use Rattle.std.specs.Prelude.{◌≡◌, IfOk};
ghost use Rattle.raid_rules.specs.History.{noted};
ghost use Rattle.raid_legal.specs.Forced as words;
ghost use Rattle.raid_decide.specs.Stand.{AreKept, PartsStand};

use crate::asked::answer_to_waiting;
use raid_base::{Entry, NoMemory};
use raid_control::Controller;
use raid_faillock::FailLocks;
use raid_history::History;
use raid_switch::Eras;
use raid_waits::Waits;
use raid_workload::Workload;
use std::alloc::Global;

/// The answer to the earliest waiting request that needn't wait any more, with a copy of the request, if there is one. The controllers
/// stand for what they stood for, after want of memory too, the only error.
pub fn woken(
    alloc: Global,
    workload: &Workload,
    history: &History,
    locks: &FailLocks,
    waits: &Waits,
    eras: &mut Eras,
) -> Result<Option<Entry>, NoMemory>
    requires stand { PartsStand ⟦<dyn Controller as Controller>⟧ workload.now history.now locks.now waits.now eras.old }
    ensures answer { IfOk result (λ e. e ≡ words.woken workload.now (noted history.now)) }
    ensures keeps { AreKept ⟦<dyn Controller as Controller>⟧ eras.old eras.new }
{
    for place in 0..waits.len() {
        let (txn, request) = waits.get(place);
        let answer = answer_to_waiting(alloc, workload, history, locks, eras, txn, request)?;
        if answer.is_some() {
            return Ok(answer);
        }
    }
    Ok(None)
}
