//! The answers, with the controllers in force asked.

ghost use Rattle.std.specs.Prelude.{◌≡◌, true, IfOk};
ghost use Rattle.raid_workload.specs.declared.workload.Workload.{Workload};
ghost use Rattle.raid_workload.specs.Parts as parts;
ghost use Rattle.raid_rules.specs.History.{noted, stamp, is_running, is_waiting, waiting};
ghost use Rattle.raid_rules.specs.Verdicts.{reading, writing};
ghost use Rattle.raid_legal.specs.Answers as words;
ghost use Rattle.raid_legal.specs.InForce as rule;
ghost use Rattle.raid_faillock.specs.Stands as faillocks;
ghost use Rattle.raid_decide.specs.Stand.{AreKept, AreOf, PartsStand};

use crate::answers::{answer_commit, answer_read, answer_waiting};
use raid_base::{Ask, Entry, Item, NoMemory, Request, Txn, Verdict};
use raid_control::Controller;
use raid_faillock::FailLocks;
use raid_history::History;
use raid_switch::Eras;
use raid_waits::Waits;
use raid_workload::Workload;
use std::alloc::Global;

/// What the controllers in force say of the read of a running transaction. They stand for what they stood for.
fn verdict_on_read(history: &History, eras: &mut Eras, txn: Txn, item: Item) -> Verdict
    requires running { is_running (noted history.now) txn ≡ true }
    ensures answers { (w : Workload) → AreOf ⟦<dyn Controller as Controller>⟧ w history.now eras.old → result ≡ rule.verdict w (noted history.now) (reading txn (stamp (noted history.now) txn) item) }
    ensures keeps { AreKept ⟦<dyn Controller as Controller>⟧ eras.old eras.new }
{
    let stamp = history.stamp(txn);
    eras.judge(&Ask::Read { txn, stamp, item })
}

/// What they say of its commit request.
fn verdict_on_commit(history: &History, eras: &mut Eras, txn: Txn, request: &Request) -> Verdict
    requires running { is_running (noted history.now) txn ≡ true }
    ensures answers { (w : Workload) → AreOf ⟦<dyn Controller as Controller>⟧ w history.now eras.old → result ≡ rule.verdict w (noted history.now) (writing txn (stamp (noted history.now) txn) request.now.writes) }
    ensures keeps { AreKept ⟦<dyn Controller as Controller>⟧ eras.old eras.new }
{
    let stamp = history.stamp(txn);
    eras.judge(&Ask::Commit {
        txn,
        stamp,
        reads: &request.reads,
        writes: &request.writes,
    })
}

/// The entry that answers the read of a running transaction: a Read at its home where that is a source, else at the least source; or an
/// Abort where there is no source, or a controller in force refuses. The controllers stand for what they stood for. Takes no memory.
pub fn answer_to_read(
    workload: &Workload,
    history: &History,
    locks: &FailLocks,
    eras: &mut Eras,
    txn: Txn,
    item: Item,
) -> Entry
    requires of { AreOf ⟦<dyn Controller as Controller>⟧ workload.now history.now eras.old }
    requires locked { faillocks.Stands locks.now workload.now.sites (parts.placement workload.now) (noted history.now) }
    requires running { is_running (noted history.now) txn ≡ true }
    ensures answer { result ≡ words.answer_read workload.now (noted history.now) txn item }
    ensures keeps { AreKept ⟦<dyn Controller as Controller>⟧ eras.old eras.new }
{
    let verdict = verdict_on_read(history, eras, txn, item);
    answer_read(workload, locks, txn, item, verdict)
}

/// The entry that answers the commit request of a running transaction, with a copy of the request; None where it waits already and goes
/// on waiting. What the sites say comes before what the controllers in force say. The waiting requests stay as they were and the
/// controllers stand for what they stood for, after want of memory too, the only error.
pub fn answer_to_commit(
    alloc: Global,
    workload: &Workload,
    history: &History,
    locks: &FailLocks,
    waits: &mut Waits,
    eras: &mut Eras,
    txn: Txn,
    request: &Request,
) -> Result<Option<Entry>, NoMemory>
    requires stand { PartsStand ⟦<dyn Controller as Controller>⟧ workload.now history.now locks.now waits.old eras.old }
    requires running { is_running (noted history.now) txn ≡ true }
    ensures answer { IfOk result (λ e. e ≡ words.answer_commit workload.now (noted history.now) txn request.now) }
    ensures same { waits.new ≡ waits.old }
    ensures keeps { AreKept ⟦<dyn Controller as Controller>⟧ eras.old eras.new }
{
    let verdict = verdict_on_commit(history, eras, txn, request);
    answer_commit(alloc, workload, locks, waits, eras, txn, request, verdict)
}

/// The answer to the request of a transaction that waits, with a copy of it; None where it goes on waiting.
pub fn answer_to_waiting(
    alloc: Global,
    workload: &Workload,
    history: &History,
    locks: &FailLocks,
    eras: &mut Eras,
    txn: Txn,
    request: &Request,
) -> Result<Option<Entry>, NoMemory>
    requires stand { PartsStand ⟦<dyn Controller as Controller>⟧ workload.now history.now locks.now (waiting (noted history.now)) eras.old }
    requires running { is_running (noted history.now) txn ≡ true }
    requires waiting { is_waiting (noted history.now) txn ≡ true }
    ensures answer { IfOk result (λ e. e ≡ words.answer_commit workload.now (noted history.now) txn request.now) }
    ensures keeps { AreKept ⟦<dyn Controller as Controller>⟧ eras.old eras.new }
{
    let verdict = verdict_on_commit(history, eras, txn, request);
    answer_waiting(alloc, workload, locks, txn, request, verdict)
}
