//! How the programs run on what their transactions have seen.

ghost use Rattle.std.specs.Prelude.{◌≡◌, ◌↔◌, ◌&&◌, true, false, List, length, IsTrue, IfOk};
ghost use Rattle.std.specs.Option.{option_map_or};
ghost use Rattle.raid_base.specs.Names.{has_txn};
ghost use Rattle.raid_base.specs.declared.entry.Entry.{Entry};
ghost use Rattle.raid_program.specs.declared.program.Want.TheVariants as wants;
ghost use Rattle.raid_workload.specs.Parts as parts;
ghost use Rattle.raid_rules.specs.History.{noted};
ghost use Rattle.raid_legal.specs.Seen.{outcome};
ghost use Rattle.raid_legal.specs.Legal as words;
ghost use Rattle.raid_seen.specs.Tables.{AreReadings, AreOutages, latest_of, is_lapsed};

use crate::answers::course;
use crate::outages::Outages;
use crate::readings::{LastRead, Readings};
use crate::same::are_same_pairs;
use raid_base::{Cause, Item, NoMemory, Pairs, Request, Txn};
use raid_program::{Program, Run, Want};
use raid_workload::Workload;
use std::alloc::Global;

/// The program of a transaction of the workload.
fn program_of(workload: &Workload, txn: Txn) -> &Program
    requires { has_txn (parts.txns workload.now) txn ≡ true }
    ensures { result.now ≡ parts.program workload.now txn }
{
    let place = txn.0.saturating_sub(1) as usize % workload.programs.len();
    &workload.programs.get(place).program
}

/// How the transaction's program runs on what the transaction has seen: how it ends, and its run, which has its reads and writes.
#[tactic(auto, using(crate::proofs::Pushed::same_outcome))]
fn course_of(
    alloc: Global,
    workload: &Workload,
    readings: &Readings,
    txn: Txn,
) -> Result<(Want, Run), NoMemory>
    requires { has_txn (parts.txns workload.now) txn ≡ true }
    ensures { IfOk result (λ c. (h : List Entry) → AreReadings workload.now readings.now (noted h) → outcome workload.now (noted h) txn ≡ record { end = c.0; reads = c.1.reads; writes = c.1.writes }) }
{
    let program = program_of(workload, txn);
    course(alloc, program, readings.answers(txn))
}

/// Whether the Read is of the item, and the site that was to serve it has gone down since.
fn has_lapsed(outages: &Outages, read: LastRead, item: Item) -> bool
    ensures { result ≡ is_lapsed outages.now item read }
{
    read.item == item && read.number < outages.get(read.site).fell
}

/// Whether that holds of the transaction's last Read.
fn is_lost(readings: &Readings, outages: &Outages, txn: Txn, item: Item) -> bool
    ensures { result ≡ option_map_or (is_lapsed outages.now item) (latest_of readings.now txn) false }
{
    match readings.latest(txn) {
        Some(read) => has_lapsed(outages, read, item),
        None => false,
    }
}

/// Whether the program stands at a read of the item.
fn is_wish(end: Want, item: Item) -> bool
    ensures { result ≡ words.wants_item item end }
{
    match end {
        Want::Read(other) => other == item,
        Want::Done | Want::Own | Want::Overflow => false,
    }
}

/// Whether the transaction's program does.
fn wants(
    alloc: Global,
    workload: &Workload,
    readings: &Readings,
    txn: Txn,
    item: Item,
) -> Result<bool, NoMemory>
    requires { has_txn (parts.txns workload.now) txn ≡ true }
    ensures { IfOk result (λ b. (h : List Entry) → AreReadings workload.now readings.now (noted h) → b ≡ words.wants_item item (outcome workload.now (noted h) txn).end) }
{
    let (end, _) = course_of(alloc, workload, readings, txn)?;
    Ok(is_wish(end, item))
}

/// Whether a transaction of the workload may ask for the item: its program wants it, or the value that was granted may be lost. Want of
/// memory is the only error.
pub fn is_asked(
    alloc: Global,
    workload: &Workload,
    readings: &Readings,
    outages: &Outages,
    txn: Txn,
    item: Item,
) -> Result<bool, NoMemory>
    requires { has_txn (parts.txns workload.now) txn ≡ true }
    ensures { IfOk result (λ b. (h : List Entry) → AreReadings workload.now readings.now (noted h) → AreOutages outages.now (noted h) → b ≡ words.is_asked workload.now (noted h) txn item) }
{
    if is_lost(readings, outages, txn, item) {
        return Ok(true);
    }
    wants(alloc, workload, readings, txn, item)
}

/// Whether a run that ends so makes the request, where there are so many sites.
fn is_made(end: Want, run: &Run, request: &Request, sites: u8) -> bool
    ensures { IsTrue result ↔ (end ≡ wants.Done) × (run.now.reads ≡ request.now.reads) × (run.now.writes ≡ request.now.writes) × (length request.now.under ≡ sites) }
{
    if end != Want::Done || request.under.count != sites {
        return false;
    }
    if !are_same_pairs(run.reads(), request.reads.as_slice()) {
        return false;
    }
    are_same_pairs(run.writes(), request.writes.as_slice())
}

/// Whether the request is what the program of a transaction of the workload makes of what the transaction has seen. Want of memory is the
/// only error.
pub fn makes(
    alloc: Global,
    workload: &Workload,
    readings: &Readings,
    txn: Txn,
    request: &Request,
) -> Result<bool, NoMemory>
    requires { has_txn (parts.txns workload.now) txn ≡ true }
    ensures { IfOk result (λ b. (h : List Entry) → AreReadings workload.now readings.now (noted h) → (IsTrue b ↔ words.Makes workload.now (noted h) txn request.now)) }
{
    let (end, run) = course_of(alloc, workload, readings, txn)?;
    Ok(is_made(end, &run, request, workload.sites))
}

/// Whether a run that ends so has the wanted end, and these reads.
fn is_end(end: Want, run: &Run, wanted: Want, reads: &Pairs) -> bool
    ensures { IsTrue result ↔ (end ≡ wanted) × (run.now.reads ≡ reads.now) }
{
    if !are_same_pairs(run.reads(), reads.as_slice()) {
        return false;
    }
    end == wanted
}

/// Whether the transaction's program ends so, having read these.
fn ends_by(
    alloc: Global,
    workload: &Workload,
    readings: &Readings,
    txn: Txn,
    wanted: Want,
    reads: &Pairs,
) -> Result<bool, NoMemory>
    requires { has_txn (parts.txns workload.now) txn ≡ true }
    ensures { IfOk result (λ b. (h : List Entry) → AreReadings workload.now readings.now (noted h) → (IsTrue b ↔ words.EndsBy workload.now (noted h) txn wanted reads.now)) }
{
    let (end, run) = course_of(alloc, workload, readings, txn)?;
    Ok(is_end(end, &run, wanted, reads))
}

/// Whether the program of a transaction of the workload itself ends in an abort with this cause, having read these. Want of memory is the
/// only error.
pub fn ends_so(
    alloc: Global,
    workload: &Workload,
    readings: &Readings,
    txn: Txn,
    cause: Cause,
    reads: &Pairs,
) -> Result<bool, NoMemory>
    requires { has_txn (parts.txns workload.now) txn ≡ true }
    ensures { IfOk result (λ b. (h : List Entry) → AreReadings workload.now readings.now (noted h) → (IsTrue b ↔ words.EndsSo workload.now (noted h) txn cause reads.now)) }
{
    match cause {
        Cause::Own => ends_by(alloc, workload, readings, txn, Want::Own, reads),
        Cause::Overflow => ends_by(alloc, workload, readings, txn, Want::Overflow, reads),
        _ => Ok(false),
    }
}
