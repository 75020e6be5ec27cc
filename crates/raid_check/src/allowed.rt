//! Which entries may come where none is forced: one rule for each sort of entry.

ghost use Rattle.std.specs.Prelude.{◌≡◌, ◌↔◌, true, None, IsTrue, IfOk};
ghost use Rattle.raid_base.specs.declared.entry.Entry.TheVariants as entries;
ghost use Rattle.raid_workload.specs.Parts as parts;
ghost use Rattle.raid_rules.specs.History.{noted};
ghost use Rattle.raid_legal.specs.Legal as words;
ghost use Rattle.raid_check.specs.Replay.{AreOf, Stands};

use crate::replay::Replay;
use crate::tables::Tables;
use raid_base::{Act, Cause, Entry, Item, NoMemory, Pairs, Request, Site, Txn};
use raid_control::Controller;
use raid_decide::asked::{answer_to_commit, answer_to_read};
use raid_record::homes::home;
use raid_seen::same::is_same;
use raid_workload::Workload;
use std::alloc::Global;

/// Whether the transaction may begin at this home.
fn begins(tables: &Tables, workload: &Workload, txn: Txn, at: Site) -> bool
    requires { AreOf workload.now tables.now }
    ensures { IsTrue result ↔ (parts.home workload.now txn ≡ at) × (words.may_begin workload.now (noted tables.now.history) txn ≡ true) }
{
    if !tables.may_begin(workload, txn) {
        return false;
    }
    home(workload, txn) == at
}

/// Whether the entry is the answer to a read that the transaction may ask for.
fn answers_read(
    replay: &mut Replay,
    alloc: Global,
    workload: &Workload,
    txn: Txn,
    item: Item,
    entry: &Entry,
) -> Result<bool, NoMemory>
    requires { Stands ⟦<dyn Controller as Controller>⟧ workload.now replay.old }
    ensures is { IfOk result (λ b. IsTrue b ↔ words.AnswersRead workload.now (noted replay.old.tables.history) txn item entry.now) }
    ensures stands { Stands ⟦<dyn Controller as Controller>⟧ workload.now replay.new }
    ensures history { replay.new.tables.history ≡ replay.old.tables.history }
{
    let tables = &replay.tables;
    if !tables.is_free(txn) {
        return Ok(false);
    }
    let asked = tables.is_asked(alloc, workload, txn, item)?;
    if !asked {
        return Ok(false);
    }
    let eras = &mut replay.force.eras;
    let answer = answer_to_read(workload, &tables.history, &tables.locks, eras, txn, item);
    Ok(is_same(&answer, entry))
}

/// Whether the entry is the answer to the commit request that the transaction's program makes.
fn answers_commit(
    replay: &mut Replay,
    alloc: Global,
    workload: &Workload,
    txn: Txn,
    request: &Request,
    entry: &Entry,
) -> Result<bool, NoMemory>
    requires { Stands ⟦<dyn Controller as Controller>⟧ workload.now replay.old }
    ensures is { IfOk result (λ b. IsTrue b ↔ words.AnswersCommit workload.now (noted replay.old.tables.history) txn request.now entry.now) }
    ensures stands { Stands ⟦<dyn Controller as Controller>⟧ workload.now replay.new }
    ensures history { replay.new.tables.history ≡ replay.old.tables.history }
{
    let tables = &mut replay.tables;
    if !tables.is_free(txn) {
        return Ok(false);
    }
    let made = tables.makes(alloc, workload, txn, request)?;
    if !made {
        return Ok(false);
    }
    let eras = &mut replay.force.eras;
    let answer = answer_to_commit(
        alloc,
        workload,
        &tables.history,
        &tables.locks,
        &mut tables.waits,
        eras,
        txn,
        request,
    )?;
    match answer {
        Some(answer) => Ok(is_same(&answer, entry)),
        None => Ok(false),
    }
}

/// Whether the transaction's program ends itself so, having read these, and the transaction may ask.
fn ends(
    tables: &Tables,
    alloc: Global,
    workload: &Workload,
    txn: Txn,
    cause: Cause,
    reads: &Pairs,
) -> Result<bool, NoMemory>
    requires { AreOf workload.now tables.now }
    ensures { IfOk result (λ b. IsTrue b ↔ (words.is_free (noted tables.now.history) txn ≡ true) × words.EndsSo workload.now (noted tables.now.history) txn cause reads.now) }
{
    if !tables.is_free(txn) {
        return Ok(false);
    }
    let ends = tables.ends_so(alloc, workload, txn, cause, reads)?;
    Ok(ends)
}

/// Whether the entry, an Abort that no switch and no stop forces, answers what its act says was asked.
fn aborts(
    replay: &mut Replay,
    alloc: Global,
    workload: &Workload,
    txn: Txn,
    cause: Cause,
    act: &Act,
    entry: &Entry,
) -> Result<bool, NoMemory>
    requires stands { Stands ⟦<dyn Controller as Controller>⟧ workload.now replay.old }
    requires is { entry.now ≡ entries.Abort txn cause act.now }
    ensures is { IfOk result (λ b. IsTrue b ↔ words.Aborts workload.now (noted replay.old.tables.history) txn cause act.now) }
    ensures stands { Stands ⟦<dyn Controller as Controller>⟧ workload.now replay.new }
    ensures history { replay.new.tables.history ≡ replay.old.tables.history }
{
    match act {
        Act::Nothing => Ok(false),
        Act::Ended(reads) => ends(&replay.tables, alloc, workload, txn, cause, reads),
        Act::Read(item) => answers_read(replay, alloc, workload, txn, *item, entry),
        Act::Commit(request) => answers_commit(replay, alloc, workload, txn, request, entry),
    }
}

/// Whether the entry may come next, where none is forced.
pub fn may_come(
    replay: &mut Replay,
    alloc: Global,
    workload: &Workload,
    entry: &Entry,
) -> Result<bool, NoMemory>
    requires { Stands ⟦<dyn Controller as Controller>⟧ workload.now replay.old }
    ensures is { IfOk result (λ b. IsTrue b ↔ words.Free workload.now (noted replay.old.tables.history) entry.now) }
    ensures stands { Stands ⟦<dyn Controller as Controller>⟧ workload.now replay.new }
    ensures history { replay.new.tables.history ≡ replay.old.tables.history }
{
    let tables = &replay.tables;
    match entry {
        Entry::Begin { txn, home } => Ok(begins(tables, workload, *txn, *home)),
        Entry::Read { txn, item, .. } => answers_read(replay, alloc, workload, *txn, *item, entry),
        Entry::Wait { txn, request } => {
            answers_commit(replay, alloc, workload, *txn, request, entry)
        }
        Entry::Commit { txn, request, .. } => {
            answers_commit(replay, alloc, workload, *txn, request, entry)
        }
        Entry::Abort { txn, cause, act } => {
            aborts(replay, alloc, workload, *txn, *cause, act, entry)
        }
        Entry::Ack { txn, site } => Ok(tables.owes(workload, *site, *txn)),
        Entry::SwitchOn { .. } | Entry::SwitchEnd { .. } => Ok(false),
        Entry::Down { site } => Ok(tables.may_go_down(workload, *site)),
        Entry::Up { site, session } => Ok(tables.may_come_up(workload, *site, *session)),
        Entry::Clear {
            site,
            item,
            version,
        } => Ok(tables.may_clear(workload, *site, *item, *version)),
    }
}
