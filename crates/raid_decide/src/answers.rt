//! The answers to reads and to commits.

ghost use Rattle.std.specs.Prelude.{◌≡◌, true, false, List, Some, IfOk};
ghost use Rattle.raid_base.specs.Names.{has_txn};
ghost use Rattle.raid_base.specs.declared.entry.Act.TheVariants as acts;
ghost use Rattle.raid_base.specs.declared.entry.Entry.TheVariants as entries;
ghost use Rattle.raid_base.specs.declared.entry.Noted.{Noted};
ghost use Rattle.raid_base.specs.declared.request.Request.{Request};
ghost use Rattle.raid_workload.specs.declared.workload.Workload.{Workload};
ghost use Rattle.raid_workload.specs.Parts as parts;
ghost use Rattle.raid_rules.specs.History as rules;
ghost use Rattle.raid_rules.specs.Verdicts.{reading, writing};
ghost use Rattle.raid_legal.specs.Seen as seen;
ghost use Rattle.raid_legal.specs.Answers as words;
ghost use Rattle.raid_legal.specs.InForce as rule;
ghost use Rattle.raid_faillock.specs.Stands as faillocks;
ghost use Rattle.raid_waits.specs.Waiting.{is_among};

use crate::homes::known_home;
use crate::sites::{site_refusal, up_holders};
use raid_base::{
    Act, Cause, Duplicate, Entry, Item, NoMemory, Pairs, Refusal, Request, Site, Sites, Txn,
    Vector, Verdict,
};
use raid_control::Blocks;
use raid_faillock::FailLocks;
use raid_waits::Waits;
use raid_workload::Workload;
use std::alloc::Global;

/// The cause that a controller's refusal gives to an abort.
fn cause_of(why: Refusal) -> Cause
    ensures { result ≡ words.cause_of why }
{
    match why {
        Refusal::Late => Cause::Late,
        Refusal::Invalid => Cause::Invalid,
        Refusal::Cycle => Cause::Cycle,
    }
}

/// The abort of a transaction that asked to read.
fn unread(txn: Txn, item: Item, cause: Cause) -> Entry
    ensures { result ≡ entries.Abort txn cause (acts.Read item) }
{
    Entry::Abort {
        txn,
        cause,
        act: Act::Read(item),
    }
}

/// The answer to a read, given the site to serve it, if there is one, and the verdict.
fn served(txn: Txn, item: Item, source: Option<Site>, verdict: Verdict) -> Entry
    ensures { result ≡ words.served txn item source verdict }
{
    match source {
        None => unread(txn, item, Cause::NoCopy),
        Some(site) => match verdict {
            Verdict::Reject(why) => unread(txn, item, cause_of(why)),
            Verdict::Wait | Verdict::Grant => Entry::Read { txn, item, site },
        },
    }
}

/// The entry that answers the read of a transaction, given the verdict of the controllers in force: a Read at its home where that is a
/// source, else at the least source; or an Abort where there is no source, or the verdict refuses. Takes no memory.
pub fn answer_read(
    workload: &Workload,
    locks: &FailLocks,
    txn: Txn,
    item: Item,
    verdict: Verdict,
) -> Entry
    requires { has_txn (parts.txns workload.now) txn ≡ true }
    ensures { (p : List Noted) → faillocks.Stands locks.now workload.now.sites (parts.placement workload.now) p → verdict ≡ rule.verdict workload.now p (reading txn (rules.stamp p txn) item) → result ≡ words.answer_read workload.now p txn item }
{
    let home = known_home(workload, txn);
    let source = locks.source_for(item, home);
    served(txn, item, source, verdict)
}

/// The abort of a transaction that asked to commit, with a copy of the request.
fn refused(
    alloc: Global,
    txn: Txn,
    cause: Cause,
    request: &Request,
) -> Result<Option<Entry>, NoMemory>
    ensures { IfOk result (λ e. e ≡ Some (entries.Abort txn cause (acts.Commit request.now))) }
{
    let request = request.copy(alloc)?;
    Ok(Some(Entry::Abort {
        txn,
        cause,
        act: Act::Commit(request),
    }))
}

/// The Commit, with a copy of the request.
fn granted(
    alloc: Global,
    txn: Txn,
    request: &Request,
    applied: Sites,
) -> Result<Option<Entry>, NoMemory>
    ensures { IfOk result (λ e. e ≡ Some (entries.Commit txn request.now applied)) }
{
    let request = request.copy(alloc)?;
    Ok(Some(Entry::Commit {
        txn,
        request,
        applied,
    }))
}

/// The Wait, with a copy of the request.
fn made_wait(alloc: Global, txn: Txn, request: &Request) -> Result<Option<Entry>, NoMemory>
    ensures { IfOk result (λ e. e ≡ Some (entries.Wait txn request.now)) }
{
    let request = request.copy(alloc)?;
    Ok(Some(Entry::Wait { txn, request }))
}

/// Whether a request with these writes, of a transaction that doesn't wait, would wait for itself through those that wait.
fn closes<B: Blocks>(waits: &mut Waits, blocks: &B, txn: Txn, writes: &Pairs) -> bool
    requires { is_among waits.old txn ≡ false }
    ensures closes { (w : Workload) (p : List Noted) (request : Request) → B.says blocks.now (λ u t ws. words.blocks w p u t ws) → waits.old ≡ rules.waiting p → request.writes ≡ writes.now → result ≡ words.closes_waits w p txn request }
    ensures same { waits.new ≡ waits.old }
{
    waits.closes_cycle(txn, writes, blocks)
}

/// What becomes of a request that can't be granted yet: nothing where it waits already, an Abort where it would close a cycle of waits,
/// else a Wait.
fn put_off<B: Blocks>(
    alloc: Global,
    waits: &mut Waits,
    blocks: &B,
    txn: Txn,
    request: &Request,
) -> Result<Option<Entry>, NoMemory>
    ensures answer { IfOk result (λ e. (w : Workload) (p : List Noted) → B.says blocks.now (λ u t ws. words.blocks w p u t ws) → waits.old ≡ rules.waiting p → e ≡ words.waits w p txn request.now) }
    ensures same { waits.new ≡ waits.old }
{
    if waits.is_waiting(txn) {
        return Ok(None);
    }
    if closes(waits, blocks, txn, &request.writes) {
        return refused(alloc, txn, Cause::Deadlock, request);
    }
    made_wait(alloc, txn, request)
}

/// The answer to a commit that the sites allow, given the verdict.
fn decided<B: Blocks>(
    alloc: Global,
    workload: &Workload,
    vector: Vector,
    waits: &mut Waits,
    blocks: &B,
    txn: Txn,
    request: &Request,
    verdict: Verdict,
) -> Result<Option<Entry>, NoMemory>
    ensures answer { IfOk result (λ e. (p : List Noted) → vector ≡ seen.vector workload.now p → B.says blocks.now (λ u t ws. words.blocks workload.now p u t ws) → waits.old ≡ rules.waiting p → e ≡ words.decided workload.now p txn request.now verdict) }
    ensures same { waits.new ≡ waits.old }
{
    match verdict {
        Verdict::Reject(why) => refused(alloc, txn, cause_of(why), request),
        Verdict::Grant => {
            let applied = up_holders(workload, vector, request.writes.as_slice());
            granted(alloc, txn, request, applied)
        }
        Verdict::Wait => put_off(alloc, waits, blocks, txn, request),
    }
}

/// The entry that answers a commit request, with a copy of it, given the verdict of the controllers in force and whom they block; None
/// where it waits already and goes on waiting. What the sites say comes before the verdict. The waiting requests stay as they were, after
/// want of memory too.
pub fn answer_commit<B: Blocks>(
    alloc: Global,
    workload: &Workload,
    locks: &FailLocks,
    waits: &mut Waits,
    blocks: &B,
    txn: Txn,
    request: &Request,
    verdict: Verdict,
) -> Result<Option<Entry>, NoMemory>
    ensures answer { IfOk result (λ e. (p : List Noted) → faillocks.Stands locks.now workload.now.sites (parts.placement workload.now) p → waits.old ≡ rules.waiting p → B.says blocks.now (λ u t ws. words.blocks workload.now p u t ws) → verdict ≡ rule.verdict workload.now p (writing txn (rules.stamp p txn) request.now.writes) → e ≡ words.answer_commit workload.now p txn request.now) }
    ensures same { waits.new ≡ waits.old }
{
    let vector = locks.vector();
    match site_refusal(workload, vector, request) {
        Some(why) => refused(alloc, txn, why, request),
        None => decided(
            alloc, workload, vector, waits, blocks, txn, request, verdict,
        ),
    }
}

/// The answer to a request that waits, where the sites allow it, given the verdict: none while it goes on waiting.
fn decided_waiting(
    alloc: Global,
    workload: &Workload,
    vector: Vector,
    txn: Txn,
    request: &Request,
    verdict: Verdict,
) -> Result<Option<Entry>, NoMemory>
    ensures { IfOk result (λ e. (p : List Noted) → vector ≡ seen.vector workload.now p → rules.is_waiting p txn ≡ true → e ≡ words.decided workload.now p txn request.now verdict) }
{
    match verdict {
        Verdict::Reject(why) => refused(alloc, txn, cause_of(why), request),
        Verdict::Grant => {
            let applied = up_holders(workload, vector, request.writes.as_slice());
            granted(alloc, txn, request, applied)
        }
        Verdict::Wait => Ok(None),
    }
}

/// The entry that answers the request of a transaction that waits, with a copy of it, given the verdict of the controllers in force; None
/// where it goes on waiting. No cycle is looked for: it was none when the request came to wait.
pub fn answer_waiting(
    alloc: Global,
    workload: &Workload,
    locks: &FailLocks,
    txn: Txn,
    request: &Request,
    verdict: Verdict,
) -> Result<Option<Entry>, NoMemory>
    ensures { IfOk result (λ e. (p : List Noted) → faillocks.Stands locks.now workload.now.sites (parts.placement workload.now) p → rules.is_waiting p txn ≡ true → verdict ≡ rule.verdict workload.now p (writing txn (rules.stamp p txn) request.now.writes) → e ≡ words.answer_commit workload.now p txn request.now) }
{
    let vector = locks.vector();
    match site_refusal(workload, vector, request) {
        Some(why) => refused(alloc, txn, why, request),
        None => decided_waiting(alloc, workload, vector, txn, request, verdict),
    }
}
