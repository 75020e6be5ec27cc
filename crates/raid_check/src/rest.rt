//! Whether nothing is left to do after a legal history.

ghost use Rattle.std.specs.Prelude.{◌≡◌, ◌≤◌, ◌+◌, ◌*◌, ◌==◌, ◌↔◌, not, true, length, IsTrue, IfOk};
ghost use Rattle.std.specs.List.{list_any, list_all};
ghost use Rattle.raid_workload.specs.declared.workload.Workload.{Workload};
ghost use Rattle.raid_workload.specs.Parts as parts;
ghost use Rattle.raid_rules.specs.History.{noted};
ghost use Rattle.raid_rules.specs.Sessions as sessions;
ghost use Rattle.raid_legal.specs.Seen.{sources};
ghost use Rattle.raid_legal.specs.Forced.{forced};
ghost use Rattle.raid_legal.specs.Switched as words;
ghost use Rattle.raid_check.specs.Replay.{AreOf, IsQuiet, Stands};

use crate::replay::Replay;
use crate::tables::Tables;
use raid_base::{Entry, Item, NoMemory, Site, Txn};
use raid_control::Controller;
use raid_record::homes::{attempt, home};
use raid_workload::Workload;
use std::alloc::Global;

/// How many transactions the workload has, attempts counted.
fn count(workload: &Workload) -> u32
    ensures is { result ≡ length workload.now.programs * (workload.now.restarts + 1) }
    ensures most { result ≤ 512000 }
{
    workload.programs.len() as u32 * (workload.restarts as u32 + 1)
}

/// Whether the transaction has begun, or needn't: a first attempt where its home is down, a later one where it isn't due.
fn is_served(tables: &Tables, workload: &Workload, txn: Txn) -> bool
    requires { AreOf workload.now tables.now }
    ensures { result ≡ words.is_served workload.now (noted tables.now.history) txn }
{
    if tables.history.stamp(txn) > 0 {
        return true;
    }
    if attempt(workload, txn) > 0 {
        !tables.left.is_again(workload, txn)
    } else {
        !tables.is_up(home(workload, txn))
    }
}

/// Whether each transaction has begun, or needn't.
fn are_served(tables: &Tables, workload: &Workload) -> bool
    requires { AreOf workload.now tables.now }
    ensures { result ≡ list_all (words.is_served workload.now (noted tables.now.history)) (parts.txns workload.now) }
{
    for number in 1..count(workload) + 1 {
        if !is_served(tables, workload, Txn(number)) {
            return false;
        }
    }
    true
}

/// Whether the item can be read somewhere.
fn has_source(tables: &Tables, workload: &Workload, site: Site, item: Item) -> bool
    requires of { AreOf workload.now tables.now }
    requires least { 1 ≤ site.0 }
    requires most { site.0 ≤ 8 }
    ensures { result ≡ not (length (sources workload.now (noted tables.now.history) item) == 0) }
{
    match tables.locks.source_for(item, site) {
        Some(_) => true,
        None => false,
    }
}

/// Whether the site is down, or its copy of the item isn't locked, or there is nobody to renew it from.
fn is_settled(tables: &Tables, workload: &Workload, site: Site, item: Item) -> bool
    requires of { AreOf workload.now tables.now }
    requires least { 1 ≤ site.0 }
    requires most { site.0 ≤ 8 }
    ensures { result ≡ words.is_settled workload.now (noted tables.now.history) site item }
{
    if !tables.is_up(site) {
        return true;
    }
    if !tables.is_locked(workload, site, item) {
        return true;
    }
    !has_source(tables, workload, site, item)
}

/// Whether all copies of the site are.
fn are_settled_at(tables: &Tables, workload: &Workload, site: Site) -> bool
    requires of { AreOf workload.now tables.now }
    requires least { 1 ≤ site.0 }
    requires most { site.0 ≤ 8 }
    ensures { result ≡ list_all (words.is_settled workload.now (noted tables.now.history) site) (parts.items workload.now) }
{
    for place in 0..workload.items.len() {
        if !is_settled(tables, workload, site, Item(place as u16)) {
            return false;
        }
    }
    true
}

/// Whether all copies are.
fn are_settled(tables: &Tables, workload: &Workload) -> bool
    requires { AreOf workload.now tables.now }
    ensures { result ≡ list_all (λ s. list_all (words.is_settled workload.now (noted tables.now.history) s) (parts.items workload.now)) (parts.sites workload.now) }
{
    for number in 1..workload.sites + 1 {
        if !are_settled_at(tables, workload, Site(number)) {
            return false;
        }
    }
    true
}

/// Whether the site owes an acknowledgement.
fn owes_any(tables: &Tables, workload: &Workload, site: Site) -> bool
    requires { AreOf workload.now tables.now }
    ensures { result ≡ list_any (sessions.owes (noted tables.now.history) site) (parts.txns workload.now) }
{
    for number in 1..count(workload) + 1 {
        if tables.owes(workload, site, Txn(number)) {
            return true;
        }
    }
    false
}

/// Whether some site does.
fn is_any_owed(tables: &Tables, workload: &Workload) -> bool
    requires { AreOf workload.now tables.now }
    ensures { result ≡ list_any (λ s. list_any (sessions.owes (noted tables.now.history) s) (parts.txns workload.now)) (parts.sites workload.now) }
{
    for number in 1..workload.sites + 1 {
        if owes_any(tables, workload, Site(number)) {
            return true;
        }
    }
    false
}

/// Whether nobody runs, each transaction has begun or needn't, all copies are settled, and nobody owes an acknowledgement.
fn is_quiet(tables: &Tables, workload: &Workload) -> bool
    requires { AreOf workload.now tables.now }
    ensures { IsTrue result ↔ IsQuiet workload.now (noted tables.now.history) }
{
    let running = tables.history.running();
    if !running.is_empty() {
        return false;
    }
    if !are_served(tables, workload) {
        return false;
    }
    if is_any_owed(tables, workload) {
        return false;
    }
    are_settled(tables, workload)
}

/// Whether nothing is left to do, given the entry that must come next, if one must.
fn is_done(tables: &Tables, workload: &Workload, must: &Option<Entry>) -> bool
    requires of { AreOf workload.now tables.now }
    requires must { must.now ≡ forced workload.now (noted tables.now.history) }
    ensures { IsTrue result ↔ words.Finished workload.now tables.now.history }
{
    match must {
        Some(_) => false,
        None => is_quiet(tables, workload),
    }
}

/// Whether nothing is left to do: no entry is forced and nobody runs; each transaction has had its one Begin and one end, or needn't; no
/// copy at an up site could be renewed; and no site owes an acknowledgement. That nobody begins or ends twice is known of a legal history.
pub fn is_finished(
    alloc: Global,
    workload: &Workload,
    replay: &mut Replay,
) -> Result<bool, NoMemory>
    requires { Stands ⟦<dyn Controller as Controller>⟧ workload.now replay.old }
    ensures { IfOk result (λ b. IsTrue b ↔ words.Finished workload.now replay.old.tables.history) }
{
    let must = replay.forced(alloc, workload)?;
    Ok(is_done(&replay.tables, workload, &must))
}
