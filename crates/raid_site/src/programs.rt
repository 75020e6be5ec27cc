//! The programs that run at a site: they begin and go on, they ask for votes and to commit.

ghost use Rattle.std.specs.Prelude.{List, ◌≡◌, ◌≤◌, ◌<◌, ◌+◌, ◌++◌, ◌∷◌, ◌&&◌, [], length, map, filter, fold, slice_get, Some, true, false, IsTrue, IfOk, OnOk, if◌then◌else◌};
ghost use Rattle.raid_base.specs.Names.{has_txn, has_site};
ghost use Rattle.raid_workload.specs.declared.workload.Workload.{Workload};
ghost use Rattle.raid_legal.specs.Seen as seen;
ghost use Rattle.raid_steps.specs.Programs as steps;
ghost use Rattle.raid_access.specs.Stock.{staging};
ghost use Rattle.raid_driver.specs.Drive.{Ascends, txns_of, may_ask};
ghost use Rattle.raid_driver.specs.Drive as drive;
ghost use Rattle.raid_vote.specs.Ballots.{started, close};
ghost use Rattle.raid_site.specs.Whole as whole;
ghost use Rattle.raid_steps.specs.State.{Out};
ghost use Rattle.raid_site.specs.Whole.{turn, state_of, Same, IsLive, IsWhole, prepared, prepared_outs, settled};

use crate::holding::{held_by, holds_some, voters};
use crate::parts::Parts;
use raid_access::Copies;
use raid_base::{Duplicate, NoMemory, Pairs, Request, Site, Sites, Txn, Vector};
use raid_message::{Message, Outs};
use raid_session::sets;
use raid_vote::Ballots;
use raid_workload::Workload;
use std::alloc::Global;

/// The server number of the sequencer.
const SEQUENCER: u16 = 1;

/// The programs that run ascend by number. Does nothing: what it says is its contract.
pub fn ascends(parts: &Parts)
    ensures { parts.now.driver.finished ≡ false → Ascends (txns_of parts.now.driver.running) }
{
    let _running = parts.driver.running();
}

/// How many programs run.
fn count(parts: &Parts) -> usize
    requires { parts.now.driver.finished ≡ false }
    ensures { result ≡ length parts.now.driver.running }
{
    parts.driver.running().len()
}

/// The transaction of the program at this place among those that run, counted from 0.
fn txn_at(parts: &Parts, place: usize) -> Txn
    requires live { parts.now.driver.finished ≡ false }
    requires within { place < length parts.now.driver.running }
    ensures { slice_get (txns_of parts.now.driver.running) place ≡ Some result }
{
    *parts.driver.running().get(place)
}

/// Whether the list has the transaction.
fn has(txns: &[Txn], txn: Txn) -> bool
    ensures { result ≡ has_txn txns.now txn }
{
    txns.iter().any(|other| *other == txn)
}

/// Whether both hold.
pub fn both(first: bool, second: bool) -> bool
    ensures { result ≡ (first && second) }
{
    first && second
}

/// Whether the transaction's program runs here.
pub fn runs_here(parts: &Parts, txn: Txn) -> bool
    requires { parts.now.driver.finished ≡ false }
    ensures { result ≡ has_txn (txns_of parts.now.driver.running) txn }
{
    has(parts.driver.running().as_slice(), txn)
}

/// Whether the transaction's program is done.
pub fn is_over(parts: &Parts, txn: Txn) -> bool
    requires { parts.now.driver.finished ≡ false }
    ensures { result ≡ whole.is_over parts.now txn }
{
    has(parts.driver.prepared().as_slice(), txn)
}

/// Stages the site's own part of a transaction's writes, if it has one.
fn stage_own(
    copies: &mut Copies,
    alloc: Global,
    workload: &Workload,
    site: Site,
    txn: Txn,
    writes: &Pairs,
) -> Result<(), NoMemory>
    requires least { 1 ≤ site.0 }
    requires most { site.0 ≤ 8 }
    ensures { OnOk result (copies.new ≡ (if seen.holds_some workload.now writes.now site then staging copies.old txn (steps.held_by workload.now site writes.now) else copies.old)) }
{
    if !holds_some(workload, writes.as_slice(), site) {
        return Ok(());
    }
    let own = held_by(alloc, workload, site, writes.as_slice())?;
    copies.stage(txn, &own)
}

/// Opens the transaction's ballot, in place of the one that it had.
fn open_ballot(ballots: &mut Ballots, txn: Txn, sites: Sites)
    requires { length (close txn ballots.old).ballots < ballots.old.room }
    ensures { ballots.new ≡ started txn sites (close txn ballots.old) }
{
    ballots.close(txn);
    ballots.start(txn, sites);
}

/// Asks a site to stage its part of a transaction's writes and to vote.
fn ask_vote(
    alloc: Global,
    workload: &Workload,
    vector: Vector,
    txn: Txn,
    writes: &Pairs,
    site: Site,
    outs: &mut Outs,
) -> Result<(), NoMemory>
    requires least { 1 ≤ site.0 }
    requires most { site.0 ≤ 8 }
    ensures { OnOk result (outs.new ≡ outs.old ++ steps.prepare_out workload.now vector txn writes.now site ∷ []) }
{
    let part = held_by(alloc, workload, site, writes.as_slice())?;
    let message = Message::Prepare { txn, writes: part };
    outs.push((site.0 as u16 + 1, vector.session(site), message))
}

/// Asks the site where it is one of the sites.
fn ask_vote_of(
    alloc: Global,
    workload: &Workload,
    vector: Vector,
    txn: Txn,
    writes: &Pairs,
    sites: Sites,
    site: Site,
    outs: &mut Outs,
) -> Result<(), NoMemory>
    requires least { 1 ≤ site.0 }
    requires most { site.0 ≤ 8 }
    ensures { OnOk result (outs.new ≡ outs.old ++ map (steps.prepare_out workload.now vector txn writes.now) (filter (has_site sites) (site ∷ []))) }
{
    if !sites.contains(site) {
        return Ok(());
    }
    ask_vote(alloc, workload, vector, txn, writes, site, outs)
}

/// Asks each of the sites, the least first.
fn ask_votes(
    alloc: Global,
    workload: &Workload,
    vector: Vector,
    txn: Txn,
    writes: &Pairs,
    sites: Sites,
    outs: &mut Outs,
) -> Result<(), NoMemory>
    ensures { OnOk result (outs.new ≡ outs.old ++ map (steps.prepare_out workload.now vector txn writes.now) sites) }
{
    sets::ascends(sites);
    for number in 1..9 {
        ask_vote_of(
            alloc,
            workload,
            vector,
            txn,
            writes,
            sites,
            Site(number),
            outs,
        )?;
    }
    Ok(())
}

/// Prepares the commit of a transaction whose program is done.
fn prepare(
    parts: &mut Parts,
    alloc: Global,
    workload: &Workload,
    txn: Txn,
    outs: &mut Outs,
) -> Result<(), NoMemory>
    requires live { IsLive workload.now parts.old }
    requires whole { IsWhole workload.now parts.old }
    requires runs { IsTrue (has_txn (txns_of parts.old.driver.running) txn) }
    ensures parts { OnOk result (parts.new ≡ prepared workload.now parts.old txn) }
    ensures outs { OnOk result (outs.new ≡ outs.old ++ prepared_outs workload.now parts.old txn) }
    ensures driver { parts.new.driver ≡ parts.old.driver }
{
    let writes = parts.driver.writes(txn);
    let sites = voters(workload, parts.vector, parts.site, writes.as_slice());
    stage_own(&mut parts.copies, alloc, workload, parts.site, txn, writes)?;
    open_ballot(&mut parts.ballots, txn, sites);
    ask_votes(alloc, workload, parts.vector, txn, writes, sites, outs)
}

/// Prepares the transaction's commit where that is wanted.
fn settle(
    parts: &mut Parts,
    alloc: Global,
    workload: &Workload,
    txn: Txn,
    wanted: bool,
    outs: &mut Outs,
) -> Result<(), NoMemory>
    requires live { IsLive workload.now parts.old }
    requires whole { IsWhole workload.now parts.old }
    requires runs { wanted ≡ true → has_txn (txns_of parts.old.driver.running) txn ≡ true }
    ensures ok { OnOk result (turn parts.new outs.new ≡ settled workload.now parts.old outs.old txn wanted) }
    ensures live { OnOk result (IsLive workload.now parts.new) }
    ensures whole { OnOk result (IsWhole workload.now parts.new) }
    ensures driver { parts.new.driver ≡ parts.old.driver }
{
    if wanted {
        return prepare(parts, alloc, workload, txn, outs);
    }
    Ok(())
}

/// A value for an ask of a transaction comes: its program goes on where that is its outstanding one.
pub fn give(
    parts: &mut Parts,
    alloc: Global,
    workload: &Workload,
    txn: Txn,
    ask: u32,
    value: i64,
    outs: &mut Outs,
) -> Result<(), NoMemory>
    requires live { IsLive workload.now parts.old }
    requires whole { IsWhole workload.now parts.old }
    requires asks { IsTrue (may_ask parts.old.driver.running) }
    ensures ok { OnOk result (turn parts.new outs.new ≡ steps.give workload.now (turn parts.old outs.old) txn ask value) }
    ensures live { OnOk result (IsLive workload.now parts.new) }
    ensures whole { OnOk result (IsWhole workload.now parts.new) }
{
    ascends(parts);
    let was = is_over(parts, txn);
    parts.driver.value(workload, txn, ask, value, outs)?;
    let now = is_over(parts, txn);
    let wanted = both(!was, now);
    settle(parts, alloc, workload, txn, wanted, outs)
}

/// The next transaction begins, if one is left.
fn begin_next(
    parts: &mut Parts,
    alloc: Global,
    workload: &Workload,
    outs: &mut Outs,
) -> Result<(), NoMemory>
    requires live { IsLive workload.now parts.old }
    requires whole { IsWhole workload.now parts.old }
    requires room { length parts.old.driver.running < workload.now.together }
    ensures ok { OnOk result (turn parts.new outs.new ≡ steps.begin_next workload.now (turn parts.old outs.old)) }
    ensures live { OnOk result (IsLive workload.now parts.new) }
    ensures whole { OnOk result (IsWhole workload.now parts.new) }
    ensures more { OnOk result (length parts.new.driver.running ≤ length parts.old.driver.running + 1) }
{
    ascends(parts);
    let begun = parts.driver.begin_next(alloc, workload, outs)?;
    match begun {
        Some(txn) => {
            let over = is_over(parts, txn);
            settle(parts, alloc, workload, txn, over, outs)
        }
        None => Ok(()),
    }
}

/// Transactions begin until as many run as may at once, or none is left.
pub fn start(
    parts: &mut Parts,
    alloc: Global,
    workload: &Workload,
    outs: &mut Outs,
) -> Result<(), NoMemory>
    requires live { IsLive workload.now parts.old }
    requires whole { IsWhole workload.now parts.old }
    ensures ok { OnOk result (turn parts.new outs.new ≡ steps.start workload.now (turn parts.old outs.old)) }
    ensures live { OnOk result (IsLive workload.now parts.new) }
    ensures whole { OnOk result (IsWhole workload.now parts.new) }
{
    let free = (workload.together as usize).saturating_sub(count(parts));
    for _ in 0..free {
        begin_next(parts, alloc, workload, outs)?;
    }
    Ok(())
}

/// Whether the transaction is in preparation, and awaits no vote any more.
fn is_due(parts: &Parts, txn: Txn) -> bool
    requires { parts.now.driver.finished ≡ false }
    ensures { result ≡ whole.is_due parts.now txn }
{
    parts.ballots.is_open(txn) && parts.ballots.is_ready(txn) && is_over(parts, txn)
}

/// What the transaction asks to commit, under the vector that the site knows.
fn commit_request(parts: &Parts, alloc: Global, txn: Txn) -> Result<Message, NoMemory>
    ensures { IfOk result (λ m. (1, 0, m) ≡ whole.commit_out parts.now txn) }
{
    let reads = parts.driver.reads(txn).copy(alloc)?;
    let writes = parts.driver.writes(txn).copy(alloc)?;
    let request = Request {
        reads,
        writes,
        under: parts.vector,
    };
    Ok(Message::CommitAsk { txn, request })
}

/// The transaction asks to commit, where it is due.
fn ask_commit(parts: &mut Parts, alloc: Global, txn: Txn, outs: &mut Outs) -> Result<(), NoMemory>
    requires { parts.old.driver.finished ≡ false }
    ensures ok { OnOk result (turn parts.new outs.new ≡ whole.committing parts.old outs.old txn (whole.is_due parts.old txn)) }
    ensures driver { parts.new.driver ≡ parts.old.driver }
    ensures site { parts.new.site ≡ parts.old.site }
    ensures vector { parts.new.vector ≡ parts.old.vector }
    ensures others { OnOk result (Same txn parts.old.ballots.ballots parts.new.ballots.ballots) }
    ensures whole { (w : Workload) → IsWhole w parts.old → OnOk result (IsWhole w parts.new) }
{
    if !is_due(parts, txn) {
        return Ok(());
    }
    let message = commit_request(parts, alloc, txn)?;
    parts.ballots.close(txn);
    outs.push((SEQUENCER, 0, message))
}

/// Each transaction of which no vote is awaited any more asks to commit, the least first.
pub fn ask_commits(
    parts: &mut Parts,
    alloc: Global,
    workload: &Workload,
    outs: &mut Outs,
) -> Result<(), NoMemory>
    requires live { IsLive workload.now parts.old }
    requires whole { IsWhole workload.now parts.old }
    ensures ok { OnOk result (turn parts.new outs.new ≡ steps.ask_commits (turn parts.old outs.old)) }
    ensures live { OnOk result (IsLive workload.now parts.new) }
    ensures whole { OnOk result (IsWhole workload.now parts.new) }
{
    if !parts.ballots.is_any_ready() {
        return Ok(());
    }
    ascends(parts);
    for place in 0..count(parts) {
        let txn = txn_at(parts, place);
        ask_commit(parts, alloc, txn, outs)?;
    }
    Ok(())
}

/// The transaction has ended here.
fn end(parts: &mut Parts, txn: Txn)
    ensures ok { (outs : List Out) → turn parts.new outs ≡ steps.ended (turn parts.old outs) txn }
    ensures ascends { parts.new.driver.finished ≡ false → Ascends (txns_of parts.new.driver.running) }
    ensures parts { parts.new ≡ record (parts.old) { driver = drive.ended parts.old.driver txn; ballots = close txn parts.old.ballots } }
    ensures whole { (w : Workload) → IsWhole w parts.old → IsWhole w parts.new }
{
    parts.driver.ended(txn);
    parts.ballots.close(txn);
    ascends(parts);
}

/// The transaction has ended here, and others may begin.
pub fn end_row(
    parts: &mut Parts,
    alloc: Global,
    workload: &Workload,
    txn: Txn,
    outs: &mut Outs,
) -> Result<(), NoMemory>
    requires live { IsLive workload.now parts.old }
    requires whole { IsWhole workload.now parts.old }
    ensures ok { OnOk result (turn parts.new outs.new ≡ steps.start workload.now (steps.ended (turn parts.old outs.old) txn)) }
    ensures live { OnOk result (IsLive workload.now parts.new) }
    ensures whole { OnOk result (IsWhole workload.now parts.new) }
{
    end(parts, txn);
    start(parts, alloc, workload, outs)
}

/// The transaction has ended here, and the next attempt at its program begins.
fn begin_again(
    parts: &mut Parts,
    alloc: Global,
    workload: &Workload,
    txn: Txn,
    outs: &mut Outs,
) -> Result<(), NoMemory>
    requires live { IsLive workload.now parts.old }
    requires whole { IsWhole workload.now parts.old }
    requires runs { IsTrue (has_txn (txns_of parts.old.driver.running) txn) }
    requires left { seen.attempt workload.now txn < workload.now.restarts }
    ensures ok { OnOk result (turn parts.new outs.new ≡ steps.begin workload.now (steps.ended (turn parts.old outs.old) txn) (steps.next_attempt workload.now txn)) }
    ensures live { OnOk result (IsLive workload.now parts.new) }
    ensures whole { OnOk result (IsWhole workload.now parts.new) }
{
    ascends(parts);
    parts.driver.again(alloc, workload, txn, outs)?;
    parts.ballots.close(txn);
    let next = Txn(txn.0 + workload.programs.len() as u32);
    let over = is_over(parts, next);
    settle(parts, alloc, workload, next, over, outs)
}

/// The transaction has ended here, and the next attempt at its program begins where that is wanted.
pub fn end_or_again(
    parts: &mut Parts,
    alloc: Global,
    workload: &Workload,
    txn: Txn,
    again: bool,
    outs: &mut Outs,
) -> Result<(), NoMemory>
    requires live { IsLive workload.now parts.old }
    requires whole { IsWhole workload.now parts.old }
    requires runs { again ≡ true → has_txn (txns_of parts.old.driver.running) txn ≡ true }
    requires left { again ≡ true → seen.attempt workload.now txn < workload.now.restarts }
    ensures ok { OnOk result (turn parts.new outs.new ≡ (if again then steps.begin workload.now (steps.ended (turn parts.old outs.old) txn) (steps.next_attempt workload.now txn) else steps.ended (turn parts.old outs.old) txn)) }
    ensures live { OnOk result (IsLive workload.now parts.new) }
    ensures whole { OnOk result (IsWhole workload.now parts.new) }
{
    if again {
        return begin_again(parts, alloc, workload, txn, outs);
    }
    end(parts, txn);
    Ok(())
}

/// Whether the transaction is in preparation, and writes an item that the site holds.
fn is_joined(parts: &Parts, workload: &Workload, txn: Txn, site: Site) -> bool
    requires live { parts.now.driver.finished ≡ false }
    requires least { 1 ≤ site.0 }
    requires most { site.0 ≤ 8 }
    ensures { result ≡ whole.is_joined workload.now parts.now txn site }
{
    is_over(parts, txn)
        && parts.ballots.is_open(txn)
        && holds_some(workload, parts.driver.writes(txn).as_slice(), site)
}

/// The site, which has come up, joins the transaction's preparation where that concerns it.
fn join(
    parts: &mut Parts,
    alloc: Global,
    workload: &Workload,
    txn: Txn,
    site: Site,
    outs: &mut Outs,
) -> Result<(), NoMemory>
    requires live { parts.old.driver.finished ≡ false }
    requires least { 1 ≤ site.0 }
    requires most { site.0 ≤ 8 }
    ensures ok { OnOk result (turn parts.new outs.new ≡ whole.joining workload.now parts.old outs.old txn site (whole.is_joined workload.now parts.old txn site)) }
    ensures driver { parts.new.driver ≡ parts.old.driver }
    ensures site { parts.new.site ≡ parts.old.site }
    ensures vector { parts.new.vector ≡ parts.old.vector }
    ensures others { OnOk result (Same txn parts.old.ballots.ballots parts.new.ballots.ballots) }
    ensures whole { (w : Workload) → IsWhole w parts.old → OnOk result (IsWhole w parts.new) }
{
    if !is_joined(parts, workload, txn, site) {
        return Ok(());
    }
    parts.ballots.up(txn, site);
    let writes = parts.driver.writes(txn);
    ask_vote(alloc, workload, parts.vector, txn, writes, site, outs)
}

/// The site joins each preparation that concerns it, the least transaction's first.
pub fn join_all(
    parts: &mut Parts,
    alloc: Global,
    workload: &Workload,
    site: Site,
    outs: &mut Outs,
) -> Result<(), NoMemory>
    requires live { IsLive workload.now parts.old }
    requires whole { IsWhole workload.now parts.old }
    requires least { 1 ≤ site.0 }
    requires most { site.0 ≤ 8 }
    ensures ok { OnOk result (turn parts.new outs.new ≡ fold (λ now r. steps.join workload.now site now r r.phase) (turn parts.old outs.old) (state_of parts.old).running) }
    ensures live { OnOk result (IsLive workload.now parts.new) }
    ensures whole { OnOk result (IsWhole workload.now parts.new) }
{
    ascends(parts);
    for place in 0..count(parts) {
        let txn = txn_at(parts, place);
        join(parts, alloc, workload, txn, site, outs)?;
    }
    Ok(())
}
