//! What a site does with each letter: a function for each row of the step table, in the order of the definitions.

ghost use Rattle.std.specs.Prelude.{◌≡◌, ◌≤◌, ◌<◌, length, replicate, true, [], IsTrue, OnOk};
ghost use Rattle.std.specs.List.{list_any};
ghost use Rattle.raid_base.specs.Names.{is_txn, is_item};
ghost use Rattle.raid_legal.specs.Seen.{attempt};
ghost use Rattle.raid_steps.specs.Site as steps;
ghost use Rattle.raid_driver.specs.Drive.{may_ask};
ghost use Rattle.raid_site.specs.Whole.{turn, state_of, IsLive, IsWhole};

use crate::parts::Parts;
use crate::programs::{ascends, both, end_or_again, end_row, give, join_all, runs_here, start};
use raid_access::Held;
use raid_base::{Answer, Item, NoMemory, Pairs, Site, Txn, Vector};
use raid_message::{Letter, Message, Outs};
use raid_session::{after_down, after_up};
use raid_workload::Workload;
use std::alloc::Global;

/// The server number of the monitor.
const MONITOR: u16 = 0;

/// The server number of the sequencer.
const SEQUENCER: u16 = 1;

// Letters of the sequencer.

/// The site knows the vector and what it begins next, and starts.
pub fn welcome_row(
    parts: &mut Parts,
    alloc: Global,
    workload: &Workload,
    vector: Vector,
    next: u32,
    outs: &mut Outs,
) -> Result<(), NoMemory>
    requires live { IsLive workload.now parts.old }
    requires whole { IsWhole workload.now parts.old }
    requires count { length vector ≡ workload.now.sites }
    requires none { length parts.old.driver.running ≡ 0 }
    ensures ok { OnOk result (turn parts.new outs.new ≡ steps.welcome_row workload.now (turn parts.old outs.old) vector next) }
    ensures live { OnOk result (IsLive workload.now parts.new) }
    ensures whole { OnOk result (IsWhole workload.now parts.new) }
{
    parts.vector = vector;
    parts.driver.reset(next);
    parts.ballots.clear();
    start(parts, alloc, workload, outs)
}

/// The value of a copy goes to the program here that asked, or else to its home.
pub fn read_row(
    parts: &mut Parts,
    alloc: Global,
    workload: &Workload,
    txn: Txn,
    ask: u32,
    item: Item,
    home: Site,
    home_session: u32,
    outs: &mut Outs,
) -> Result<(), NoMemory>
    requires live { IsLive workload.now parts.old }
    requires whole { IsWhole workload.now parts.old }
    requires asks { IsTrue (may_ask parts.old.driver.running) }
    requires holds { IsTrue (list_any (λ c. is_item item c.item) parts.old.copies.copies) }
    ensures ok { OnOk result (turn parts.new outs.new ≡ steps.read_row workload.now (turn parts.old outs.old) txn ask item home home_session) }
    ensures live { OnOk result (IsLive workload.now parts.new) }
    ensures whole { OnOk result (IsWhole workload.now parts.new) }
{
    let held = parts.copies.read(item);
    if home == parts.site {
        return give(parts, alloc, workload, txn, ask, held.value, outs);
    }
    let message = Message::Value {
        txn,
        ask,
        value: held.value,
    };
    outs.push((home.0 as u16 + 1, home_session, message))
}

/// The site that serves an ask is noted.
pub fn serving_row(
    parts: &mut Parts,
    workload: &Workload,
    txn: Txn,
    ask: u32,
    site: Site,
    outs: &Outs,
)
    requires live { IsLive workload.now parts.old }
    requires whole { IsWhole workload.now parts.old }
    ensures ok { turn parts.new outs.now ≡ steps.serving_row (turn parts.old outs.now) txn ask site }
    ensures live { IsLive workload.now parts.new }
    ensures whole { IsWhole workload.now parts.new }
{
    ascends(parts);
    parts.driver.serving(txn, ask, site);
}

/// The staged writes become the copies, and that is acknowledged.
pub fn apply_row(
    parts: &mut Parts,
    workload: &Workload,
    txn: Txn,
    number: u32,
    outs: &mut Outs,
) -> Result<(), NoMemory>
    requires live { IsLive workload.now parts.old }
    requires whole { IsWhole workload.now parts.old }
    requires staged { IsTrue (list_any (λ e. is_txn txn e.0) parts.old.copies.staged) }
    ensures ok { OnOk result (turn parts.new outs.new ≡ steps.apply_row (turn parts.old outs.old) txn number) }
    ensures live { OnOk result (IsLive workload.now parts.new) }
    ensures whole { OnOk result (IsWhole workload.now parts.new) }
{
    parts.copies.apply(txn, number);
    outs.push((SEQUENCER, 0, Message::Ack { txn }))
}

/// The transaction has ended here, and others may begin.
pub fn done_row(
    parts: &mut Parts,
    alloc: Global,
    workload: &Workload,
    txn: Txn,
    outs: &mut Outs,
) -> Result<(), NoMemory>
    requires live { IsLive workload.now parts.old }
    requires whole { IsWhole workload.now parts.old }
    ensures ok { OnOk result (turn parts.new outs.new ≡ steps.done_row workload.now (turn parts.old outs.old) txn) }
    ensures live { OnOk result (IsLive workload.now parts.new) }
    ensures whole { OnOk result (IsWhole workload.now parts.new) }
{
    end_row(parts, alloc, workload, txn, outs)
}

/// What is staged for the transaction is dropped; where it ran here it has ended, and begins again as told; then others may
/// begin.
pub fn drop_row(
    parts: &mut Parts,
    alloc: Global,
    workload: &Workload,
    txn: Txn,
    again: bool,
    outs: &mut Outs,
) -> Result<(), NoMemory>
    requires live { IsLive workload.now parts.old }
    requires whole { IsWhole workload.now parts.old }
    requires left { again ≡ true → attempt workload.now txn < workload.now.restarts }
    ensures ok { OnOk result (turn parts.new outs.new ≡ steps.drop_row workload.now (turn parts.old outs.old) txn again) }
    ensures live { OnOk result (IsLive workload.now parts.new) }
    ensures whole { OnOk result (IsWhole workload.now parts.new) }
{
    let here = runs_here(parts, txn);
    let again = both(here, again);
    parts.copies.drop_staged(txn);
    end_or_again(parts, alloc, workload, txn, again, outs)?;
    start(parts, alloc, workload, outs)
}

/// The site is down in the vector, and each program loses what it awaited of it.
pub fn down_row(
    parts: &mut Parts,
    workload: &Workload,
    site: Site,
    outs: &mut Outs,
) -> Result<(), NoMemory>
    requires live { IsLive workload.now parts.old }
    requires whole { IsWhole workload.now parts.old }
    requires asks { IsTrue (may_ask parts.old.driver.running) }
    requires least { 1 ≤ site.0 }
    requires most { site.0 ≤ 8 }
    requires known { site.0 ≤ length parts.old.vector }
    ensures ok { OnOk result (turn parts.new outs.new ≡ steps.down_row (turn parts.old outs.old) site) }
    ensures live { OnOk result (IsLive workload.now parts.new) }
    ensures whole { OnOk result (IsWhole workload.now parts.new) }
{
    ascends(parts);
    parts.vector = after_down(parts.vector, site);
    parts.driver.down(site, outs)?;
    parts.ballots.down(site);
    Ok(())
}

/// The site is up in the vector, and joins each preparation that concerns it.
pub fn up_row(
    parts: &mut Parts,
    alloc: Global,
    workload: &Workload,
    site: Site,
    session: u32,
    outs: &mut Outs,
) -> Result<(), NoMemory>
    requires live { IsLive workload.now parts.old }
    requires whole { IsWhole workload.now parts.old }
    requires least { 1 ≤ site.0 }
    requires most { site.0 ≤ 8 }
    requires known { site.0 ≤ length parts.old.vector }
    ensures ok { OnOk result (turn parts.new outs.new ≡ steps.up_row workload.now (turn parts.old outs.old) site session) }
    ensures live { OnOk result (IsLive workload.now parts.new) }
    ensures whole { OnOk result (IsWhole workload.now parts.new) }
{
    parts.vector = after_up(parts.vector, site, session);
    join_all(parts, alloc, workload, site, outs)
}

/// The copy goes to the target.
pub fn copy_row(
    parts: &Parts,
    item: Item,
    target: Site,
    session: u32,
    outs: &mut Outs,
) -> Result<(), NoMemory>
    requires holds { IsTrue (list_any (λ c. is_item item c.item) parts.now.copies.copies) }
    ensures { OnOk result (turn parts.now outs.new ≡ steps.copy_row (turn parts.now outs.old) item target session) }
{
    let Held { value, version } = parts.copies.read(item);
    let message = Message::CopyValue {
        item,
        value,
        version,
    };
    outs.push((target.0 as u16 + 1, session, message))
}

// Letters of another site.

/// A value comes: it goes to the program that asked.
pub fn value_row(
    parts: &mut Parts,
    alloc: Global,
    workload: &Workload,
    txn: Txn,
    ask: u32,
    value: i64,
    outs: &mut Outs,
) -> Result<(), NoMemory>
    requires live { IsLive workload.now parts.old }
    requires whole { IsWhole workload.now parts.old }
    requires asks { IsTrue (may_ask parts.old.driver.running) }
    ensures ok { OnOk result (turn parts.new outs.new ≡ steps.value_row workload.now (turn parts.old outs.old) txn ask value) }
    ensures live { OnOk result (IsLive workload.now parts.new) }
    ensures whole { OnOk result (IsWhole workload.now parts.new) }
{
    give(parts, alloc, workload, txn, ask, value, outs)
}

/// The writes are staged, and the vote is yes.
pub fn prepare_row(
    parts: &mut Parts,
    workload: &Workload,
    txn: Txn,
    writes: &Pairs,
    site: Site,
    session: u32,
    outs: &mut Outs,
) -> Result<(), NoMemory>
    requires live { IsLive workload.now parts.old }
    requires whole { IsWhole workload.now parts.old }
    ensures ok { OnOk result (turn parts.new outs.new ≡ steps.prepare_row (turn parts.old outs.old) txn writes.now site session) }
    ensures live { OnOk result (IsLive workload.now parts.new) }
    ensures whole { OnOk result (IsWhole workload.now parts.new) }
{
    parts.copies.stage(txn, writes)?;
    let message = Message::Vote {
        txn,
        answer: Answer::Yes,
    };
    outs.push((site.0 as u16 + 1, session, message))
}

/// A yes counts where it is of the voter's session in the vector; a no counts for nothing.
pub fn vote_row(
    parts: &mut Parts,
    workload: &Workload,
    txn: Txn,
    site: Site,
    session: u32,
    answer: Answer,
    outs: &Outs,
)
    requires least { 1 ≤ site.0 }
    requires most { site.0 ≤ 8 }
    requires live { IsLive workload.now parts.old }
    requires whole { IsWhole workload.now parts.old }
    ensures ok { turn parts.new outs.now ≡ steps.vote_row (turn parts.old outs.now) txn site session answer }
    ensures live { IsLive workload.now parts.new }
    ensures whole { IsWhole workload.now parts.new }
{
    ascends(parts);
    match answer {
        Answer::Yes => {
            if parts.vector.session(site) == session {
                parts.ballots.vote(txn, site);
            }
        }
        Answer::No { .. } => {}
    }
}

/// A copy is renewed, unless it has a larger version, and that is told.
pub fn copied_row(
    parts: &mut Parts,
    workload: &Workload,
    item: Item,
    value: i64,
    version: u32,
    outs: &mut Outs,
) -> Result<(), NoMemory>
    requires live { IsLive workload.now parts.old }
    requires whole { IsWhole workload.now parts.old }
    ensures ok { OnOk result (turn parts.new outs.new ≡ steps.copied_row (turn parts.old outs.old) item value version) }
    ensures live { OnOk result (IsLive workload.now parts.new) }
    ensures whole { OnOk result (IsWhole workload.now parts.new) }
{
    if !parts.copies.refresh(item, value, version) {
        return Ok(());
    }
    outs.push((SEQUENCER, 0, Message::CopyDone { item, version }))
}

/// A letter of another site that is meant for an old session: only a Prepare is answered, with both sessions.
pub fn refuse(parts: &Parts, from: u16, letter: &Letter, outs: &mut Outs) -> Result<(), NoMemory>
    requires none { outs.old ≡ [] }
    ensures ok { OnOk result (turn parts.now outs.new ≡ steps.refuse (state_of parts.now) from letter.now letter.now.message) }
{
    let Message::Prepare { txn, .. } = &letter.message else {
        return Ok(());
    };
    let answer = Answer::No {
        named: letter.to,
        own: parts.session,
    };
    outs.push((from, letter.from, Message::Vote { txn: *txn, answer }))
}

// Letters of the monitor.

/// The vector of so many sites in which each is down.
pub fn all_down(sites: u8) -> Vector
    requires { sites ≤ 8 }
    ensures { result ≡ replicate sites 0 }
{
    Vector {
        count: sites,
        sessions: [0; 8],
    }
}

/// The site stops: it keeps its copies and its session. It says which session that ended.
pub fn stop_row(parts: &mut Parts, workload: &Workload, outs: &mut Outs) -> Result<(), NoMemory>
    requires few { workload.now.sites ≤ 8 }
    requires live { IsLive workload.now parts.old }
    requires whole { IsWhole workload.now parts.old }
    requires none { outs.old ≡ [] }
    ensures ok { OnOk result (turn parts.new outs.new ≡ steps.stop_row workload.now (state_of parts.old)) }
    ensures live { OnOk result (IsLive workload.now parts.new) }
    ensures whole { OnOk result (IsWhole workload.now parts.new) }
{
    parts.up = false;
    parts.vector = all_down(workload.sites);
    parts.copies.stop();
    parts.driver.reset(0);
    parts.ballots.clear();
    outs.push((MONITOR, 0, Message::Halted))
}

/// A stopped site comes up in its next session, and says so.
pub fn return_row(parts: &mut Parts, workload: &Workload, outs: &mut Outs) -> Result<(), NoMemory>
    requires session { parts.old.session < 4294967295 }
    requires live { IsLive workload.now parts.old }
    requires whole { IsWhole workload.now parts.old }
    requires none { outs.old ≡ [] }
    ensures ok { OnOk result (turn parts.new outs.new ≡ steps.return_row (state_of parts.old)) }
    ensures live { OnOk result (IsLive workload.now parts.new) }
    ensures whole { OnOk result (IsWhole workload.now parts.new) }
{
    parts.up = true;
    parts.session += 1;
    outs.push((SEQUENCER, 0, Message::Hello))
}
