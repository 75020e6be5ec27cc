//! Entries, read from their lines.

ghost use Rattle.std.specs.Prelude.{◌≡◌, ◌∷◌, ℕ, [], List, Some, None};
ghost use Rattle.raid_pieces.specs.Reading.{Tells};
ghost use Rattle.raid_pieces.specs.Pieces.{pieces_behind};
ghost use Rattle.raid_report.specs.Outcome.{Gives};
ghost use Rattle.raid_report.specs.Next.{begin_line, read_line, wait_line, commit_line, ended_at, nothing_at, read_at, commit_at, refused_of, refused_at, cause_of, plain_abort, ended_abort, home_abort, switch_abort, stale_abort, abort_of, abort_line, ack_line, switch_on_line, switch_end_line, down_line, up_line, clear_line, entry_of, entry_at};

use crate::error::LineError;
use crate::known::Known;
use crate::next::{
    request_of, take_end, take_item, take_keyword, take_kind, take_method, take_number,
    take_request, take_site, take_txn, take_word,
};
use crate::words::{is_word, pairs_of, set_of, vector_of};
use raid_base::{Act, Cause, Entry, Txn};
use raid_pieces::Unfit;
use std::alloc::Global;

#[tactic(auto, unfolding(crate::specs::Next::begin_line))]
fn begin_line(known: &Known, line: &[u8]) -> Result<Entry, Unfit>
    ensures { Tells (λ e. e) result (begin_line known.now (pieces_behind 32 line.now)) }
{
    let (txn, rest) = take_txn(known, line)?;
    let rest = take_keyword(rest, b"at")?;
    let (home, rest) = take_site(known, rest)?;
    take_end(rest)?;
    Ok(Entry::Begin { txn, home })
}

#[tactic(auto, unfolding(crate::specs::Next::read_line))]
fn read_line(known: &Known, line: &[u8]) -> Result<Entry, Unfit>
    ensures { Tells (λ e. e) result (read_line known.now (pieces_behind 32 line.now)) }
{
    let (txn, rest) = take_txn(known, line)?;
    let (item, rest) = take_item(known, rest)?;
    let rest = take_keyword(rest, b"at")?;
    let (site, rest) = take_site(known, rest)?;
    take_end(rest)?;
    Ok(Entry::Read { txn, item, site })
}

#[tactic(auto, unfolding(crate::specs::Next::wait_line))]
fn wait_line(alloc: Global, known: &Known, line: &[u8]) -> Result<Entry, LineError>
    ensures { Gives (λ e. e) result (wait_line known.now (pieces_behind 32 line.now)) }
{
    let (txn, rest) = take_txn(known, line)?;
    let (reads, writes, under, rest) = take_request(rest)?;
    take_end(rest)?;
    let request = request_of(alloc, known, reads, writes, under)?;
    Ok(Entry::Wait { txn, request })
}

#[tactic(auto, unfolding(crate::specs::Next::commit_line))]
fn commit_line(alloc: Global, known: &Known, line: &[u8]) -> Result<Entry, LineError>
    ensures { Gives (λ e. e) result (commit_line known.now (pieces_behind 32 line.now)) }
{
    let (txn, rest) = take_txn(known, line)?;
    let (reads, writes, under, rest) = take_request(rest)?;
    let rest = take_keyword(rest, b"applied")?;
    let (sites, rest) = take_word(rest)?;
    take_end(rest)?;
    let request = request_of(alloc, known, reads, writes, under)?;
    let applied = set_of(known, sites)?;
    Ok(Entry::Commit {
        txn,
        request,
        applied,
    })
}

#[tactic(auto, unfolding(crate::specs::Next::ended_at))]
fn ended_at(alloc: Global, known: &Known, line: &[u8]) -> Result<Act, LineError>
    ensures { Gives (λ a. a) result (ended_at known.now (pieces_behind 32 line.now)) }
{
    let rest = take_keyword(line, b"reads")?;
    let (word, rest) = take_word(rest)?;
    take_end(rest)?;
    let reads = pairs_of(alloc, known, word)?;
    Ok(Act::Ended(reads))
}

#[tactic(auto, unfolding(crate::specs::Next::read_at))]
fn read_at(known: &Known, line: &[u8]) -> Result<Act, Unfit>
    ensures { Tells (λ a. a) result (read_at known.now (pieces_behind 32 line.now)) }
{
    let (item, rest) = take_item(known, line)?;
    take_end(rest)?;
    Ok(Act::Read(item))
}

#[tactic(auto, unfolding(crate::specs::Next::commit_at))]
fn commit_at(alloc: Global, known: &Known, line: &[u8]) -> Result<Act, LineError>
    ensures { Gives (λ a. a) result (commit_at known.now (pieces_behind 32 line.now)) }
{
    let (reads, writes, under, rest) = take_request(line)?;
    take_end(rest)?;
    let request = request_of(alloc, known, reads, writes, under)?;
    Ok(Act::Commit(request))
}

#[tactic(auto, unfolding(crate::specs::Next::refused_of))]
fn refused_of(alloc: Global, known: &Known, word: &[u8], line: &[u8]) -> Result<Act, LineError>
    ensures { Gives (λ a. a) result (refused_of known.now word.now (pieces_behind 32 line.now)) }
{
    if is_word(word, b"read") {
        Ok(read_at(known, line)?)
    } else if is_word(word, b"commit") {
        commit_at(alloc, known, line)
    } else {
        Err(LineError::Unfit)
    }
}

/// The action that was refused.
#[tactic(auto, unfolding(crate::specs::Next::refused_at))]
fn refused_at(alloc: Global, known: &Known, line: &[u8]) -> Result<Act, LineError>
    ensures { Gives (λ a. a) result (refused_at known.now (pieces_behind 32 line.now)) }
{
    let (word, rest) = take_word(line)?;
    refused_of(alloc, known, word, rest)
}

/// A cause that stands before the action that was refused.
#[tactic(auto, unfolding(crate::specs::Next::cause_of))]
fn cause_of(word: &[u8]) -> Result<Cause, Unfit>
    ensures { Tells (λ c. c) result (cause_of word.now) }
{
    if is_word(word, b"late") {
        Ok(Cause::Late)
    } else if is_word(word, b"invalid") {
        Ok(Cause::Invalid)
    } else if is_word(word, b"cycle") {
        Ok(Cause::Cycle)
    } else if is_word(word, b"deadlock") {
        Ok(Cause::Deadlock)
    } else if is_word(word, b"nocopy") {
        Ok(Cause::NoCopy)
    } else {
        Err(Unfit)
    }
}

#[tactic(auto, unfolding(crate::specs::Next::plain_abort))]
fn plain_abort(
    alloc: Global,
    known: &Known,
    txn: Txn,
    word: &[u8],
    line: &[u8],
) -> Result<Entry, LineError>
    ensures { Gives (λ e. e) result (plain_abort known.now txn word.now (pieces_behind 32 line.now)) }
{
    let cause = cause_of(word)?;
    let act = refused_at(alloc, known, line)?;
    Ok(Entry::Abort { txn, cause, act })
}

#[tactic(auto, unfolding(crate::specs::Next::ended_abort))]
fn own_abort(alloc: Global, known: &Known, txn: Txn, line: &[u8]) -> Result<Entry, LineError>
    ensures { Gives (λ e. e) result (ended_abort known.now txn Cause.Own (pieces_behind 32 line.now)) }
{
    let act = ended_at(alloc, known, line)?;
    Ok(Entry::Abort {
        txn,
        cause: Cause::Own,
        act,
    })
}

#[tactic(auto, unfolding(crate::specs::Next::ended_abort))]
fn overflow_abort(alloc: Global, known: &Known, txn: Txn, line: &[u8]) -> Result<Entry, LineError>
    ensures { Gives (λ e. e) result (ended_abort known.now txn Cause.Overflow (pieces_behind 32 line.now)) }
{
    let act = ended_at(alloc, known, line)?;
    Ok(Entry::Abort {
        txn,
        cause: Cause::Overflow,
        act,
    })
}

#[tactic(auto, unfolding(crate::specs::Next::home_abort, crate::specs::Next::nothing_at))]
fn home_abort(txn: Txn, line: &[u8]) -> Result<Entry, Unfit>
    ensures { Tells (λ e. e) result (home_abort txn (pieces_behind 32 line.now)) }
{
    take_end(line)?;
    Ok(Entry::Abort {
        txn,
        cause: Cause::HomeDown,
        act: Act::Nothing,
    })
}

#[tactic(auto, unfolding(crate::specs::Next::switch_abort, crate::specs::Next::nothing_at))]
fn switch_abort(txn: Txn, line: &[u8]) -> Result<Entry, Unfit>
    ensures { Tells (λ e. e) result (switch_abort txn (pieces_behind 32 line.now)) }
{
    let (switch, rest) = take_number(line, 255)?;
    take_end(rest)?;
    Ok(Entry::Abort {
        txn,
        cause: Cause::SwitchOff(switch as u8),
        act: Act::Nothing,
    })
}

#[tactic(auto, unfolding(crate::specs::Next::stale_abort))]
fn stale_abort(alloc: Global, known: &Known, txn: Txn, line: &[u8]) -> Result<Entry, LineError>
    ensures { Gives (λ e. e) result (stale_abort known.now txn (pieces_behind 32 line.now)) }
{
    let (word, rest) = take_word(line)?;
    let vector = vector_of(known, word)?;
    let act = refused_at(alloc, known, rest)?;
    Ok(Entry::Abort {
        txn,
        cause: Cause::Stale(vector),
        act,
    })
}

#[tactic(auto, unfolding(crate::specs::Next::abort_of))]
fn abort_of(
    alloc: Global,
    known: &Known,
    txn: Txn,
    word: &[u8],
    line: &[u8],
) -> Result<Entry, LineError>
    ensures { Gives (λ e. e) result (abort_of known.now txn word.now (pieces_behind 32 line.now)) }
{
    if is_word(word, b"own") {
        own_abort(alloc, known, txn, line)
    } else if is_word(word, b"overflow") {
        overflow_abort(alloc, known, txn, line)
    } else if is_word(word, b"switchoff") {
        Ok(switch_abort(txn, line)?)
    } else if is_word(word, b"homedown") {
        Ok(home_abort(txn, line)?)
    } else if is_word(word, b"stale") {
        stale_abort(alloc, known, txn, line)
    } else {
        plain_abort(alloc, known, txn, word, line)
    }
}

#[tactic(auto, unfolding(crate::specs::Next::abort_line))]
fn abort_line(alloc: Global, known: &Known, line: &[u8]) -> Result<Entry, LineError>
    ensures { Gives (λ e. e) result (abort_line known.now (pieces_behind 32 line.now)) }
{
    let (txn, rest) = take_txn(known, line)?;
    let (word, rest) = take_word(rest)?;
    abort_of(alloc, known, txn, word, rest)
}

#[tactic(auto, unfolding(crate::specs::Next::ack_line))]
fn ack_line(known: &Known, line: &[u8]) -> Result<Entry, Unfit>
    ensures { Tells (λ e. e) result (ack_line known.now (pieces_behind 32 line.now)) }
{
    let (txn, rest) = take_txn(known, line)?;
    let (site, rest) = take_site(known, rest)?;
    take_end(rest)?;
    Ok(Entry::Ack { txn, site })
}

#[tactic(auto, unfolding(crate::specs::Next::switch_on_line))]
fn switch_on_line(line: &[u8]) -> Result<Entry, Unfit>
    ensures { Tells (λ e. e) result (switch_on_line (pieces_behind 32 line.now)) }
{
    let (switch, rest) = take_number(line, 255)?;
    let (kind, rest) = take_kind(rest)?;
    let (method, rest) = take_method(rest)?;
    take_end(rest)?;
    Ok(Entry::SwitchOn {
        switch: switch as u8,
        kind,
        method,
    })
}

#[tactic(auto, unfolding(crate::specs::Next::switch_end_line))]
fn switch_end_line(line: &[u8]) -> Result<Entry, Unfit>
    ensures { Tells (λ e. e) result (switch_end_line (pieces_behind 32 line.now)) }
{
    let (switch, rest) = take_number(line, 255)?;
    take_end(rest)?;
    Ok(Entry::SwitchEnd {
        switch: switch as u8,
    })
}

#[tactic(auto, unfolding(crate::specs::Next::down_line))]
fn down_line(known: &Known, line: &[u8]) -> Result<Entry, Unfit>
    ensures { Tells (λ e. e) result (down_line known.now (pieces_behind 32 line.now)) }
{
    let (site, rest) = take_site(known, line)?;
    take_end(rest)?;
    Ok(Entry::Down { site })
}

#[tactic(auto, unfolding(crate::specs::Next::up_line))]
fn up_line(known: &Known, line: &[u8]) -> Result<Entry, Unfit>
    ensures { Tells (λ e. e) result (up_line known.now (pieces_behind 32 line.now)) }
{
    let (site, rest) = take_site(known, line)?;
    let rest = take_keyword(rest, b"session")?;
    let (session, rest) = take_number(rest, u32::MAX)?;
    take_end(rest)?;
    Ok(Entry::Up { site, session })
}

#[tactic(auto, unfolding(crate::specs::Next::clear_line))]
fn clear_line(known: &Known, line: &[u8]) -> Result<Entry, Unfit>
    ensures { Tells (λ e. e) result (clear_line known.now (pieces_behind 32 line.now)) }
{
    let (site, rest) = take_site(known, line)?;
    let (item, rest) = take_item(known, rest)?;
    let rest = take_keyword(rest, b"at")?;
    let (version, rest) = take_number(rest, u32::MAX)?;
    take_end(rest)?;
    Ok(Entry::Clear {
        site,
        item,
        version,
    })
}

/// The entry whose line has this word behind its number, and the rest behind the word.
#[tactic(auto, unfolding(crate::specs::Next::entry_of))]
fn entry_of(alloc: Global, known: &Known, word: &[u8], line: &[u8]) -> Result<Entry, LineError>
    ensures { Gives (λ e. e) result (entry_of known.now word.now (pieces_behind 32 line.now)) }
{
    if is_word(word, b"begin") {
        Ok(begin_line(known, line)?)
    } else if is_word(word, b"read") {
        Ok(read_line(known, line)?)
    } else if is_word(word, b"wait") {
        wait_line(alloc, known, line)
    } else if is_word(word, b"commit") {
        commit_line(alloc, known, line)
    } else if is_word(word, b"abort") {
        abort_line(alloc, known, line)
    } else if is_word(word, b"ack") {
        Ok(ack_line(known, line)?)
    } else if is_word(word, b"switchon") {
        Ok(switch_on_line(line)?)
    } else if is_word(word, b"switchend") {
        Ok(switch_end_line(line)?)
    } else if is_word(word, b"down") {
        Ok(down_line(known, line)?)
    } else if is_word(word, b"up") {
        Ok(up_line(known, line)?)
    } else if is_word(word, b"clear") {
        Ok(clear_line(known, line)?)
    } else {
        Err(LineError::Unfit)
    }
}

/// The entry whose line has this rest behind its number.
#[tactic(auto, unfolding(crate::specs::Next::entry_at))]
pub fn entry_at(alloc: Global, known: &Known, line: &[u8]) -> Result<Entry, LineError>
    ensures { Gives (λ e. e) result (entry_at known.now (pieces_behind 32 line.now)) }
{
    let (word, rest) = take_word(line)?;
    entry_of(alloc, known, word, rest)
}
