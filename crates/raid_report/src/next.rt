//! What stands next on a line of a report. A line that is left is nothing, or a space and the next words.

ghost use Rattle.std.specs.Prelude.{◌≡◌, ◌≤◌, ◌∷◌, ℕ, [], List, Some, None, IfOk};
ghost use Rattle.raid_pieces.specs.Reading.{Tells};
ghost use Rattle.raid_pieces.specs.Pieces.{pieces_behind};
ghost use Rattle.raid_report.specs.Outcome.{Gives};
ghost use Rattle.raid_report.specs.Next.{word_at, keyword_at, end_at, number_at, value_at, txn_next, site_at, item_at, kind_at, method_at, request_at, request_of};

use crate::error::LineError;
use crate::known::Known;
use crate::words::{is_word, kind_of, method_of, pairs_of, site_of, txn_of, vector_of};
use raid_base::{Item, Kind, Method, Request, Site, Txn};
use raid_pieces::{Unfit, next_piece, number_of, value_of};
use std::alloc::Global;

#[tactic(auto, unfolding(crate::specs::Next::word_at))]
pub fn take_word(line: &[u8]) -> Result<(&[u8], &[u8]), Unfit>
    ensures { Tells (λ x. (x.0.now, pieces_behind 32 x.1.now)) result (word_at (pieces_behind 32 line.now)) }
{
    next_piece(line, b' ').ok_or(Unfit)
}

#[tactic(auto, unfolding(crate::specs::Next::keyword_at))]
pub fn take_keyword<'a>(line: &'a [u8], expected: &[u8]) -> Result<&'a [u8], Unfit>
    ensures { Tells (λ x. pieces_behind 32 x.now) result (keyword_at expected.now (pieces_behind 32 line.now)) }
{
    let (word, rest) = take_word(line)?;
    if is_word(word, expected) {
        Ok(rest)
    } else {
        Err(Unfit)
    }
}

/// Nothing is left on the line.
#[tactic(auto, unfolding(crate::specs::Next::end_at))]
pub fn take_end(line: &[u8]) -> Result<(), Unfit>
    ensures { Tells (λ _. tt) result (end_at (pieces_behind 32 line.now)) }
{
    match next_piece(line, b' ') {
        None => Ok(()),
        Some(_) => Err(Unfit),
    }
}

#[tactic(auto, unfolding(crate::specs::Next::number_at))]
pub fn take_number(line: &[u8], most: u32) -> Result<(u32, &[u8]), Unfit>
    ensures within { IfOk result (λ x. x.0 ≤ most) }
    ensures reads { Tells (λ x. (x.0, pieces_behind 32 x.1.now)) result (number_at most (pieces_behind 32 line.now)) }
{
    let (word, rest) = take_word(line)?;
    Ok((number_of(word, most)?, rest))
}

#[tactic(auto, unfolding(crate::specs::Next::value_at))]
pub fn take_value(line: &[u8]) -> Result<(i64, &[u8]), Unfit>
    ensures { Tells (λ x. (x.0, pieces_behind 32 x.1.now)) result (value_at (pieces_behind 32 line.now)) }
{
    let (word, rest) = take_word(line)?;
    Ok((value_of(word)?, rest))
}

#[tactic(auto, unfolding(crate::specs::Next::txn_next))]
pub fn take_txn<'a>(known: &Known, line: &'a [u8]) -> Result<(Txn, &'a [u8]), Unfit>
    ensures { Tells (λ x. (x.0, pieces_behind 32 x.1.now)) result (txn_next known.now (pieces_behind 32 line.now)) }
{
    let (word, rest) = take_word(line)?;
    Ok((txn_of(known, word)?, rest))
}

#[tactic(auto, unfolding(crate::specs::Next::site_at))]
pub fn take_site<'a>(known: &Known, line: &'a [u8]) -> Result<(Site, &'a [u8]), Unfit>
    ensures { Tells (λ x. (x.0, pieces_behind 32 x.1.now)) result (site_at known.now (pieces_behind 32 line.now)) }
{
    let (word, rest) = take_word(line)?;
    Ok((site_of(known, word)?, rest))
}

#[tactic(auto, unfolding(crate::specs::Next::item_at))]
pub fn take_item<'a>(known: &Known, line: &'a [u8]) -> Result<(Item, &'a [u8]), Unfit>
    ensures { Tells (λ x. (x.0, pieces_behind 32 x.1.now)) result (item_at known.now (pieces_behind 32 line.now)) }
{
    let (word, rest) = take_word(line)?;
    Ok((known.item_of(word)?, rest))
}

#[tactic(auto, unfolding(crate::specs::Next::kind_at))]
pub fn take_kind(line: &[u8]) -> Result<(Kind, &[u8]), Unfit>
    ensures { Tells (λ x. (x.0, pieces_behind 32 x.1.now)) result (kind_at (pieces_behind 32 line.now)) }
{
    let (word, rest) = take_word(line)?;
    Ok((kind_of(word)?, rest))
}

#[tactic(auto, unfolding(crate::specs::Next::method_at))]
pub fn take_method(line: &[u8]) -> Result<(Method, &[u8]), Unfit>
    ensures { Tells (λ x. (x.0, pieces_behind 32 x.1.now)) result (method_at (pieces_behind 32 line.now)) }
{
    let (word, rest) = take_word(line)?;
    Ok((method_of(word)?, rest))
}

/// The words of a request, its reads, its writes and its vector, and what is left of the line.
#[tactic(auto, unfolding(crate::specs::Next::request_at))]
pub fn take_request(line: &[u8]) -> Result<(&[u8], &[u8], &[u8], &[u8]), Unfit>
    ensures { Tells (λ x. (x.0.now, x.1.now, x.2.now, pieces_behind 32 x.3.now)) result (request_at (pieces_behind 32 line.now)) }
{
    let rest = take_keyword(line, b"reads")?;
    let (reads, rest) = take_word(rest)?;
    let rest = take_keyword(rest, b"writes")?;
    let (writes, rest) = take_word(rest)?;
    let rest = take_keyword(rest, b"under")?;
    let (under, rest) = take_word(rest)?;
    Ok((reads, writes, under, rest))
}

/// The request that has these words.
#[tactic(auto, unfolding(crate::specs::Next::request_of))]
pub fn request_of(
    alloc: Global,
    known: &Known,
    reads: &[u8],
    writes: &[u8],
    under: &[u8],
) -> Result<Request, LineError>
    ensures { Gives (λ x. x) result (request_of known.now reads.now writes.now under.now) }
{
    let reads = pairs_of(alloc, known, reads)?;
    let writes = pairs_of(alloc, known, writes)?;
    let under = vector_of(known, under)?;
    Ok(Request {
        reads,
        writes,
        under,
    })
}
