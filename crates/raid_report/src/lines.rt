//! The lines of a report, read one after another.

ghost use Rattle.std.specs.Prelude.{◌≡◌, ◌+◌, ◌<◌, ◌==◌, ◌∷◌, ℕ, [], List, length, Some, None, slice_get};
ghost use Rattle.raid_pieces.specs.Reading.{Tells};
ghost use Rattle.raid_pieces.specs.Pieces.{pieces, pieces_behind};
ghost use Rattle.raid_report.specs.Known.{places};
ghost use Rattle.raid_report.specs.Outcome.{Gives};
ghost use Rattle.raid_report.specs.Drafts.{where_true, is_place, version_line, all_txns, order_of, order_line, numbered_line, final_line, copy_line, done_line, tail_line, line_at, line_after};

use crate::draft::{Draft, Place};
use crate::entries::entry_at;
use crate::error::LineError;
use crate::known::Known;
use crate::next::{take_end, take_item, take_number, take_site, take_value};
use crate::words::{is_word, txn_of};
use raid_base::{CopyLine, Item, Site, TxnList};
use raid_pieces::{Unfit, first_piece, next_piece, number_of};
use std::alloc::Global;

fn where_true(test: bool) -> Result<(), Unfit>
    ensures { Tells (λ _. tt) result (where_true test) }
{
    if test { Ok(()) } else { Err(Unfit) }
}

#[tactic(auto, unfolding(crate::specs::Drafts::version_line))]
fn version_line(known: &Known, draft: &mut Draft, line: &[u8]) -> Result<(), Unfit>
    ensures { Tells (λ _. draft.new) result (version_line known.now draft.old (pieces_behind 32 line.now)) }
{
    let (version, rest) = take_number(line, 255)?;
    where_true(version == u32::from(known.workload().version))?;
    take_end(rest)?;
    draft.place = Place::Entries;
    Ok(())
}

/// The transactions of a line, of which this is the first word.
#[tactic(auto, unfolding(crate::specs::Drafts::all_txns))]
fn all_txns(alloc: Global, known: &Known, word: &[u8], line: &[u8]) -> Result<TxnList, LineError>
    ensures { Gives (λ x. x) result (all_txns known.now (word.now ∷ pieces_behind 32 line.now)) }
{
    let mut txns = TxnList::new(alloc);
    txns.push(txn_of(known, word)?)?;
    let mut rest = line;
    while let Some((word, after)) = next_piece(rest, b' ') {
        txns.push(txn_of(known, word)?)?;
        rest = after;
    }
    Ok(txns)
}

#[tactic(auto, unfolding(crate::specs::Drafts::order_of, crate::specs::Drafts::no_txns))]
fn order_of(alloc: Global, known: &Known, line: &[u8]) -> Result<TxnList, LineError>
    ensures { Gives (λ x. x) result (order_of known.now (pieces_behind 32 line.now)) }
{
    match next_piece(line, b' ') {
        None => Err(LineError::Unfit),
        Some((word, rest)) => {
            if is_word(word, b"-") {
                take_end(rest)?;
                Ok(TxnList::new(alloc))
            } else {
                all_txns(alloc, known, word, rest)
            }
        }
    }
}

#[tactic(auto, unfolding(crate::specs::Drafts::order_line))]
fn order_line(alloc: Global, known: &Known, draft: &mut Draft, line: &[u8]) -> Result<(), LineError>
    ensures { Gives (λ _. draft.new) result (order_line known.now draft.old (pieces_behind 32 line.now)) }
{
    let order = order_of(alloc, known, line)?;
    draft.place = Place::Tail;
    draft.order = order;
    Ok(())
}

/// Whether the number is that of the entry behind so many.
fn is_behind(number: u32, entries: usize) -> bool
    ensures { result ≡ (number == entries + 1) }
{
    number != 0 && number as usize - 1 == entries
}

#[tactic(auto, unfolding(crate::specs::Drafts::numbered_line))]
fn numbered_line(
    alloc: Global,
    known: &Known,
    draft: &mut Draft,
    word: &[u8],
    line: &[u8],
) -> Result<(), LineError>
    ensures { Gives (λ _. draft.new) result (numbered_line known.now draft.old word.now (pieces_behind 32 line.now)) }
{
    let number = number_of(word, u32::MAX)?;
    where_true(is_behind(number, draft.entries.len()))?;
    let entry = entry_at(alloc, known, line)?;
    draft.entries.push(entry)?;
    Ok(())
}

#[tactic(auto, unfolding(crate::specs::Drafts::final_line))]
fn final_line(known: &Known, draft: &mut Draft, line: &[u8]) -> Result<(), LineError>
    ensures { Gives (λ _. draft.new) result (final_line known.now draft.old (pieces_behind 32 line.now)) }
{
    let (item, rest) = take_item(known, line)?;
    where_true(item.0 as usize == draft.finals.len())?;
    let (value, rest) = take_value(rest)?;
    take_end(rest)?;
    draft.finals.push((item, value))?;
    Ok(())
}

fn is_at(place: &(Site, Item), site: Site, item: Item) -> bool
    ensures { result ≡ is_place (Some place.now) site item }
{
    place.0 == site && place.1 == item
}

/// Whether the place with this number is that of the copy.
fn is_place(slots: &[(Site, Item)], k: usize, site: Site, item: Item) -> bool
    requires { k < length slots.now }
    ensures { result ≡ is_place (slice_get slots.now k) site item }
{
    is_at(&slots[k], site, item)
}

#[tactic(auto, unfolding(crate::specs::Drafts::copy_line))]
fn copy_line(
    known: &Known,
    slots: &[(Site, Item)],
    draft: &mut Draft,
    line: &[u8],
) -> Result<(), LineError>
    requires slots { slots.now ≡ places known.now }
    requires more { length draft.old.copies < length slots.now }
    ensures { Gives (λ _. draft.new) result (copy_line known.now draft.old (pieces_behind 32 line.now)) }
{
    let (site, rest) = take_site(known, line)?;
    let (item, rest) = take_item(known, rest)?;
    where_true(is_place(slots, draft.copies.len(), site, item))?;
    let (value, rest) = take_value(rest)?;
    let (version, rest) = take_number(rest, u32::MAX)?;
    take_end(rest)?;
    draft.copies.push(CopyLine {
        site,
        item,
        value,
        version,
    })?;
    Ok(())
}

#[tactic(auto, unfolding(crate::specs::Drafts::done_line))]
fn done_line(draft: &mut Draft, line: &[u8]) -> Result<(), Unfit>
    ensures { Tells (λ _. draft.new) result (done_line draft.old (pieces_behind 32 line.now)) }
{
    take_end(line)?;
    draft.place = Place::Over;
    Ok(())
}

/// A line behind the order.
#[tactic(auto, unfolding(crate::specs::Drafts::tail_line))]
fn tail_line(
    known: &Known,
    slots: &[(Site, Item)],
    draft: &mut Draft,
    word: &[u8],
    line: &[u8],
) -> Result<(), LineError>
    requires { slots.now ≡ places known.now }
    ensures { Gives (λ _. draft.new) result (tail_line known.now draft.old word.now (pieces_behind 32 line.now)) }
{
    if draft.finals.len() < known.workload().items.len() {
        if !is_word(word, b"final") {
            return Err(LineError::Unfit);
        }
        final_line(known, draft, line)
    } else if draft.copies.len() < slots.len() {
        if !is_word(word, b"copy") {
            return Err(LineError::Unfit);
        }
        copy_line(known, slots, draft, line)
    } else if is_word(word, b"done") {
        done_line(draft, line)?;
        Ok(())
    } else {
        Err(LineError::Unfit)
    }
}

/// A line that begins with this word.
#[tactic(auto, unfolding(crate::specs::Drafts::line_at))]
fn line_at(
    alloc: Global,
    known: &Known,
    slots: &[(Site, Item)],
    draft: &mut Draft,
    word: &[u8],
    line: &[u8],
) -> Result<(), LineError>
    requires { slots.now ≡ places known.now }
    ensures { Gives (λ _. draft.new) result (line_at known.now draft.old.place draft.old word.now (pieces_behind 32 line.now)) }
{
    match draft.place {
        Place::Start if is_word(word, b"report") => version_line(known, draft, line)?,
        Place::Entries if is_word(word, b"order") => order_line(alloc, known, draft, line)?,
        Place::Entries => numbered_line(alloc, known, draft, word, line)?,
        Place::Tail => tail_line(known, slots, draft, word, line)?,
        _ => return Err(LineError::Unfit),
    }
    Ok(())
}

/// Takes one line more into the draft.
#[tactic(auto, unfolding(crate::specs::Drafts::line_after))]
pub fn take_line(
    alloc: Global,
    known: &Known,
    slots: &[(Site, Item)],
    draft: &mut Draft,
    line: &[u8],
) -> Result<(), LineError>
    requires { slots.now ≡ places known.now }
    ensures { Gives (λ _. draft.new) result (line_after known.now draft.old (pieces 32 line.now)) }
{
    let (word, rest) = first_piece(line, b' ');
    line_at(alloc, known, slots, draft, word, rest)
}
