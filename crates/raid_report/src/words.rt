//! What the words of a report are.

ghost use Rattle.std.specs.Prelude.{◌≡◌, ◌+◌, ◌*◌, ◌<◌, ◌≤◌, ◌==◌, ◌∷◌, ℕ, [], List, length, Some, None, IfOk, bytes_eq};
ghost use Rattle.raid_base.specs.Sites.{site};
ghost use Rattle.raid_pieces.specs.Reading.{Tells};
ghost use Rattle.raid_pieces.specs.Pieces.{pieces, pieces_behind};
ghost use Rattle.raid_report.specs.Outcome.{Gives};
ghost use Rattle.raid_report.specs.Forms.{nonzero, positive_of, txn_at, txn_parts, txn_of, site_of, item_of, pair_parts, pair_of, all_pairs, pairs_of, session_of, all_sessions, vector_of, above, site_above, sites_above, set_of, kind_of, method_of};

use crate::error::LineError;
use crate::known::Known;
use raid_base::{Item, Kind, Method, Pairs, Site, Sites, Txn, Vector};
use raid_pieces::{Unfit, first_piece, next_piece, number_of, value_of};
use std::alloc::Global;

/// Whether a word is this one.
pub fn is_word(word: &[u8], expected: &[u8]) -> bool
    ensures { result ≡ bytes_eq word.now expected.now }
{
    word == expected
}

fn nonzero(n: u32) -> Result<u32, Unfit>
    ensures within { IfOk result (λ x. (1 ≤ x) × (x ≤ n)) }
    ensures reads { Tells (λ x. x) result (nonzero n) }
{
    if n == 0 { Err(Unfit) } else { Ok(n) }
}

#[tactic(auto, unfolding(crate::specs::Forms::positive_of))]
fn positive_of(word: &[u8], most: u32) -> Result<u32, Unfit>
    ensures within { IfOk result (λ x. (1 ≤ x) × (x ≤ most)) }
    ensures reads { Tells (λ x. x) result (positive_of most word.now) }
{
    nonzero(number_of(word, most)?)
}

/// The transaction whose program and attempt these are.
#[tactic(auto, unfolding(crate::specs::Forms::txn_parts))]
fn txn_parts(known: &Known, bytes: &[u8]) -> Result<Txn, Unfit>
    ensures { Tells (λ x. x) result (txn_parts known.now (pieces 46 bytes.now)) }
{
    let programs = known.programs();
    let (program, rest) = first_piece(bytes, b'.');
    match next_piece(rest, b'.') {
        None => Ok(Txn(positive_of(program, programs)?)),
        Some((attempt, rest)) => {
            let program = positive_of(program, programs)?;
            let attempt = positive_of(attempt, u32::from(known.restarts()))?;
            if next_piece(rest, b'.').is_some() {
                return Err(Unfit);
            }
            Ok(Txn(attempt * programs + program))
        }
    }
}

#[tactic(auto, unfolding(crate::specs::Forms::txn_of))]
pub fn txn_of(known: &Known, word: &[u8]) -> Result<Txn, Unfit>
    ensures { Tells (λ x. x) result (txn_of known.now word.now) }
{
    match word {
        [b't', bytes @ ..] => txn_parts(known, bytes),
        _ => Err(Unfit),
    }
}

#[tactic(auto, unfolding(crate::specs::Forms::site_of))]
pub fn site_of(known: &Known, word: &[u8]) -> Result<Site, Unfit>
    ensures within { IfOk result (λ x. (1 ≤ x.0) × (x.0 ≤ 8)) }
    ensures reads { Tells (λ x. x) result (site_of known.now word.now) }
{
    match word {
        [b's', bytes @ ..] => {
            let number = positive_of(bytes, u32::from(known.sites()))?;
            Ok(Site(number as u8))
        }
        _ => Err(Unfit),
    }
}

#[tactic(auto, unfolding(crate::specs::Forms::pair_parts))]
fn pair_parts(known: &Known, name: &[u8], rest: &[u8]) -> Result<(Item, i64), Unfit>
    ensures { Tells (λ x. x) result (pair_parts known.now (name.now ∷ pieces_behind 61 rest.now)) }
{
    let (value, rest) = next_piece(rest, b'=').ok_or(Unfit)?;
    if next_piece(rest, b'=').is_some() {
        return Err(Unfit);
    }
    let item = known.item_of(name)?;
    let value = value_of(value)?;
    Ok((item, value))
}

#[tactic(auto, unfolding(crate::specs::Forms::pair_of))]
fn pair_of(known: &Known, part: &[u8]) -> Result<(Item, i64), Unfit>
    ensures { Tells (λ x. x) result (pair_of known.now part.now) }
{
    let (name, rest) = first_piece(part, b'=');
    pair_parts(known, name, rest)
}

#[tactic(auto, unfolding(crate::specs::Forms::all_pairs))]
fn all_pairs(alloc: Global, known: &Known, word: &[u8]) -> Result<Pairs, LineError>
    ensures { Gives (λ x. x) result (all_pairs known.now (pieces 44 word.now)) }
{
    let mut pairs = Pairs::new(alloc);
    let (part, mut rest) = first_piece(word, b',');
    pairs.push(pair_of(known, part)?)?;
    while let Some((part, after)) = next_piece(rest, b',') {
        pairs.push(pair_of(known, part)?)?;
        rest = after;
    }
    Ok(pairs)
}

#[tactic(auto, unfolding(crate::specs::Forms::pairs_of))]
pub fn pairs_of(alloc: Global, known: &Known, word: &[u8]) -> Result<Pairs, LineError>
    ensures { Gives (λ x. x) result (pairs_of known.now word.now) }
{
    if is_word(word, b"-") {
        Ok(Pairs::new(alloc))
    } else {
        all_pairs(alloc, known, word)
    }
}

#[tactic(auto, unfolding(crate::specs::Forms::session_of))]
fn session_of(part: &[u8]) -> Result<u32, Unfit>
    ensures { Tells (λ x. x) result (session_of part.now) }
{
    if is_word(part, b"-") {
        Ok(0)
    } else {
        positive_of(part, u32::MAX)
    }
}

#[tactic(auto, unfolding(crate::specs::Forms::vector_of, crate::specs::Forms::all_sessions))]
pub fn vector_of(known: &Known, word: &[u8]) -> Result<Vector, Unfit>
    ensures { Tells (λ x. x) result (vector_of known.now word.now) }
{
    let sites = known.sites();
    let mut sessions = [0; 8];
    let (part, mut rest) = first_piece(word, b',');
    sessions[0] = session_of(part)?;
    let mut count = 1;
    while let Some((part, after)) = next_piece(rest, b',') {
        if count == sites {
            return Err(Unfit);
        }
        sessions[count as usize] = session_of(part)?;
        count += 1;
        rest = after;
    }
    if count == sites {
        Ok(Vector { count, sessions })
    } else {
        Err(Unfit)
    }
}

/// A site above the number.
fn site_above(known: &Known, least: u8, part: &[u8]) -> Result<Site, Unfit>
    ensures within { IfOk result (λ x. (1 ≤ x.0) × (x.0 ≤ 8)) }
    ensures reads { Tells (λ x. x) result (site_above known.now least part.now) }
{
    let site = site_of(known, part)?;
    if least < site.0 { Ok(site) } else { Err(Unfit) }
}

#[tactic(auto, unfolding(crate::specs::Forms::sites_above))]
fn sites_above(known: &Known, word: &[u8]) -> Result<Sites, Unfit>
    ensures { Tells (λ x. x) result (sites_above known.now 0 (pieces 44 word.now)) }
{
    let (part, mut rest) = first_piece(word, b',');
    let mut last = site_of(known, part)?;
    let mut sites = Sites::none().with(last);
    while let Some((part, after)) = next_piece(rest, b',') {
        last = site_above(known, last.0, part)?;
        sites = sites.with(last);
        rest = after;
    }
    Ok(sites)
}

#[tactic(auto, unfolding(crate::specs::Forms::set_of))]
pub fn set_of(known: &Known, word: &[u8]) -> Result<Sites, Unfit>
    ensures { Tells (λ x. x) result (set_of known.now word.now) }
{
    if is_word(word, b"-") {
        Ok(Sites::none())
    } else {
        sites_above(known, word)
    }
}

#[tactic(auto, unfolding(crate::specs::Forms::kind_of))]
pub fn kind_of(word: &[u8]) -> Result<Kind, Unfit>
    ensures { Tells (λ x. x) result (kind_of word.now) }
{
    if is_word(word, b"lock") {
        Ok(Kind::Lock)
    } else if is_word(word, b"stamp") {
        Ok(Kind::Stamp)
    } else if is_word(word, b"valid") {
        Ok(Kind::Valid)
    } else if is_word(word, b"graph") {
        Ok(Kind::Graph)
    } else {
        Err(Unfit)
    }
}

#[tactic(auto, unfolding(crate::specs::Forms::method_of))]
pub fn method_of(word: &[u8]) -> Result<Method, Unfit>
    ensures { Tells (λ x. x) result (method_of word.now) }
{
    if is_word(word, b"generic") {
        Ok(Method::Generic)
    } else if is_word(word, b"convert") {
        Ok(Method::Convert)
    } else if is_word(word, b"suffix") {
        Ok(Method::Suffix)
    } else {
        Err(Unfit)
    }
}
