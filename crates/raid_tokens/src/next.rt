//! What stands next on a line.

ghost use Rattle.std.specs.Prelude.{◌≡◌, ◌<◌, ◌≤◌, ℕ, ℤ, List, length, true, false, Ok, Err, IfOk};
ghost use Rattle.std.specs.Str.{bytes_eq};
ghost use Rattle.raid_scan.specs.Words.{words_of};
ghost use Rattle.raid_tokens.specs.Reading.{Tells};
ghost use Rattle.raid_tokens.specs.Words.{word_at, keyword_at, name_at, number_at, number_of, value_at, register_at, term_at, end_at};
ghost use Rattle.raid_workload.specs.Name.{is_name};

use crate::fault::Fault;
use crate::forms::{is_name, is_number, number, register_of, term_of, value_of};
use raid_program::Term;
use raid_scan::next_word;

#[tactic(auto, unfolding(crate::specs::Words::word_at))]
pub fn take_word(line: &[u8]) -> Result<(&[u8], &[u8]), Fault>
    ensures { Tells (λ x. (x.0.now, words_of x.1.now)) result (word_at (words_of line.now)) }
{
    next_word(line).ok_or(Fault::Token)
}

#[tactic(auto, unfolding(crate::specs::Words::keyword_at))]
pub fn take_keyword<'a>(line: &'a [u8], expected: &[u8]) -> Result<&'a [u8], Fault>
    ensures { Tells (λ x. words_of x.now) result (keyword_at expected.now (words_of line.now)) }
{
    let (word, rest) = take_word(line)?;
    if word == expected {
        Ok(rest)
    } else {
        Err(Fault::Token)
    }
}

#[tactic(auto, unfolding(crate::specs::Words::name_at))]
pub fn take_name(line: &[u8]) -> Result<(&[u8], &[u8]), Fault>
    ensures form { IfOk result (λ x. is_name x.0.now ≡ true) }
    ensures reads { Tells (λ x. (x.0.now, words_of x.1.now)) result (name_at (words_of line.now)) }
{
    let (word, rest) = take_word(line)?;
    if is_name(word) {
        Ok((word, rest))
    } else {
        Err(Fault::Token)
    }
}

#[tactic(auto, unfolding(crate::specs::Words::number_of))]
pub fn number_of(word: &[u8], low: u32, high: u32, otherwise: Fault) -> Result<u32, Fault>
    ensures within { IfOk result (λ x. (low ≤ x) × (x ≤ high)) }
    ensures reads { Tells (λ x. x) result (number_of low high otherwise word.now) }
{
    if !is_number(word, 9) {
        return Err(Fault::Token);
    }
    let n = number(word);
    if low <= n && n <= high {
        Ok(n)
    } else {
        Err(otherwise)
    }
}

#[tactic(auto, unfolding(crate::specs::Words::number_at))]
pub fn take_number(
    line: &[u8],
    low: u32,
    high: u32,
    otherwise: Fault,
) -> Result<(u32, &[u8]), Fault>
    ensures within { IfOk result (λ x. (low ≤ x.0) × (x.0 ≤ high)) }
    ensures reads { Tells (λ x. (x.0, words_of x.1.now)) result (number_at low high otherwise (words_of line.now)) }
{
    let (word, rest) = take_word(line)?;
    Ok((number_of(word, low, high, otherwise)?, rest))
}

#[tactic(auto, unfolding(crate::specs::Words::value_at))]
pub fn take_value(line: &[u8]) -> Result<(i64, &[u8]), Fault>
    ensures { Tells (λ x. (x.0, words_of x.1.now)) result (value_at (words_of line.now)) }
{
    let (word, rest) = take_word(line)?;
    Ok((value_of(word)?, rest))
}

#[tactic(auto, unfolding(crate::specs::Words::register_at))]
pub fn take_register(line: &[u8]) -> Result<(u8, &[u8]), Fault>
    ensures { Tells (λ x. (x.0, words_of x.1.now)) result (register_at (words_of line.now)) }
{
    let (word, rest) = take_word(line)?;
    match register_of(word) {
        Some(r) => Ok((r, rest)),
        None => Err(Fault::Token),
    }
}

#[tactic(auto, unfolding(crate::specs::Words::term_at))]
pub fn take_term(line: &[u8]) -> Result<(Term, &[u8]), Fault>
    ensures { Tells (λ x. (x.0, words_of x.1.now)) result (term_at (words_of line.now)) }
{
    let (word, rest) = take_word(line)?;
    Ok((term_of(word)?, rest))
}

/// Nothing is left on the line.
#[tactic(auto, unfolding(crate::specs::Words::end_at))]
pub fn take_end(line: &[u8]) -> Result<(), Fault>
    ensures { Tells (λ _. tt) result (end_at (words_of line.now)) }
{
    match next_word(line) {
        None => Ok(()),
        Some(_) => Err(Fault::Token),
    }
}

/// Whether a word is this one.
pub fn is_word(word: &[u8], expected: &[u8]) -> bool
    ensures { result ≡ bytes_eq word.now expected.now }
{
    word == expected
}
