//! The forms of a word.

ghost use Rattle.std.specs.Prelude.{◌≡◌, ◌<◌, ◌≤◌, ℕ, ℤ, List, length, true, false, Ok, Err, ◌^◌, pos, neg_ℤ, nat_le, if◌then◌else◌};
ghost use Rattle.std.specs.List.{list_all};
ghost use Rattle.raid_workload.specs.Name.{is_part, is_name};
ghost use Rattle.raid_tokens.specs.Reading.{Tells};
ghost use Rattle.raid_tokens.specs.Words.{is_digit, is_number, decimal, register_of, magnitude_of, value_of, term_of, signed};

use crate::fault::Fault;
use raid_program::Term;

fn is_name_byte(b: u8) -> bool
    ensures { result ≡ is_part b }
{
    matches!(b, b'a'..=b'z' | b'0'..=b'9' | b'_')
}

fn is_digit(b: u8) -> bool
    ensures { result ≡ is_digit b }
{
    matches!(b, b'0'..=b'9')
}

fn are_name_bytes(bytes: &[u8]) -> bool
    ensures { result ≡ list_all is_part bytes.now }
{
    bytes.iter().all(|b| is_name_byte(*b))
}

fn are_digits(bytes: &[u8]) -> bool
    ensures { result ≡ list_all is_digit bytes.now }
{
    bytes.iter().all(|b| is_digit(*b))
}

/// Whether a word is a name.
pub fn is_name(word: &[u8]) -> bool
    ensures { result ≡ is_name word.now }
{
    match word {
        [] => false,
        [first, rest @ ..] => first.is_ascii_lowercase()
            && rest.len() <= 15
            && are_name_bytes(rest),
    }
}

#[tactic(auto, unfolding(crate::specs::Words::is_number))]
pub fn is_number(word: &[u8], most: usize) -> bool
    ensures { result ≡ is_number most word.now }
{
    1 <= word.len() && word.len() <= most && are_digits(word)
}

/// The number that up to 19 digits stand for.
pub fn decimal(digits: &[u8]) -> u64
    requires { is_number 19 digits.now ≡ true }
    ensures value { result ≡ decimal digits.now }
    ensures bound { result < 10 ^ length digits.now }
{
    let mut n = 0;
    for b in digits {
        n = 10 * n + u64::from(*b - b'0');
    }
    n
}

#[tactic(auto, unfolding(crate::specs::Words::register_of))]
pub fn register_of(word: &[u8]) -> Option<u8>
    ensures { result ≡ register_of word.now }
{
    match word {
        [b'r', d] if d.is_ascii_digit() => Some(*d - b'0'),
        [b'r', b'1', d @ b'0'..=b'5'] => Some(*d - b'0' + 10),
        _ => None,
    }
}

/// The number that up to 9 digits stand for.
pub fn number(digits: &[u8]) -> u32
    requires { is_number 9 digits.now ≡ true }
    ensures { result ≡ decimal digits.now }
{
    decimal(digits) as u32
}

fn signed(negative: bool, n: u64) -> i64
    requires { nat_le n (if negative then 9223372036854775808 else 9223372036854775807) ≡ true }
    ensures { result ≡ signed negative n }
{
    if !negative {
        n as i64
    } else if n == 9223372036854775808 {
        i64::MIN
    } else {
        -(n as i64)
    }
}

#[tactic(auto, unfolding(crate::specs::Words::magnitude_of))]
fn magnitude_of(negative: bool, digits: &[u8]) -> Result<i64, Fault>
    ensures { Tells (λ x. x) result (magnitude_of negative digits.now) }
{
    if !is_number(digits, 19) {
        return Err(Fault::Token);
    }
    let n = decimal(digits);
    let limit = if negative {
        9223372036854775808
    } else {
        9223372036854775807
    };
    if n <= limit {
        Ok(signed(negative, n))
    } else {
        Err(Fault::Range)
    }
}

#[tactic(auto, unfolding(crate::specs::Words::value_of))]
pub fn value_of(word: &[u8]) -> Result<i64, Fault>
    ensures { Tells (λ x. x) result (value_of word.now) }
{
    match word {
        [] => Err(Fault::Token),
        [b'-', digits @ ..] => magnitude_of(true, digits),
        digits => magnitude_of(false, digits),
    }
}

#[tactic(auto, unfolding(crate::specs::Words::term_of))]
pub fn term_of(word: &[u8]) -> Result<Term, Fault>
    ensures { Tells (λ x. x) result (term_of word.now) }
{
    match register_of(word) {
        Some(r) => Ok(Term::Reg(r)),
        None => Ok(Term::Value(value_of(word)?)),
    }
}
