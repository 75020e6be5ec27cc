//! The numbers that words are.

ghost use Rattle.std.specs.Prelude.{◌≡◌, ◌<◌, ◌≤◌, ℕ, ℤ, List, length, true, false, Some, None, ◌^◌, nat_le, if◌then◌else◌, IfOk};
ghost use Rattle.std.specs.List.{list_all};
ghost use Rattle.raid_pieces.specs.Reading.{Tells};
ghost use Rattle.raid_pieces.specs.Numbers.{is_digit, are_digits, worth, number_of, signed, magnitude_of, loose_value_of, value_of};

use crate::unfit::Unfit;
use itoa::Buffer;

fn is_digit(b: u8) -> bool
    ensures { result ≡ is_digit b }
{
    matches!(b, b'0'..=b'9')
}

fn all_digits(bytes: &[u8]) -> bool
    ensures { result ≡ list_all is_digit bytes.now }
{
    bytes.iter().all(|b| is_digit(*b))
}

#[tactic(auto, unfolding(crate::specs::Numbers::are_digits))]
fn are_digits(word: &[u8], most: usize) -> bool
    ensures { result ≡ are_digits most word.now }
{
    1 <= word.len() && word.len() <= most && all_digits(word)
}

/// The number that up to 19 digits stand for.
fn worth(digits: &[u8]) -> u64
    requires { are_digits 19 digits.now ≡ true }
    ensures value { result ≡ worth digits.now }
    ensures bound { result < 10 ^ length digits.now }
{
    let mut n = 0;
    for b in digits {
        n = 10 * n + u64::from(*b - b'0');
    }
    n
}

fn short_worth(digits: &[u8]) -> u64
    requires { are_digits 10 digits.now ≡ true }
    ensures value { result ≡ worth digits.now }
{
    worth(digits)
}

/// The number of at most so much that a word is how it is printed.
#[tactic(auto, unfolding(crate::specs::Numbers::number_of))]
pub fn number_of(word: &[u8], most: u32) -> Result<u32, Unfit>
    ensures within { IfOk result (λ x. x ≤ most) }
    ensures reads { Tells (λ x. x) result (number_of most word.now) }
{
    if !are_digits(word, 10) {
        return Err(Unfit);
    }
    let n = short_worth(word);
    if n <= u64::from(most) && word == Buffer::new().format(n).as_bytes() {
        Ok(n as u32)
    } else {
        Err(Unfit)
    }
}

fn signed(negative: bool, n: u64) -> i64
    requires { nat_le n (if negative then 9223372036854775808 else 9223372036854775807) ≡ true }
    ensures { result ≡ signed negative n }
{
    if !negative {
        n as i64
    } else if n == 9223372036854775808 {
        i64::MIN
    } else {
        -(n as i64)
    }
}

#[tactic(auto, unfolding(crate::specs::Numbers::magnitude_of))]
fn magnitude_of(negative: bool, digits: &[u8]) -> Result<i64, Unfit>
    ensures { Tells (λ x. x) result (magnitude_of negative digits.now) }
{
    if !are_digits(digits, 19) {
        return Err(Unfit);
    }
    let n = worth(digits);
    let limit = if negative {
        9223372036854775808
    } else {
        9223372036854775807
    };
    if n <= limit {
        Ok(signed(negative, n))
    } else {
        Err(Unfit)
    }
}

#[tactic(auto, unfolding(crate::specs::Numbers::loose_value_of))]
fn loose_value_of(word: &[u8]) -> Result<i64, Unfit>
    ensures { Tells (λ x. x) result (loose_value_of word.now) }
{
    match word {
        [] => Err(Unfit),
        [b'-', digits @ ..] => magnitude_of(true, digits),
        digits => magnitude_of(false, digits),
    }
}

/// The value of 64 bits that a word is how it is printed.
#[tactic(auto, unfolding(crate::specs::Numbers::value_of))]
pub fn value_of(word: &[u8]) -> Result<i64, Unfit>
    ensures { Tells (λ x. x) result (value_of word.now) }
{
    let value = loose_value_of(word)?;
    if word == Buffer::new().format(value).as_bytes() {
        Ok(value)
    } else {
        Err(Unfit)
    }
}
