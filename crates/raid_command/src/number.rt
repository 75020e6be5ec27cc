ghost use Rattle.std.specs.Prelude.{◌≡◌, Some, None, if◌then◌else◌, option_map};
ghost use Rattle.std.specs.Char.{is_ascii_digit};
ghost use Rattle.std.specs.List.{list_all};
ghost use Rattle.std.specs.Str.Parse.{digits_value};
ghost use Rattle.raid_command.specs.Asked.{is_count, is_number};
ghost use Rattle.raid_command.specs.Options.{advised_from, made_from};

use crate::asked::Command;

/// Of so many digits each number is a u32.
const MOST_DIGITS: usize = 9;

/// The most programs that a workload has, and the most of its ends that are asked for.
const MOST_COUNT: u32 = 2000;

fn are_digits(bytes: &[u8]) -> bool
    ensures { result ≡ list_all is_ascii_digit bytes.now }
{
    bytes.iter().all(|byte| byte.is_ascii_digit())
}

fn is_number(word: &str) -> bool
    ensures { result ≡ is_number word.now }
{
    1 <= word.len() && word.len() <= MOST_DIGITS && are_digits(word.as_bytes())
}

/// The number that 1 to 9 decimal digits write, with leading zeros or without. None for any other word.
fn number(word: &str) -> Option<u32>
    ensures { result ≡ (if is_number word.now then Some (digits_value 10 word.now) else None) }
{
    if is_number(word) {
        word.parse().ok()
    } else {
        None
    }
}

/// The number from 1 to 2,000 that 1 to 9 decimal digits write. None for any other word.
fn count_of(word: &str) -> Option<u32>
    ensures { result ≡ (if is_count word.now then Some (digits_value 10 word.now) else None) }
{
    let count = number(word)?;
    if 1 <= count && count <= MOST_COUNT {
        Some(count)
    } else {
        None
    }
}

/// What the values of `--seed` and `--count` ask for, where both are numbers and the count is 1 to 2,000.
pub(crate) fn made(seed: Option<&str>, count: Option<&str>) -> Option<Command>
    ensures { result ≡ made_from (option_map (λ s. s.now) seed.entry) (option_map (λ s. s.now) count.entry) }
{
    let seed = number(seed?)?;
    let count = count_of(count?)?;
    Some(Command::Make { seed, count })
}

/// What the value of `--last` asks for, where it is a number from 1 to 2,000.
pub(crate) fn advised(last: Option<&str>) -> Option<Command>
    ensures { result ≡ advised_from (option_map (λ s. s.now) last.entry) }
{
    let last = count_of(last?)?;
    Some(Command::Advise { last })
}
