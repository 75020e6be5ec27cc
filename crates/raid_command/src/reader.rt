ghost use Rattle.std.specs.Prelude.{◌≡◌, false, IfOk, map};
ghost use Rattle.std.specs.String.{string_bytes};
ghost use Rattle.raid_command.specs.Asked.{advise_of, check_of, command_of, make_of, run_of};
ghost use Rattle.raid_command.specs.Options.{has_end_of_options};

use crate::asked::Command;
use crate::number::{advised, made};
use crate::options;
use crate::words::Words;
use raid_base::NoMemory;
use std::alloc::Global;

/// Whether a word is `--`, behind which `clap` would read no options.
fn has_end_of_options(words: &[String]) -> bool
    ensures { result ≡ has_end_of_options (map string_bytes words.now) }
{
    words.iter().any(|word| word.as_str() == "--")
}

/// What the words behind `run` ask for.
fn run(alloc: Global, words: &[String]) -> Result<Option<Command>, NoMemory>
    requires { has_end_of_options (map string_bytes words.now) ≡ false }
    ensures { IfOk result (λ c. c ≡ run_of (map string_bytes words.now)) }
{
    let Some(matches) = options::read(options::of_run(alloc)?, words)? else {
        return Ok(None);
    };
    let brief = matches.get_flag("brief");
    Ok(Some(Command::Run { brief }))
}

/// What the words behind `make` ask for.
fn make(alloc: Global, words: &[String]) -> Result<Option<Command>, NoMemory>
    requires { has_end_of_options (map string_bytes words.now) ≡ false }
    ensures { IfOk result (λ c. c ≡ make_of (map string_bytes words.now)) }
{
    let Some(matches) = options::read(options::of_make(alloc)?, words)? else {
        return Ok(None);
    };
    Ok(made(matches.get_str("seed"), matches.get_str("count")))
}

/// What the words behind `check` ask for.
fn check(words: &[String]) -> Option<Command>
    ensures { result ≡ check_of (map string_bytes words.now) }
{
    if words.is_empty() {
        Some(Command::Check)
    } else {
        None
    }
}

/// What the words behind `advise` ask for.
fn advise(alloc: Global, words: &[String]) -> Result<Option<Command>, NoMemory>
    requires { has_end_of_options (map string_bytes words.now) ≡ false }
    ensures { IfOk result (λ c. c ≡ advise_of (map string_bytes words.now)) }
{
    let Some(matches) = options::read(options::of_advise(alloc)?, words)? else {
        return Ok(None);
    };
    Ok(advised(matches.get_str("last")))
}

/// What the words of a command line ask for. None exactly where they are none of the forms `run`, `run --brief`,
/// `check`, `make` with `--seed N` and `--count N`, and `advise` with `--last N`: each option once, in any order,
/// as `--seed N` or `--seed=N`. A seed is 1 to 9 decimal digits; a count, and what `--last` has, is such a number
/// from 1 to 2,000. Want of memory is the only error.
pub fn command(alloc: Global, words: &Words) -> Result<Option<Command>, NoMemory>
    ensures { IfOk result (λ c. c ≡ command_of words.now) }
{
    let Some((first, others)) = words.as_slice().split_first() else {
        return Ok(None);
    };
    if has_end_of_options(others) {
        return Ok(None);
    }
    match first.as_str() {
        "run" => run(alloc, others),
        "make" => make(alloc, others),
        "check" => Ok(check(others)),
        "advise" => advise(alloc, others),
        _ => Ok(None),
    }
}
