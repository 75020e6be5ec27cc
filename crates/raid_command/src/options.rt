//! The options after the first word, as `clap` reads them.
ghost use Rattle.std.specs.Prelude.{◌≡◌, true, IfOk, map, option_map};
ghost use Rattle.std.specs.String.{string_bytes};
ghost use Rattle.clap.specs.Words.{app_of, found_of, is_simple_and_free, rows_of};
ghost use Rattle.raid_command.specs.Options.{advise_app, bare, make_app, rows_read, run_app};

use clap::error::ErrorKind;
use clap::{Arg, ArgAction, ArgMatches};
use raid_base::NoMemory;
use std::alloc::Global;

/// A command that has no option yet, not even `--help`.
fn bare<'a>(alloc: Global, name: &'a str) -> clap::Command<'a>
    ensures { app_of result ≡ bare name.entry.now }
{
    clap::Command::new(alloc, name)
        .no_binary_name(true)
        .disable_help_flag(true)
}

/// What may follow `run`.
pub(crate) fn of_run<'a>(alloc: Global) -> Result<clap::Command<'a>, NoMemory>
    ensures { IfOk result (λ c. app_of c ≡ run_app) }
{
    let brief = Arg::new(alloc, "brief")
        .long("brief")
        .action(ArgAction::SetTrue);
    Ok(bare(alloc, "run").arg(brief)?)
}

/// What has to follow `make`.
pub(crate) fn of_make<'a>(alloc: Global) -> Result<clap::Command<'a>, NoMemory>
    ensures { IfOk result (λ c. app_of c ≡ make_app) }
{
    let seed = Arg::new(alloc, "seed").long("seed").required(true);
    let count = Arg::new(alloc, "count").long("count").required(true);
    Ok(bare(alloc, "make").arg(seed)?.arg(count)?)
}

/// What has to follow `advise`.
pub(crate) fn of_advise<'a>(alloc: Global) -> Result<clap::Command<'a>, NoMemory>
    ensures { IfOk result (λ c. app_of c ≡ advise_app) }
{
    let last = Arg::new(alloc, "last").long("last").required(true);
    Ok(bare(alloc, "advise").arg(last)?)
}

/// What `clap` finds in the words, or None where it refuses them.
pub(crate) fn read<'a>(
    command: clap::Command<'a>,
    words: &'a [String],
) -> Result<Option<ArgMatches<'a>>, NoMemory>
    requires { is_simple_and_free (app_of command) ≡ true }
    ensures { IfOk result (λ m. option_map (λ x. rows_of (found_of x)) m
        ≡ rows_read (app_of command.entry) (map string_bytes words.entry.now)) }
{
    match command.try_get_matches_from(words) {
        Ok(matches) => Ok(Some(matches)),
        Err(error) => match error.kind() {
            ErrorKind::OutOfMemory => Err(NoMemory),
            _ => Ok(None),
        },
    }
}
