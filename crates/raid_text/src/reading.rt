//! A workload from its text.

ghost use Rattle.std.specs.Prelude.{◌≡◌, ◌≤◌, ◌<◌, ◌+◌, ◌^◌, IsTrue, length, IfOk, IfErr, OnOk};
ghost use Rattle.raid_scan.specs.Words.{words_of};
ghost use Rattle.raid_workload.specs.declared.workload.Workload.{Workload};
ghost use Rattle.raid_text.specs.Names.{names_of};
ghost use Rattle.raid_text.specs.Said.{opening, said_by, are_kept};
ghost use Rattle.raid_text.specs.Used.{used_line, line_after, is_comment};
ghost use Rattle.raid_text.specs.Outcome.{Gives, Answers, outcome_of, ended, refusal_of, Reads, IsGiven, IsFirst};

use crate::body::{done_line, end_line, event_line, program_line, switch_line};
use crate::error::{LineError, Refused};
use crate::head::{item_line, open_line, restarts_line, sites_line, version_line};
use crate::names::Names;
use crate::state::{Place, State};
use crate::statements::{read_line, stop_if_line, write_line};
use raid_base::{Kind, Listed, Site, Structure};
use raid_program::Program;
use raid_scan::{next_line, next_word};
use raid_tokens::{Fault, is_word};
use raid_workload::Workload;
use std::alloc::Global;

/// A line that isn't skipped, given its first word and what stands behind it.
#[tactic(auto, unfolding(crate::specs::Used::used_line))]
fn used_line<'a>(
    alloc: Global,
    state: &mut State,
    names: &mut Names<'a>,
    word: &[u8],
    line: &'a [u8],
) -> Result<(), LineError>
    requires sites { state.old.sites ≤ 8 }
    requires names { names.old ≡ names_of state.old.items }
    ensures line { Gives (λ _. state.new) result (used_line state.old.place state.old word.now (words_of line.now)) }
    ensures names { OnOk result (names.new ≡ names_of state.new.items) }
{
    match state.place {
        Place::Start => version_line(state, word, line)?,
        Place::Sites if is_word(word, b"sites") => sites_line(state, line)?,
        Place::Restarts if is_word(word, b"restarts") => restarts_line(state, line)?,
        Place::Items if is_word(word, b"item") => item_line(alloc, state, names, line)?,
        Place::Items if is_word(word, b"open") => open_line(state, line)?,
        Place::Body if is_word(word, b"switch") => switch_line(state, line)?,
        Place::Body if is_word(word, b"stop") => event_line(state, true, line)?,
        Place::Body if is_word(word, b"return") => event_line(state, false, line)?,
        Place::Body if is_word(word, b"program") => program_line(alloc, state, line)?,
        Place::Body if is_word(word, b"done") => done_line(state, line)?,
        Place::Program if is_word(word, b"read") => read_line(state, names, line)?,
        Place::Program if is_word(word, b"write") => write_line(alloc, state, names, line)?,
        Place::Program if is_word(word, b"stop") => stop_if_line(alloc, state, line)?,
        Place::Program if is_word(word, b"end") => end_line(alloc, state, line)?,
        _ => return Err(LineError::Fault(Fault::Word)),
    }
    Ok(())
}

/// Whether a line's first word makes it a comment.
fn is_comment(word: &[u8]) -> bool
    ensures { result ≡ is_comment word.now }
{
    matches!(word, [b'#', ..])
}

/// What one line says is added to what the lines before it said.
#[tactic(auto, unfolding(crate::specs::Used::line_after))]
fn take_line<'a>(
    alloc: Global,
    state: &mut State,
    names: &mut Names<'a>,
    line: &'a [u8],
) -> Result<(), LineError>
    requires sites { state.old.sites ≤ 8 }
    requires names { names.old ≡ names_of state.old.items }
    ensures line { Gives (λ _. state.new) result (line_after state.old (words_of line.now)) }
    ensures names { OnOk result (names.new ≡ names_of state.new.items) }
{
    match next_word(line) {
        None => Ok(()),
        Some((word, _)) if is_comment(word) => Ok(()),
        Some((word, rest)) => used_line(alloc, state, names, word, rest),
    }
}

/// What no line says.
fn start(alloc: Global) -> State
    ensures { result ≡ opening }
{
    State {
        place: Place::Start,
        version: 1,
        restarts: 0,
        sites: 1,
        together: 1,
        items: Listed::new(alloc),
        kind: Kind::Lock,
        structure: Structure::Native,
        latest_kind: Kind::Lock,
        switches: Listed::new(alloc),
        latest_switch: 1,
        events: Listed::new(alloc),
        latest_event: 1,
        programs: Listed::new(alloc),
        home: Site(1),
        program: Program::new(alloc),
    }
}

/// The workload that a text says. `Text` comes exactly where the text says none, with its first fault.
/// Want of memory is the only other error.
pub fn parse(alloc: Global, text: &[u8]) -> Result<Workload, Refused>
    requires short { length text.now + 1 < 2 ^ 32 }
    // What is given is what the text says.
    ensures reads { IfOk result (λ w. Reads text.now w) }
    // What the text says is given, unless memory is refused.
    ensures only { (w : Workload) → Reads text.now w → IsGiven w result }
    // A refusal names the first fault.
    ensures first { IfErr result (IsFirst text.now) }
{
    read_lines(alloc, text)
}

/// The lines in order, up to the first that is at fault.
fn read_lines(alloc: Global, text: &[u8]) -> Result<Workload, Refused>
    requires { length text.now + 1 < 2 ^ 32 }
    ensures { Answers result (outcome_of text.now) }
{
    let mut state = start(alloc);
    let mut names = Names::new(alloc);
    let mut number = 1;
    let mut rest = text;
    while let Some((line, after)) = next_line(rest) {
        if let Err(error) = take_line(alloc, &mut state, &mut names, line) {
            return Err(refusal(number, error));
        }
        number += 1;
        rest = after;
    }
    finish(state, number)
}

/// The refusal of the line with this number.
fn refusal(number: u32, error: LineError) -> Refused
    ensures { result ≡ refusal_of number error }
{
    match error {
        LineError::NoMemory => Refused::NoMemory,
        LineError::Fault(fault) => Refused::Text {
            line: number,
            fault,
        },
    }
}

/// What the lines said, where they have an end. The number is that of the line past the last.
#[tactic(auto, unfolding(crate::specs::Outcome::ended))]
fn finish(state: State, number: u32) -> Result<Workload, Refused>
    requires { IsTrue (are_kept (said_by state)) }
    ensures { Answers result (ended number state) }
{
    if !matches!(state.place, Place::Over) {
        return Err(Refused::Text {
            line: number,
            fault: Fault::End,
        });
    }
    Ok(Workload {
        version: state.version,
        restarts: state.restarts,
        sites: state.sites,
        together: state.together,
        items: state.items,
        kind: state.kind,
        structure: state.structure,
        switches: state.switches,
        events: state.events,
        programs: state.programs,
    })
}
