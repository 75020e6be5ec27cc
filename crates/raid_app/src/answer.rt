ghost use Rattle.std.specs.Prelude.{◌≡◌, ℕ, ◌≤◌, true, length, IfOk, OnErr};
ghost use Rattle.raid_workload.specs.declared.workload.Workload.{Workload};
ghost use Rattle.raid_generator.specs.Made.{IsMade};
ghost use Rattle.raid_text.specs.Spelling.{print_of};
ghost use Rattle.raid_force.specs.Lasting.{AreClear, are_whole};
ghost use Rattle.raid_app.specs.Answer.{OfText, Says, limit, saying, silent};
ghost use Rattle.raid_app.specs.Asked.{Asked};
ghost use Rattle.raid_app.specs.Lines.{too_long_line, usage_line};

use crate::judging::answer_judged;
use crate::lines::{TOO_LONG_LINE, USAGE_LINE, copied, fault_line};
use crate::running::run_workload;
use crate::statuses::{DONE, NO_MEMORY, REFUSED, UNREAD, USAGE};
use crate::wanted::Wanted;
use raid_base::{Bytes, NoMemory};
use raid_command::{Command, Words, command};
use raid_control::{Controller, Rack};
use raid_generator::make;
use raid_io::{ReadError, Source, read_up_to};
use raid_link::Gate;
use raid_merge::Schedule;
use raid_text::{Refused, parse, print};
use std::alloc::Global;
use std::thread::Threads;

/// The most bytes that a workload text may have.
pub const LIMIT: usize = 4_194_304;

/// What is to be said at the end of a call.
#[derive(Drop, Debug)]
pub struct Answer {
    /// The status, where the text can be written.
    pub status: u8,
    /// The text to write; None where nothing is to be written.
    pub text: Option<Bytes>,
    /// The picks of the run that was made; none where there was no run.
    pub schedule: Schedule,
}

impl Answer {
    /// The text is to be written, with this status. There was no run.
    pub(crate) fn saying(alloc: Global, status: u8, text: Bytes) -> Answer
        ensures { result ≡ saying status text }
    {
        Answer {
            status,
            text: Some(text),
            schedule: Schedule::new(alloc),
        }
    }

    /// Nothing is to be written, and there was no run.
    pub(crate) fn silent(alloc: Global, status: u8) -> Answer
        ensures { result ≡ silent status }
    {
        Answer {
            status,
            text: None,
            schedule: Schedule::new(alloc),
        }
    }

    /// What is to be said of words that are no command.
    fn usage(alloc: Global) -> Result<Answer, NoMemory>
        ensures { IfOk result (λ a. a ≡ saying 2 usage_line) }
    {
        let text = copied(alloc, USAGE_LINE)?;
        Ok(Answer::saying(alloc, USAGE, text))
    }

    /// What is to be said of a text that is too long.
    pub(crate) fn too_long(alloc: Global) -> Result<Answer, NoMemory>
        ensures { IfOk result (λ a. a ≡ saying 3 too_long_line) }
    {
        let text = copied(alloc, TOO_LONG_LINE)?;
        Ok(Answer::saying(alloc, REFUSED, text))
    }

    /// The answer that was found; nothing is said where memory was refused.
    pub(crate) fn settled(alloc: Global, found: Result<Answer, NoMemory>) -> Answer
        ensures found { IfOk found (λ a. result ≡ a) }
        ensures refused { OnErr found (result ≡ silent 6) }
    {
        match found {
            Ok(answer) => answer,
            Err(NoMemory) => Answer::silent(alloc, NO_MEMORY),
        }
    }
}

/// The workload that a seed and a count make is to be written.
fn answer_make(alloc: Global, seed: u32, count: u32) -> Result<Answer, NoMemory>
    requires some { 1 ≤ count }
    requires few { count ≤ 2000 }
    ensures { IfOk result (λ a. (w : Workload) × IsMade seed count w × (a ≡ saying 0 (print_of w))) }
{
    let workload = make(alloc, seed, count)?;
    let text = print(alloc, &workload)?;
    Ok(Answer::saying(alloc, DONE, text))
}

/// What is to be said of a text that isn't too long.
fn answer_text<R: Threads + Sync, G: Gate>(
    rt: &R,
    alloc: Global,
    brief: bool,
    text: &[u8],
    rack: Rack,
    gate: &G,
) -> Result<Answer, NoMemory>
    requires short { length text.now ≤ limit }
    requires whole { are_whole ⟦<dyn Controller as Controller>⟧ rack.slots.items ≡ true }
    requires clear { AreClear ⟦<dyn Controller as Controller>⟧ rack.slots.items }
    ensures { IfOk result (Says brief text.now) }
{
    match parse(alloc, text) {
        Ok(workload) => run_workload(rt, alloc, brief, &workload, rack, gate),
        Err(Refused::NoMemory) => Err(NoMemory),
        Err(Refused::Text { line, fault }) => {
            let text = fault_line(alloc, line, fault)?;
            Ok(Answer::saying(alloc, REFUSED, text))
        }
    }
}

/// What is to be said of these bytes.
fn answer_bytes<R: Threads + Sync, G: Gate>(
    rt: &R,
    alloc: Global,
    brief: bool,
    text: &[u8],
    rack: Rack,
    gate: &G,
) -> Result<Answer, NoMemory>
    requires whole { are_whole ⟦<dyn Controller as Controller>⟧ rack.slots.items ≡ true }
    requires clear { AreClear ⟦<dyn Controller as Controller>⟧ rack.slots.items }
    ensures { IfOk result (Says brief text.now) }
{
    if text.len() > LIMIT {
        Answer::too_long(alloc)
    } else {
        answer_text(rt, alloc, brief, text, rack, gate)
    }
}

/// What is to be said of the bytes of a source.
fn answer_source<R: Threads + Sync, S: Source, G: Gate>(
    rt: &R,
    alloc: Global,
    brief: bool,
    source: &mut S,
    rack: Rack,
    gate: &G,
) -> Answer
    requires whole { are_whole ⟦<dyn Controller as Controller>⟧ rack.slots.items ≡ true }
    requires clear { AreClear ⟦<dyn Controller as Controller>⟧ rack.slots.items }
    ensures { OfText limit (Says brief) (record { before = S.left source.old; after = S.left source.new; faults = S.faults source.old; faults_after = S.faults source.new }) result }
{
    match read_up_to(alloc, source, LIMIT + 1) {
        Ok(text) => Answer::settled(
            alloc,
            answer_bytes(rt, alloc, brief, text.as_slice(), rack, gate),
        ),
        Err(ReadError::Failed) => Answer::silent(alloc, UNREAD),
        Err(ReadError::NoMemory) => Answer::silent(alloc, NO_MEMORY),
    }
}

/// What is to be said to these words. Of the commands only `make` doesn't read the source.
pub fn answer_words<R: Threads + Sync, S: Source, G: Gate>(
    rt: &R,
    alloc: Global,
    words: &Words,
    source: &mut S,
    rack: Rack,
    gate: &G,
) -> Answer
    requires whole { are_whole ⟦<dyn Controller as Controller>⟧ rack.slots.items ≡ true }
    requires clear { AreClear ⟦<dyn Controller as Controller>⟧ rack.slots.items }
    ensures { Asked words.now (record { before = S.left source.old; after = S.left source.new; faults = S.faults source.old; faults_after = S.faults source.new }) result }
{
    match command(alloc, words) {
        Ok(Some(Command::Run { brief })) => answer_source(rt, alloc, brief, source, rack, gate),
        Ok(Some(Command::Make { seed, count })) => {
            Answer::settled(alloc, answer_make(alloc, seed, count))
        }
        Ok(Some(Command::Check)) => answer_judged(alloc, Wanted::Soundness, source, rack),
        Ok(Some(Command::Advise { last })) => {
            answer_judged(alloc, Wanted::Advice { last }, source, rack)
        }
        Ok(None) => Answer::settled(alloc, Answer::usage(alloc)),
        Err(NoMemory) => Answer::silent(alloc, NO_MEMORY),
    }
}
