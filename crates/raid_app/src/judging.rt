//! What is said of a workload and a report by the commands that judge it.
ghost use Rattle.std.specs.Prelude.{◌≡◌, ◌≤◌, true, length, IfOk};
ghost use Rattle.raid_force.specs.Lasting.{AreClear, are_whole};
ghost use Rattle.raid_app.specs.Answer.{OfText};
ghost use Rattle.raid_app.specs.Judged.{is_sound, JudgesInput, JudgesReport, JudgesTexts, most};
ghost use Rattle.raid_app.specs.Wanted.{told_of};

use crate::answer::Answer;
use crate::input::split;
use crate::lines::{fault_line, finding_line, unfit_line};
use crate::statuses::{DONE, NO_MEMORY, REFUSED, UNREAD, UNSOUND};
use crate::wanted::{Wanted, told};
use raid_base::NoMemory;
use raid_check::{Finding, check};
use raid_control::{Controller, Rack};
use raid_io::{ReadError, Source, read_up_to};
use raid_report::ReportRefused;
use raid_text::Refused;
use raid_workload::Workload;
use std::alloc::Global;

/// The most bytes that a workload and a report may have together.
pub const MOST: usize = 16_777_216;

/// Whether the finding is that all is right.
fn is_sound(finding: Finding) -> bool
    ensures { result ≡ is_sound finding }
{
    matches!(finding, Finding::Sound)
}

/// What is to be said of a report's text.
fn answer_report(
    alloc: Global,
    wanted: Wanted,
    workload: &Workload,
    text: &[u8],
    rack: Rack,
) -> Result<Answer, NoMemory>
    requires short { length text.now ≤ most }
    requires whole { are_whole ⟦<dyn Controller as Controller>⟧ rack.slots.items ≡ true }
    requires clear { AreClear ⟦<dyn Controller as Controller>⟧ rack.slots.items }
    ensures { IfOk result (JudgesReport (told_of wanted) workload.now text.now) }
{
    match raid_report::parse(alloc, workload, text) {
        Ok(report) => {
            let finding = check(alloc, workload, &report, rack)?;
            if is_sound(finding) {
                let text = told(alloc, wanted, workload, &report)?;
                Ok(Answer::saying(alloc, DONE, text))
            } else {
                let text = finding_line(alloc, finding)?;
                Ok(Answer::saying(alloc, UNSOUND, text))
            }
        }
        Err(ReportRefused::NoMemory) => Err(NoMemory),
        Err(ReportRefused::Line(line)) => {
            let text = unfit_line(alloc, line)?;
            Ok(Answer::saying(alloc, REFUSED, text))
        }
    }
}

/// What is to be said of a workload's text and a report's.
fn answer_texts(
    alloc: Global,
    wanted: Wanted,
    text: &[u8],
    report: &[u8],
    rack: Rack,
) -> Result<Answer, NoMemory>
    requires short { length text.now ≤ most }
    requires behind { length report.now ≤ most }
    requires whole { are_whole ⟦<dyn Controller as Controller>⟧ rack.slots.items ≡ true }
    requires clear { AreClear ⟦<dyn Controller as Controller>⟧ rack.slots.items }
    ensures { IfOk result (JudgesTexts (told_of wanted) text.now report.now) }
{
    match raid_text::parse(alloc, text) {
        Ok(workload) => answer_report(alloc, wanted, &workload, report, rack),
        Err(Refused::NoMemory) => Err(NoMemory),
        Err(Refused::Text { line, fault }) => {
            let text = fault_line(alloc, line, fault)?;
            Ok(Answer::saying(alloc, REFUSED, text))
        }
    }
}

/// What is to be said of an input.
fn answer_input(alloc: Global, wanted: Wanted, input: &[u8], rack: Rack) -> Result<Answer, NoMemory>
    requires whole { are_whole ⟦<dyn Controller as Controller>⟧ rack.slots.items ≡ true }
    requires clear { AreClear ⟦<dyn Controller as Controller>⟧ rack.slots.items }
    ensures { IfOk result (JudgesInput (told_of wanted) input.now) }
{
    if input.len() > MOST {
        return Answer::too_long(alloc);
    }
    let (text, report) = split(input);
    answer_texts(alloc, wanted, text, report, rack)
}

/// What is to be said of the bytes of a source, a workload's text with a report's behind it: what is wanted of a sound report, or what
/// is wrong.
pub(crate) fn answer_judged<S: Source>(
    alloc: Global,
    wanted: Wanted,
    source: &mut S,
    rack: Rack,
) -> Answer
    requires whole { are_whole ⟦<dyn Controller as Controller>⟧ rack.slots.items ≡ true }
    requires clear { AreClear ⟦<dyn Controller as Controller>⟧ rack.slots.items }
    ensures { OfText most (JudgesInput (told_of wanted)) (record { before = S.left source.old; after = S.left source.new; faults = S.faults source.old; faults_after = S.faults source.new }) result }
{
    match read_up_to(alloc, source, MOST + 1) {
        Ok(input) => Answer::settled(alloc, answer_input(alloc, wanted, input.as_slice(), rack)),
        Err(ReadError::Failed) => Answer::silent(alloc, UNREAD),
        Err(ReadError::NoMemory) => Answer::silent(alloc, NO_MEMORY),
    }
}
