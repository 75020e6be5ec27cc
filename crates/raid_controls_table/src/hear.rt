//! Lines, told to a controller of whatever kind and structure.

use crate::tally::Tally;
use anyhow::{Result, bail};
use raid_base::{Ask, Listed};
use raid_switch::Control;
use raid_view_lines::entries;
use raid_view_lines::words::{self, Head, Word};
use std::alloc::Global;

/// Notes an entry.
fn note(alloc: Global, control: &mut Control, line: &[Word]) -> Result<()> {
    let noted = entries::noted(alloc, line)?;
    control.note(noted.at, noted.stamp, &noted.entry)?;
    Ok(())
}

/// Compares the verdict on a read.
fn ask_read(control: &mut Control, tally: &mut Tally, line: &[Word]) -> Result<()> {
    let ask = Ask::Read {
        txn: words::txn(line, 1)?,
        stamp: words::number(line, 2)?,
        item: words::item(line, 3)?,
    };
    tally.verdict(control.judge(&ask), words::verdict(line, 4)?);
    Ok(())
}

/// Compares the verdict on a commit.
fn ask_commit(
    alloc: Global,
    control: &mut Control,
    tally: &mut Tally,
    line: &[Word],
) -> Result<()> {
    let txn = words::txn(line, 1)?;
    let stamp = words::number(line, 2)?;
    let wanted = words::verdict(line, 3)?;
    let reads = Listed::new(alloc);
    let writes = entries::pairs(alloc, line, 4, line.len())?;
    let ask = Ask::Commit {
        txn,
        stamp,
        reads: &reads,
        writes: &writes,
    };
    tally.verdict(control.judge(&ask), wanted);
    Ok(())
}

/// Compares who blocks whom.
fn blocks(alloc: Global, control: &Control, tally: &mut Tally, line: &[Word]) -> Result<()> {
    let reader = words::txn(line, 1)?;
    let writer = words::txn(line, 2)?;
    let wanted = words::answer(line, 3)?;
    let writes = entries::pairs(alloc, line, 4, line.len())?;
    tally.answer(control.blocks(reader, writer, &writes), wanted);
    Ok(())
}

/// Compares who is backward.
fn backward(control: &Control, tally: &mut Tally, line: &[Word]) -> Result<()> {
    let said = control.backward(words::txn(line, 1)?);
    tally.answer(said, words::answer(line, 2)?);
    Ok(())
}

/// Tells the controller a line, or asks it what the line asks.
fn hear_line(alloc: Global, control: &mut Control, tally: &mut Tally, line: &[Word]) -> Result<()> {
    match words::line_head(line)? {
        Head::Entry => note(alloc, control, line),
        Head::AskRead => ask_read(control, tally, line),
        Head::AskCommit => ask_commit(alloc, control, tally, line),
        Head::Blocks => blocks(alloc, control, tally, line),
        Head::Backward => backward(control, tally, line),
        Head::View | Head::Carried | Head::End => Ok(()),
        _ => bail!("no line of a controller's view"),
    }
}

/// Tells the controller all lines.
pub fn hear(
    alloc: Global,
    control: &mut Control,
    tally: &mut Tally,
    lines: &[Listed<Word>],
) -> Result<()> {
    for line in lines {
        hear_line(alloc, control, tally, line.as_slice())?;
    }
    Ok(())
}
