//! The controllers in force, told a history.

use crate::book::Book;
use crate::era::{Era, Step};
use crate::tally::Tally;
use anyhow::{Result, bail};
use raid_base::{Kind, Structure};
use raid_control::{Blocks, Controller, Rack};
use raid_full_rack::{Controllers, full_rack};
use raid_switch::{Control, Eras};
use std::alloc::Global;

/// Tells a history to new controllers of one structure.
pub fn run_era(alloc: Global, structure: Structure, era: &Era, tally: &mut Tally) -> Result<()> {
    let made = Controllers::new(alloc)?;
    let rack = full_rack(
        alloc,
        made.lock,
        made.stamp,
        made.valid,
        made.graph,
        made.first,
        made.second,
    )?;
    take_both(alloc, rack, structure, era, tally)
}

/// Tells a history to controllers of the rack.
fn take_both(
    alloc: Global,
    rack: Rack,
    structure: Structure,
    era: &Era,
    tally: &mut Tally,
) -> Result<()> {
    let mut rack = rack;
    let (Some(first), Some(next)) = (rack.take(era.old, structure), rack.take(era.new, structure))
    else {
        bail!("no controller serves");
    };
    let mut first = first.control;
    let mut next = next.control;
    first.set_kind(era.old);
    next.set_kind(era.new);
    decide(alloc, first, next, era.steps.as_slice(), tally)
}

/// Tells a history to one controller, with which another is joined.
fn decide(
    alloc: Global,
    first: Control,
    next: Control,
    steps: &[Step],
    tally: &mut Tally,
) -> Result<()> {
    let mut book = Book::new(alloc)?;
    let mut eras = Eras::new(first);
    let mut next = Some(next);
    for step in steps {
        match step {
            Step::Place(noted) => {
                eras.note(noted.at, noted.stamp, &noted.entry)?;
                book.place(alloc, noted)?;
            }
            Step::Judge(question, wanted) => tally.count(eras.judge(&question.ask()) == *wanted),
            Step::Blocks(reader, writer, writes, wanted) => {
                tally.count(eras.blocks(*reader, *writer, writes) == *wanted);
            }
            Step::Join => {
                let Some(mut control) = next.take() else {
                    bail!("a switch is on already");
                };
                if eras.is_joint() {
                    bail!("a switch is on already");
                }
                control.clear();
                eras.turn_suffix(control, book.history.len());
            }
            Step::Due(wanted) => {
                let due = eras.is_joint()
                    && eras.end_due(&mut book.graph, book.history.running(), &book.history);
                tally.count(due == *wanted);
            }
            Step::Part => {
                if !eras.is_joint() {
                    bail!("no switch is on");
                }
                let _old = eras.end_suffix();
            }
        }
    }
    Ok(())
}
