//! The stages of a view. Each has a controller of its own, which starts with what the one before it carries.

use crate::hear::hear;
use crate::tally::Tally;
use anyhow::Result;
use raid_base::{Kind, Listed, Structure};
use raid_control::Carry;
use raid_generic::GenericControl;
use raid_graph::GraphControl;
use raid_lock::LockControl;
use raid_stamp::StampControl;
use raid_switch::Control;
use raid_valid::ValidControl;
use raid_view_lines::words::Word;
use std::alloc::Global;

/// The kind of a stage's controllers, and the lines that they hear.
#[derive(Drop)]
pub struct Stage {
    pub kind: Kind,
    pub lines: Listed<Listed<Word>>,
}

/// Tells a fresh controller a stage, and answers what it carries then.
fn run(
    alloc: Global,
    mut control: Control,
    carry: &Carry,
    stage: &Stage,
    tally: &mut Tally,
) -> Result<Carry> {
    control.load(carry)?;
    hear(alloc, &mut control, tally, stage.lines.as_slice())?;
    let carry = control.carry(alloc)?;
    Ok(carry)
}

/// Runs a stage with the native controller of its kind.
fn run_native(alloc: Global, carry: &Carry, stage: &Stage, tally: &mut Tally) -> Result<Carry> {
    match stage.kind {
        Kind::Lock => {
            let control = Box::new(alloc, LockControl::new(alloc, 2, 2)?)?;
            run(alloc, control, carry, stage, tally)
        }
        Kind::Stamp => {
            let control = Box::new(alloc, StampControl::new(alloc, 2, 2)?)?;
            run(alloc, control, carry, stage, tally)
        }
        Kind::Valid => {
            let control = Box::new(alloc, ValidControl::new(alloc, 2, 2)?)?;
            run(alloc, control, carry, stage, tally)
        }
        Kind::Graph => {
            let control = Box::new(alloc, GraphControl::new(alloc, 2, 2)?)?;
            run(alloc, control, carry, stage, tally)
        }
    }
}

/// Runs a stage with a controller of the kind and structure.
fn run_stage(
    alloc: Global,
    structure: Structure,
    carry: &Carry,
    stage: &Stage,
    tally: &mut Tally,
) -> Result<Carry> {
    match structure {
        Structure::Native => run_native(alloc, carry, stage, tally),
        Structure::GenericState => {
            let control = Box::new(alloc, GenericControl::new(alloc, stage.kind, 2, 2)?)?;
            run(alloc, control, carry, stage, tally)
        }
    }
}

/// Runs the stages of a view with controllers of one structure.
pub fn run_view(
    alloc: Global,
    structure: Structure,
    stages: &[Stage],
    tally: &mut Tally,
) -> Result<()> {
    let mut carry = Carry::new(alloc);
    for stage in stages {
        carry = run_stage(alloc, structure, &carry, stage, tally)?;
    }
    Ok(())
}
