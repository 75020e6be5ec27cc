//! Runs controllers over long histories in which every action is granted, so that they can be timed
//! (tests/speed.py).
//!
//! Each line of the input says `KIND native N` or `KIND generic N`: a controller of that kind and structure judges
//! and notes N transactions, one after the other; `entries alone N` makes their entries without a controller. The answer
//! repeats the line, with how many of the 2 N verdicts were grants.
#![tactic(auto)]

mod pattern;

use anyhow::{Result, bail};
use pattern::{make_all, run_all};
use raid_base::Kind;
use raid_generic::GenericControl;
use raid_graph::GraphControl;
use raid_lock::LockControl;
use raid_stamp::StampControl;
use raid_valid::ValidControl;
use std::alloc::Global;

/// How many items the pattern goes round.
const ITEMS: u32 = 1024;

fn kind_of(word: &str) -> Result<Kind> {
    match word {
        "lock" => Ok(Kind::Lock),
        "stamp" => Ok(Kind::Stamp),
        "valid" => Ok(Kind::Valid),
        "graph" => Ok(Kind::Graph),
        _ => bail!("no kind of controller"),
    }
}

/// Runs the native controller of a kind.
fn run_native(alloc: Global, kind: Kind, count: u32) -> Result<u32> {
    match kind {
        Kind::Lock => {
            let mut control = LockControl::new(alloc, count, ITEMS)?;
            Ok(run_all(alloc, &mut control, count)?)
        }
        Kind::Stamp => {
            let mut control = StampControl::new(alloc, count, ITEMS)?;
            Ok(run_all(alloc, &mut control, count)?)
        }
        Kind::Valid => {
            let mut control = ValidControl::new(alloc, count, ITEMS)?;
            Ok(run_all(alloc, &mut control, count)?)
        }
        Kind::Graph => {
            let mut control = GraphControl::new(alloc, count, ITEMS)?;
            Ok(run_all(alloc, &mut control, count)?)
        }
    }
}

/// Runs the generic controller as one of a kind.
fn run_generic(alloc: Global, kind: Kind, count: u32) -> Result<u32> {
    let mut control = GenericControl::new(alloc, kind, count, ITEMS)?;
    Ok(run_all(alloc, &mut control, count)?)
}

/// Runs what the words of a line say.
fn run(alloc: Global, first: &str, second: &str, count: u32) -> Result<u32> {
    match second {
        "native" => run_native(alloc, kind_of(first)?, count),
        "generic" => run_generic(alloc, kind_of(first)?, count),
        "alone" => Ok(make_all(alloc, count)?),
        _ => bail!("no structure"),
    }
}

/// Runs what a line says, and answers how many grants there were.
fn run_line(alloc: Global, line: &str) -> Result<u32> {
    let mut words = line.split_whitespace();
    match (words.next(), words.next(), words.next()) {
        (Some(first), Some(second), Some(count)) => {
            run(alloc, first, second, count.parse::<u32>()?)
        }
        _ => bail!("no three words"),
    }
}

fn main(rt: HostRuntime) -> Result<()> {
    for line in rt.lines(rt.alloc()) {
        let line = line?;
        let grants = run_line(rt.alloc(), line.as_str())?;
        println!(rt; "{}: {grants} grants", line.as_str())?;
    }
    Ok(())
}
