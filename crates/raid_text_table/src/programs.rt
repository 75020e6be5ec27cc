//! What a program comes to.

use anyhow::{Result, bail};
use raid_base::{Duplicate, Item, Listed, Pairs};
use raid_program::{Program, Run, Table, Want};
use raid_workload::Workload;
use std::alloc::Global;

/// The item that a word names by its number.
fn item(word: &str) -> Result<Item> {
    Ok(Item(word.parse::<u16>()?))
}

/// The pairs that words say, each `ITEM=VALUE`.
pub fn pairs(alloc: Global, words: &str) -> Result<Pairs> {
    let mut pairs = Listed::new(alloc);
    for word in words.split_whitespace() {
        let Some((number, value)) = word.split_once('=') else {
            bail!("no value");
        };
        pairs.push((item(number)?, value.parse::<i64>()?))?;
    }
    Ok(pairs)
}

/// The end that a word says.
fn end(word: &str) -> Result<Want> {
    match word {
        "done" => Ok(Want::Done),
        "own" => Ok(Want::Own),
        "overflow" => Ok(Want::Overflow),
        _ => bail!("no end of a program"),
    }
}

/// The items, each with the value that it opens with.
fn opening(alloc: Global, workload: &Workload) -> Result<Pairs> {
    let mut pairs = Listed::new(alloc);
    for (k, line) in workload.items.as_slice().iter().enumerate() {
        pairs.push((Item(u16::try_from(k)?), line.value))?;
    }
    Ok(pairs)
}

/// The first program.
fn first(workload: &Workload) -> Result<&Program> {
    match workload.programs.as_slice().first() {
        Some(homed) => Ok(&homed.program),
        None => bail!("no program"),
    }
}

/// Whether the first program ends so, having read and written this.
pub fn runs(
    alloc: Global,
    workload: &Workload,
    word: &str,
    reads: &[(Item, i64)],
    writes: &[(Item, i64)],
) -> Result<bool> {
    let mut table = Table::new(alloc, &opening(alloc, workload)?)?;
    let outcome = table.run(alloc, &first(workload)?.copy(alloc)?)?;
    Ok(
        outcome.end == end(word)?
            && outcome.reads.as_slice() == reads
            && outcome.writes.as_slice() == writes,
    )
}

/// Whether an item has this value, or none, once the first program has run.
pub fn leaves(alloc: Global, workload: &Workload, words: &str) -> Result<bool> {
    let Some((number, value)) = words.split_once('=') else {
        bail!("no value");
    };
    let mut table = Table::new(alloc, &opening(alloc, workload)?)?;
    table.run(alloc, first(workload)?)?;
    let left = table.value(item(number)?);
    match value {
        "none" => Ok(left == None),
        _ => Ok(left == Some(value.parse::<i64>()?)),
    }
}

/// Whether the first program asks for an item, also a second time, and once it has the value ends so, having read and written this.
pub fn asks(
    alloc: Global,
    workload: &Workload,
    words: &str,
    reads: &[(Item, i64)],
    writes: &[(Item, i64)],
) -> Result<bool> {
    let Some((asked, word)) = words.split_once(' ') else {
        bail!("no end of a program");
    };
    let Some((number, value)) = asked.split_once('=') else {
        bail!("no value");
    };
    let wanted = Want::Read(item(number)?);
    let program = first(workload)?;
    let mut run = Run::new(alloc, program)?;
    let once = run.next(program);
    let again = run.next(program);
    if let Want::Read(_) = again {
        run.give(value.parse::<i64>()?);
    }
    let last = run.next(program);
    Ok(
        once == wanted
            && again == wanted
            && last == end(word)?
            && run.reads() == reads
            && run.writes() == writes,
    )
}
