//! What a text says, and how that is printed.

use anyhow::{Result, bail};
use raid_base::{Bytes, Duplicate, Kind, Listed, Site, Sites};
use raid_generator::make;
use raid_text::{Refused, parse, print};
use raid_workload::{Workload, placement};
use std::alloc::Global;

/// The most bytes that a text has.
const MOST: usize = 4_194_304;

/// Adds the bytes of a line, in which `\xHH` stands for a byte.
pub fn put_line(out: &mut Bytes, line: &str) -> Result<()> {
    for (k, part) in line.split("\\x").enumerate() {
        if k == 0 {
            out.push_all(part.as_bytes())?;
            continue;
        }
        let Some((digits, rest)) = part.split_at_checked(2) else {
            bail!("no byte");
        };
        out.push(u8::from_str_radix(digits, 16)?)?;
        out.push_all(rest.as_bytes())?;
    }
    Ok(())
}

/// The workload that a text says.
pub fn workload(alloc: Global, text: &[u8]) -> Result<Workload> {
    if text.len() > MOST {
        bail!("a text is too long");
    }
    Ok(parse(alloc, text)?)
}

/// What a text reads as: `read`, or what it is refused for.
fn reading(alloc: Global, text: &[u8]) -> Result<Bytes> {
    if text.len() > MOST {
        bail!("a text is too long");
    }
    let mut said = Listed::new(alloc);
    match parse(alloc, text) {
        Ok(_) => said.push_all(b"read")?,
        Err(Refused::NoMemory) => bail!("no memory"),
        Err(Refused::Text { line, fault }) => {
            let number = fault.number();
            let head = format!(in alloc; "refused line {line} fault {number} ")?;
            said.push_all(head.as_bytes())?;
            said.push_all(fault.word())?;
        }
    }
    Ok(said)
}

/// Whether the text reads as the line says.
pub fn reads_so(alloc: Global, text: &[u8], line: &str) -> Result<bool> {
    Ok(reading(alloc, text)?.as_slice() == line.as_bytes())
}

/// The word of a kind.
fn kind_word(kind: Kind) -> &'static str {
    match kind {
        Kind::Lock => "lock",
        Kind::Stamp => "stamp",
        Kind::Valid => "valid",
        Kind::Graph => "graph",
    }
}

/// Whether these are the holders of the items: a word for each, of the sites' digits.
fn are_holders(alloc: Global, workload: &Workload, words: &str) -> Result<bool> {
    let placed = placement(alloc, workload)?;
    let mut place = 0usize;
    let mut same = true;
    for word in words.split_whitespace() {
        let mut sites = Sites::none();
        for byte in word.as_bytes() {
            sites = sites.with(Site(byte.saturating_sub(b'0').clamp(1, 8)));
        }
        same = same && placed.as_slice().get(place) == Some(&sites);
        place = place.saturating_add(1);
    }
    Ok(same && place == placed.len())
}

/// Whether the workload that the text says is so.
pub fn has(alloc: Global, text: &[u8], words: &str) -> Result<bool> {
    let workload = workload(alloc, text)?;
    let Some((what, value)) = words.split_once(' ') else {
        bail!("nothing is wanted");
    };
    match what {
        "version" => Ok(workload.version == value.parse::<u8>()?),
        "restarts" => Ok(workload.restarts == value.parse::<u8>()?),
        "items" => Ok(workload.items.len() == value.parse::<usize>()?),
        "kind" => Ok(kind_word(workload.kind) == value),
        "holders" => are_holders(alloc, &workload, value),
        _ => bail!("no part of a workload"),
    }
}

/// Whether a copy of the workload that the text says is printed so.
pub fn prints(alloc: Global, text: &[u8], wanted: &[u8]) -> Result<bool> {
    let again = workload(alloc, text)?.copy(alloc)?;
    Ok(print(alloc, &again)?.as_slice() == wanted)
}

/// Whether the workload of a seed, with so many programs, is printed with this end.
pub fn is_made(alloc: Global, words: &str, wanted: &[u8]) -> Result<bool> {
    let Some((seed, programs)) = words.split_once(' ') else {
        bail!("no seed");
    };
    let count = programs.parse::<u32>()?;
    if count < 1 || count > 2000 {
        bail!("no such count of programs");
    }
    let workload = make(alloc, seed.parse::<u32>()?, count)?;
    Ok(print(alloc, &workload)?.as_slice().ends_with(wanted))
}
