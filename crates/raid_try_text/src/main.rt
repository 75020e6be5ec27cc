//! Says of each of several texts what it reads as: the workload as it is printed, or the refusal line.
//!
//! The input has each text behind its length, four bytes with the most significant first. Behind each answer
//! comes the line `--`.
#![tactic(auto)]

ghost use Rattle.std.specs.Prelude.{◌<◌, length, IfSome};

use raid_text::{Refused, parse, print};
use std::io;
use std::io::{BufWriter, Read, Write};

/// The first text, and what stands behind it.
fn next_text(input: &[u8]) -> Option<(&[u8], &[u8])>
    ensures { IfSome result (λ x. length x.1.now < length input.now) }
{
    let [a, b, c, d, rest @ ..] = input else {
        return None;
    };
    let length = u32::from_be_bytes([*a, *b, *c, *d]) as usize;
    if length <= rest.len() {
        Some(rest.split_at(length))
    } else {
        None
    }
}

/// What one text reads as.
fn answer<W: Write + Drop>(
    rt: &HostRuntime,
    out: &mut BufWriter<W>,
    text: &[u8],
) -> io::Result<()> {
    if text.len() >= 4_194_305 {
        return out.write_all(b"too long\n");
    }
    match parse(rt.alloc(), text) {
        Ok(workload) => match print(rt.alloc(), &workload) {
            Ok(printed) => out.write_all(printed.as_slice()),
            Err(_) => out.write_all(b"no memory\n"),
        },
        Err(Refused::NoMemory) => out.write_all(b"no memory\n"),
        Err(Refused::Text { line, fault }) => {
            write!(out, "refused line {line} fault {} ", fault.number())?;
            out.write_all(fault.word())?;
            out.write_all(b"\n")
        }
    }
}

fn main(rt: HostRuntime) -> io::Result<()> {
    let mut input = Vec::new(rt.alloc());
    rt.stdin().read_to_end(&mut input)?;
    let mut out = BufWriter::new(rt.alloc(), io::writer(&rt))?;
    let mut rest = input.as_slice();
    while let Some((text, behind)) = next_text(rest) {
        answer(&rt, &mut out, text)?;
        out.write_all(b"--\n")?;
        rest = behind;
    }
    out.flush()
}
