//! Says of each of several report texts what it reads as: the report printed again with its summary, or the
//! line that doesn't fit.
//!
//! The input has a workload text and a report text in turn, each behind its length, four bytes with the most
//! significant first. Behind each answer comes the line `--`.
#![tactic(auto)]

ghost use Rattle.std.specs.Prelude.{◌<◌, ◌-◌, ◌^◌, length, IfSome};

use raid_report::{ReportRefused, brief, parse, print};
use raid_workload::Workload;
use std::io;
use std::io::{BufWriter, Read, Write};

/// The most bytes that a text may have.
const MOST: usize = 16_777_216;

/// The first text, and what stands behind it.
fn next_text(input: &[u8]) -> Option<(&[u8], &[u8])>
    ensures { IfSome result (λ x. length x.1.now < length input.now) }
{
    let [a, b, c, d, rest @ ..] = input else {
        return None;
    };
    let length = u32::from_be_bytes([*a, *b, *c, *d]) as usize;
    if length <= rest.len() {
        Some(rest.split_at(length))
    } else {
        None
    }
}

/// What a report text reads as under a workload.
fn answer<W: Write + Drop>(
    rt: &HostRuntime,
    out: &mut BufWriter<W>,
    workload: &Workload,
    text: &[u8],
) -> io::Result<()>
    requires { length text.now < 2 ^ 32 - 1 }
{
    match parse(rt.alloc(), workload, text) {
        Ok(report) => {
            let printed = print(rt.alloc(), workload, &report);
            let summary = brief(rt.alloc(), workload, &report);
            match (printed, summary) {
                (Ok(printed), Ok(summary)) => {
                    out.write_all(printed.as_slice())?;
                    out.write_all(summary.as_slice())
                }
                _ => out.write_all(b"no memory\n"),
            }
        }
        Err(ReportRefused::NoMemory) => out.write_all(b"no memory\n"),
        Err(ReportRefused::Line(line)) => write!(out, "line {line}\n"),
    }
}

fn answer_case<W: Write + Drop>(
    rt: &HostRuntime,
    out: &mut BufWriter<W>,
    workload: &[u8],
    text: &[u8],
) -> io::Result<()> {
    if workload.len() > MOST || text.len() > MOST {
        return out.write_all(b"too long\n");
    }
    match raid_text::parse(rt.alloc(), workload) {
        Ok(workload) => answer(rt, out, &workload, text),
        Err(_) => out.write_all(b"no workload\n"),
    }
}

fn main(rt: HostRuntime) -> io::Result<()> {
    let mut input = Vec::new(rt.alloc());
    rt.stdin().read_to_end(&mut input)?;
    let mut out = BufWriter::new(rt.alloc(), io::writer(&rt))?;
    let mut rest = input.as_slice();
    while let Some((workload, behind)) = next_text(rest) {
        let Some((text, others)) = next_text(behind) else {
            break;
        };
        answer_case(&rt, &mut out, workload, text)?;
        out.write_all(b"--\n")?;
        rest = others;
    }
    out.flush()
}
