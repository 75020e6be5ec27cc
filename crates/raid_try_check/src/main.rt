//! Says what is found of each of several reports.
//!
//! The input has a workload text and a report text in turn, each behind its length, four bytes with the most
//! significant first. What is found of a report is one line.
#![tactic(auto)]

ghost use Rattle.std.specs.Prelude.{◌<◌, ◌-◌, ◌^◌, length, IfSome};

use raid_base::{NoMemory, Report};
use raid_check::{Finding, check};
use raid_full_rack::{Controllers, full_rack};
use raid_report::{ReportRefused, parse};
use raid_workload::Workload;
use std::io;
use std::io::{BufWriter, Read, Write};

/// The most bytes that a text may have.
const MOST: usize = 16_777_216;

/// The first text, and what stands behind it.
fn next_text(input: &[u8]) -> Option<(&[u8], &[u8])>
    ensures { IfSome result (λ x. length x.1.now < length input.now) }
{
    let [a, b, c, d, rest @ ..] = input else {
        return None;
    };
    let length = u32::from_be_bytes([*a, *b, *c, *d]) as usize;
    if length <= rest.len() {
        Some(rest.split_at(length))
    } else {
        None
    }
}

/// What is found of a report.
fn found(rt: &HostRuntime, workload: &Workload, report: &Report) -> Result<Finding, NoMemory> {
    let made = Controllers::new(rt.alloc())?;
    let rack = full_rack(
        rt.alloc(),
        made.lock,
        made.stamp,
        made.valid,
        made.graph,
        made.first,
        made.second,
    )?;
    check(rt.alloc(), workload, report, rack)
}

/// Tells what is found of a report.
fn tell<W: Write + Drop>(
    out: &mut BufWriter<W>,
    found: Result<Finding, NoMemory>,
) -> io::Result<()> {
    match found {
        Ok(Finding::Sound) => out.write_all(b"sound\n"),
        Ok(Finding::Legal(number)) => write!(out, "fails legal at {number}\n"),
        Ok(Finding::Serial) => out.write_all(b"fails serial\n"),
        Ok(Finding::Copies) => out.write_all(b"fails copies\n"),
        Ok(Finding::Finished) => out.write_all(b"fails finished\n"),
        Err(NoMemory) => out.write_all(b"no memory\n"),
    }
}

fn answer<W: Write + Drop>(
    rt: &HostRuntime,
    out: &mut BufWriter<W>,
    workload: &Workload,
    text: &[u8],
) -> io::Result<()>
    requires { length text.now < 2 ^ 32 - 1 }
{
    match parse(rt.alloc(), workload, text) {
        Ok(report) => tell(out, found(rt, workload, &report)),
        Err(ReportRefused::NoMemory) => out.write_all(b"no memory\n"),
        Err(ReportRefused::Line(line)) => write!(out, "refused report line {line}\n"),
    }
}

fn answer_case<W: Write + Drop>(
    rt: &HostRuntime,
    out: &mut BufWriter<W>,
    workload: &[u8],
    text: &[u8],
) -> io::Result<()> {
    if workload.len() > MOST || text.len() > MOST {
        return out.write_all(b"too long\n");
    }
    match raid_text::parse(rt.alloc(), workload) {
        Ok(workload) => answer(rt, out, &workload, text),
        Err(_) => out.write_all(b"no workload\n"),
    }
}

fn main(rt: HostRuntime) -> io::Result<()> {
    let mut input = Vec::new(rt.alloc());
    rt.stdin().read_to_end(&mut input)?;
    let mut out = BufWriter::new(rt.alloc(), io::writer(&rt))?;
    let mut rest = input.as_slice();
    while let Some((workload, behind)) = next_text(rest) {
        let Some((text, others)) = next_text(behind) else {
            break;
        };
        answer_case(&rt, &mut out, workload, text)?;
        rest = others;
    }
    out.flush()
}
