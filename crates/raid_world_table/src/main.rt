//! Lets worlds take the steps of schedules, and compares the reports at their ends with those that stand before the schedules: what a
//! reference model has, or what was worked out by hand (tests/make_schedules.py has the form of the lines).
//!
//! Each schedule is taken by a new world. Each of its picks has to find a letter, and no letter may be left behind the last, but where
//! the line says so. A schedule that ends otherwise is named, with what came of it.
//!
//! With the word `fixed` it reads workloads alone, runs each in the fixed order, always the least server that has a letter, from the least sender
//! that it has one from, and prints the report. The program `raid` runs each server in a thread of its own, so what it prints may differ from call
//! to call; this report doesn't, and tests that compare bytes take it.
#![tactic(auto)]

mod picks;
mod running;
mod tally;

use anyhow::{Result, bail};
use picks::picks;
use raid_letter_lines::Text;
use raid_workload::Workload;
use running::{End, run_fixed, run_schedule};
use std::{env, mem};
use tally::Tally;

/// What has been read: the workload, the report that its schedules are to lead to, and the counts.
#[derive(Drop)]
struct Table {
    text: Text,
    workload: Option<Workload>,
    report: Text,
    part: Tally,
    all: Tally,
}

impl Table {
    /// Whether a schedule ended as it was to.
    fn is_wanted(&self, rt: &HostRuntime, end: &End, leaves: bool) -> Result<bool> {
        match end {
            End::NoLetter(k) => println!(rt; "pick {k} finds no letter")?,
            End::Told { is_left, text } => {
                if *is_left == leaves && text.as_slice() == self.report.as_bytes()? {
                    return Ok(true);
                }
                println!(rt; "letters are left: {is_left}")?;
                if let Ok(text) = str::from_utf8(text.as_slice()) {
                    println!(rt; "{text}")?;
                }
            }
        }
        Ok(false)
    }

    /// Runs the schedule of a line.
    fn run(&mut self, rt: &HostRuntime, words: &str, leaves: bool) -> Result<()> {
        let Some(workload) = &self.workload else {
            bail!("no workload");
        };
        let picks = picks(rt.alloc(), words)?;
        let end = run_schedule(rt.alloc(), workload, picks.as_slice())?;
        let is_alike = self.is_wanted(rt, &end, leaves)?;
        self.part.count(picks.len(), is_alike);
        if !is_alike {
            println!(rt; "so in schedule {} of its part", self.part.schedules)?;
        }
        Ok(())
    }

    /// Adds a line of a workload or report text.
    fn add_text(&mut self, rt: &HostRuntime, line: &str) -> Result<()> {
        if !self.text.add(line)? {
            return Ok(());
        }
        if self.text.is_report() {
            self.report = mem::replace(&mut self.text, Text::new(rt.alloc()));
            return Ok(());
        }
        let Ok(workload) = raid_text::parse(rt.alloc(), self.text.as_bytes()?) else {
            bail!("no workload text");
        };
        self.workload = Some(workload);
        Ok(())
    }

    /// Tells how many schedules a part had.
    fn end_part(&mut self, rt: &HostRuntime, name: &str) -> Result<()> {
        println!(rt;
            "{name}: {} schedules of {} picks",
            self.part.schedules, self.part.picks
        )?;
        self.all.add(self.part);
        self.part = Tally::new();
        Ok(())
    }

    /// Adds a line.
    fn add(&mut self, rt: &HostRuntime, line: &str) -> Result<()> {
        let (head, words) = line.split_once(' ').unwrap_or((line, ""));
        match head {
            "picks" => self.run(rt, words, false),
            "left" => self.run(rt, words, true),
            "count" => self.end_part(rt, words),
            _ => self.add_text(rt, line),
        }
    }
}

/// The word with which workloads are run in the fixed order.
const FIXED: &str = "fixed";

/// Whether the program was called with that word.
fn is_fixed(rt: &HostRuntime) -> Result<bool> {
    for word in env::args(rt)?.skip(1) {
        if word.as_str() == FIXED {
            return Ok(true);
        }
    }
    Ok(false)
}

/// Prints the report of a run of the workload in the fixed order.
fn print_fixed(rt: &HostRuntime, text: &Text) -> Result<()> {
    let Ok(workload) = raid_text::parse(rt.alloc(), text.as_bytes()?) else {
        bail!("no workload text");
    };
    let report = run_fixed(rt.alloc(), &workload)?;
    if let Ok(report) = str::from_utf8(report.as_slice()) {
        print!(rt; "{report}")?;
    }
    Ok(())
}

/// Prints the report of each workload that is read.
fn print_all_fixed(rt: &HostRuntime) -> Result<()> {
    let mut text = Text::new(rt.alloc());
    for line in rt.lines(rt.alloc()) {
        let line = line?;
        if text.add(line.as_str())? {
            print_fixed(rt, &text)?;
            text = Text::new(rt.alloc());
        }
    }
    Ok(())
}

fn main(rt: HostRuntime) -> Result<()> {
    if is_fixed(&rt)? {
        return print_all_fixed(&rt);
    }
    let mut table = Table {
        text: Text::new(rt.alloc()),
        workload: None,
        report: Text::new(rt.alloc()),
        part: Tally::new(),
        all: Tally::new(),
    };
    for line in rt.lines(rt.alloc()) {
        let line = line?;
        table.add(&rt, line.as_str())?;
    }
    println!(rt;
        "{} schedules of {} picks, {} end otherwise",
        table.all.schedules, table.all.picks, table.all.differ
    )?;
    Ok(())
}
