//! Lets sequencers hear letters, and compares what they send, the entries of their histories in the end, and the serial order of those
//! that have committed, with what stands beside the letters. The first sequences are worked by hand; the others are random, and what is
//! wanted is what a reference model has (tests/make_sequencer_letters.py has the form of the lines).
//!
//! Where a sequencer answers otherwise, that is printed, and the name of the sequence.
#![tactic(auto)]

mod hearing;
mod wanted;

use anyhow::{Result, bail};
use hearing::hears_alike;
use raid_letter_lines::{Step, Text, Words, add_line};
use raid_workload::Workload;
use wanted::Wanted;

/// What has been read: the workload, and the sequence so far.
#[derive(Drop)]
struct Table {
    text: Text,
    workload: Option<Workload>,
    name: String,
    steps: Vec<Step>,
    wanted: Wanted,
    sequences: u32,
    letters: usize,
    entries: usize,
    differ: u32,
}

impl Table {
    /// Nothing has been read.
    fn new(rt: &HostRuntime) -> Table {
        Table {
            text: Text::new(rt.alloc()),
            workload: None,
            name: String::new(rt.alloc()),
            steps: Vec::new(rt.alloc()),
            wanted: Wanted::new(rt.alloc()),
            sequences: 0,
            letters: 0,
            entries: 0,
            differ: 0,
        }
    }

    /// Begins a sequence of this name.
    fn begin(&mut self, rt: &HostRuntime, name: &str) -> Result<()> {
        let Some(workload) = &self.workload else {
            bail!("no workload");
        };
        self.name.clear();
        self.name.push_str(name)?;
        self.steps.clear();
        self.wanted.begin(rt.alloc(), workload)
    }

    /// Hears the sequence, whose last line has this order.
    fn hear(&mut self, rt: &HostRuntime, order: &str) -> Result<()> {
        let Some(workload) = &self.workload else {
            bail!("no workload");
        };
        self.wanted.add(order)?;
        let wanted = self.wanted.read(rt.alloc(), workload)?;
        self.sequences = self.sequences.saturating_add(1);
        self.letters = self.letters.saturating_add(self.steps.len());
        self.entries = self.entries.saturating_add(wanted.entries.len());
        if !hears_alike(rt, workload, self.steps.as_slice(), &wanted)? {
            self.differ = self.differ.saturating_add(1);
            println!(rt; "so in sequence {}", self.name.as_str())?;
        }
        Ok(())
    }

    /// Adds a line of a workload text.
    fn add_text(&mut self, rt: &HostRuntime, line: &str) -> Result<()> {
        if self.text.add(line)? {
            let Ok(workload) = raid_text::parse(rt.alloc(), self.text.as_bytes()?) else {
                bail!("no workload text");
            };
            self.workload = Some(workload);
        }
        Ok(())
    }

    /// Adds a line.
    fn add(&mut self, rt: &HostRuntime, line: &str) -> Result<()> {
        if add_line(rt.alloc(), &mut self.steps, line)? {
            return Ok(());
        }
        if let Some(name) = line.strip_prefix("sequence ") {
            return self.begin(rt, name);
        }
        let word = Words::new(line).word();
        if word == "order" {
            return self.hear(rt, line);
        }
        if word.parse::<u32>().is_ok() {
            return self.wanted.add(line);
        }
        self.add_text(rt, line)
    }
}

fn main(rt: HostRuntime) -> Result<()> {
    let mut table = Table::new(&rt);
    for line in rt.lines(rt.alloc()) {
        let line = line?;
        table.add(&rt, line.as_str())?;
    }
    println!(rt;
        "{} sequences of {} letters and {} entries, {} heard otherwise",
        table.sequences, table.letters, table.entries, table.differ
    )?;
    Ok(())
}
