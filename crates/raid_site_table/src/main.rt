//! Lets sites hear letters, and compares what they send, and their state and copies in the end, with what stands beside the letters. The
//! first sequences are worked by hand; the others are random, and what is wanted is what a reference model has (tests/make_letters.py has
//! the form of the lines).
//!
//! The first letter of a sequence that a site answers otherwise is printed, and what it sends then.
#![tactic(auto)]

mod hearing;

use anyhow::{Result, bail};
use hearing::{State, hears_alike};
use raid_base::Site;
use raid_letter_lines::{Step, Text, Words, add_line};
use raid_workload::Workload;

/// What has been read: the workload, and the sequence so far.
#[derive(Drop)]
struct Table {
    text: Text,
    workload: Option<Workload>,
    site: Site,
    steps: Vec<Step>,
    state: Option<State>,
    sequences: u32,
    letters: usize,
    differ: u32,
}

impl Table {
    /// Hears the sequence, whose last line has these copies.
    fn hear(&mut self, rt: &HostRuntime, copies: &mut Words) -> Result<()> {
        let Some(workload) = &self.workload else {
            bail!("no workload");
        };
        self.sequences = self.sequences.saturating_add(1);
        self.letters = self.letters.saturating_add(self.steps.len());
        if !hears_alike(
            rt,
            workload,
            self.site,
            self.steps.as_slice(),
            self.state,
            copies,
        )? {
            self.differ = self.differ.saturating_add(1);
            println!(rt; "so in sequence {}", self.sequences)?;
        }
        Ok(())
    }

    /// Adds a line of a workload text.
    fn add_text(&mut self, rt: &HostRuntime, line: &str) -> Result<()> {
        if self.text.add(line)? {
            let Ok(workload) = raid_text::parse(rt.alloc(), self.text.as_bytes()?) else {
                bail!("no workload text");
            };
            self.workload = Some(workload);
        }
        Ok(())
    }

    /// Adds a line.
    fn add(&mut self, rt: &HostRuntime, line: &str) -> Result<()> {
        if add_line(rt.alloc(), &mut self.steps, line)? {
            return Ok(());
        }
        let mut words = Words::new(line);
        match words.word() {
            "site" => {
                self.site = words.site()?;
                self.steps.clear();
                self.state = None;
                Ok(())
            }
            "state" => {
                self.state = Some((words.word() == "up", words.number()?));
                Ok(())
            }
            "copies" => self.hear(rt, &mut words),
            _ => self.add_text(rt, line),
        }
    }
}

fn main(rt: HostRuntime) -> Result<()> {
    let mut table = Table {
        text: Text::new(rt.alloc()),
        workload: None,
        site: Site(1),
        steps: Vec::new(rt.alloc()),
        state: None,
        sequences: 0,
        letters: 0,
        differ: 0,
    };
    for line in rt.lines(rt.alloc()) {
        let line = line?;
        table.add(&rt, line.as_str())?;
    }
    println!(rt;
        "{} sequences of {} letters, {} heard otherwise",
        table.sequences, table.letters, table.differ
    )?;
    Ok(())
}
