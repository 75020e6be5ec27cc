//! Tells controllers small random views, and compares what they say with the answers that stand beside the
//! views: those of a reference model (tests/make_control_views.py has the form of the lines).
//!
//! Each view is heard by the native controller of its kind and by the generic one. Both are known by the trait
//! alone, in a box.
#![tactic(auto)]

mod hear;
mod stages;
mod tally;

use anyhow::Result;
use raid_base::{Listed, Structure};
use raid_view_lines::words::{self, Head, Word, words_of};
use stages::{Stage, run_view};
use std::alloc::Global;
use tally::Tally;

/// What has been heard of the views.
#[derive(Drop)]
struct Heard {
    views: u32,
    agree: u32,
    native: Tally,
    generic: Tally,
}

impl Heard {
    /// Runs a view with both structures.
    fn view(&mut self, alloc: Global, stages: &[Stage]) -> Result<()> {
        let before = self.native.differ.saturating_add(self.generic.differ);
        run_view(alloc, Structure::Native, stages, &mut self.native)?;
        run_view(alloc, Structure::GenericState, stages, &mut self.generic)?;
        self.views = self.views.saturating_add(1);
        if self.native.differ.saturating_add(self.generic.differ) == before {
            self.agree = self.agree.saturating_add(1);
        }
        Ok(())
    }
}

/// Adds a line to the last stage; where it says so, to a new one.
fn add_line(alloc: Global, stages: &mut Vec<Stage>, line: Listed<Word>) -> Result<()> {
    let begins = match words::line_head(line.as_slice())? {
        Head::View => Some(words::kind(line.as_slice(), 2)?),
        Head::Carried => Some(words::kind(line.as_slice(), 1)?),
        _ => None,
    };
    if let Some(kind) = begins {
        let lines = Listed::new(alloc);
        stages.push(Stage { kind, lines })?;
    }
    if let Some(stage) = stages.last_mut() {
        stage.lines.push(line)?;
    }
    Ok(())
}

/// The counts of a structure's answers.
fn print(rt: &HostRuntime, name: &str, tally: &Tally) -> Result<()> {
    println!(rt;
        "{name}: {} grant, {} wait, {} late, {} invalid, {} cycle, {} more",
        tally.grants, tally.waits, tally.lates, tally.invalids, tally.cycles, tally.more
    )?;
    Ok(())
}

fn main(rt: HostRuntime) -> Result<()> {
    let mut heard = Heard {
        views: 0,
        agree: 0,
        native: Tally::new(),
        generic: Tally::new(),
    };
    let mut stages = Vec::new(rt.alloc());
    for line in rt.lines(rt.alloc()) {
        let line = line?;
        let words = words_of(rt.alloc(), line.as_str())?;
        let ends = words::line_head(words.as_slice())? == Head::End;
        add_line(rt.alloc(), &mut stages, words)?;
        if ends {
            heard.view(rt.alloc(), stages.as_slice())?;
            stages.clear();
            if heard.views % 100 == 0 {
                println!(rt; "{} views, {} agree", heard.views, heard.agree)?;
            }
        }
    }
    print(&rt, "native", &heard.native)?;
    print(&rt, "generic", &heard.generic)?;
    println!(rt; "{} views, {} agree", heard.views, heard.agree)?;
    Ok(())
}
