//! Tells random histories with suffix-sufficient switches to the controllers in force, and compares what they say together, and
//! when each switch ends, with the answers that stand beside the entries: those of a reference model (tests/make_eras.py has the
//! form of the lines).
//!
//! Each history is told twice: to native controllers and to generic ones, which are known by the trait alone, in boxes. A history with an
//! answer that is another is named.
#![tactic(auto)]

mod book;
mod decide;
mod era;
mod tally;

use anyhow::Result;
use decide::run_era;
use era::Era;
use raid_base::Structure;
use raid_view_lines::words::{self, Head, words_of};
use std::alloc::Global;
use tally::Tally;

/// What has been told of the histories.
#[derive(Drop)]
struct Table {
    histories: u32,
    native: Tally,
    generic: Tally,
}

impl Table {
    /// Tells a history to both structures. False where one of them answers otherwise.
    fn run(&mut self, alloc: Global, era: &Era) -> Result<bool> {
        let before = self.differ();
        run_era(alloc, Structure::Native, era, &mut self.native)?;
        run_era(alloc, Structure::GenericState, era, &mut self.generic)?;
        self.histories = self.histories.saturating_add(1);
        Ok(self.differ() == before)
    }

    /// How many answers are others.
    fn differ(&self) -> u32 {
        self.native.differ.saturating_add(self.generic.differ)
    }
}

fn main(rt: HostRuntime) -> Result<()> {
    let mut table = Table {
        histories: 0,
        native: Tally::new(),
        generic: Tally::new(),
    };
    let mut era = Era::new(rt.alloc());
    for line in rt.lines(rt.alloc()) {
        let line = line?;
        let words = words_of(rt.alloc(), line.as_str())?;
        era.hear(rt.alloc(), words.as_slice())?;
        let ends = words::line_head(words.as_slice())? == Head::End;
        if ends && !table.run(rt.alloc(), &era)? {
            println!(rt; "history {} differs", table.histories)?;
        }
    }
    println!(rt;
        "{} histories; native: {} answers, {} differ; generic: {} answers, {} differ",
        table.histories,
        table.native.answers,
        table.native.differ,
        table.generic.answers,
        table.generic.differ
    )?;
    Ok(())
}
