//! A history, with its graph.

use anyhow::{Result, bail};
use raid_base::{Duplicate, NoMemory, Noted};
use raid_conflict::Graph;
use raid_history::History;
use std::alloc::Global;

#[derive(Drop)]
pub struct Book {
    pub history: History,
    pub graph: Graph,
}

impl Book {
    /// Nothing has been placed yet.
    pub fn new(alloc: Global) -> Result<Book, NoMemory> {
        Ok(Book {
            history: History::new(alloc, 2, 2)?,
            graph: Graph::new(alloc, 2, 2)?,
        })
    }

    /// Places an entry.
    pub fn place(&mut self, alloc: Global, noted: &Noted) -> Result<()> {
        if self.history.len() == u32::MAX || !self.history.may_push(&noted.entry) {
            bail!("no next entry");
        }
        self.graph.note(noted.at, noted.stamp, &noted.entry)?;
        self.history.push(noted.entry.copy(alloc)?)?;
        Ok(())
    }
}
