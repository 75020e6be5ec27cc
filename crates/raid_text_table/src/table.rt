//! What has been read of a text and of what is wanted of it.

use crate::{programs, texts};
use anyhow::{Result, bail};
use raid_base::{Bytes, Listed, Pairs};
use std::alloc::Global;

/// A text, and what is wanted of it.
#[derive(Drop)]
pub struct Table {
    text: Bytes,
    is_begun: bool,
    wanted: Bytes,
    reads: Pairs,
    writes: Pairs,
    /// How many texts there were.
    pub texts: u32,
    /// How many answers were compared.
    pub answers: u32,
    /// How many answers differ.
    pub differ: u32,
}

impl Table {
    /// No text has been read.
    pub fn new(alloc: Global) -> Table {
        Table {
            text: Listed::new(alloc),
            is_begun: false,
            wanted: Listed::new(alloc),
            reads: Listed::new(alloc),
            writes: Listed::new(alloc),
            texts: 0,
            answers: 0,
            differ: 0,
        }
    }

    /// Begins a text.
    fn begin(&mut self) {
        self.text.clear();
        self.is_begun = false;
        self.wanted.clear();
        self.reads.clear();
        self.writes.clear();
        self.texts = self.texts.saturating_add(1);
    }

    /// Adds a line to the text.
    fn add(&mut self, line: &str) -> Result<()> {
        if self.is_begun {
            self.text.push(b'\n')?;
        }
        self.is_begun = true;
        texts::put_line(&mut self.text, line)
    }

    /// Adds so many lines to the text.
    fn add_many(&mut self, words: &str) -> Result<()> {
        let Some((count, line)) = words.split_once(' ') else {
            bail!("no line");
        };
        for _ in 0..count.parse::<u32>()? {
            self.add(line)?;
        }
        Ok(())
    }

    /// Adds a line to what is to be printed.
    fn want(&mut self, line: &str) -> Result<()> {
        texts::put_line(&mut self.wanted, line)?;
        self.wanted.push(b'\n')?;
        Ok(())
    }

    /// Whether the text's first program comes to what the words say.
    fn comes_to(&self, alloc: Global, head: &str, words: &str) -> Result<bool> {
        let workload = texts::workload(alloc, self.text.as_slice())?;
        let (reads, writes) = (self.reads.as_slice(), self.writes.as_slice());
        match head {
            "runs" => programs::runs(alloc, &workload, words, reads, writes),
            "leaves" => programs::leaves(alloc, &workload, words),
            _ => programs::asks(alloc, &workload, words, reads, writes),
        }
    }

    /// Counts an answer.
    fn compare(&mut self, same: bool) -> bool {
        self.answers = self.answers.saturating_add(1);
        if !same {
            self.differ = self.differ.saturating_add(1);
        }
        same
    }

    /// Takes a line, and tells whether its answer is right, if it has one.
    pub fn hear(&mut self, alloc: Global, line: &str) -> Result<bool> {
        let (head, words) = line.split_once(' ').unwrap_or((line, ""));
        let text = self.text.as_slice();
        let same = match head {
            "refused" | "read" => texts::reads_so(alloc, text, line)?,
            "has" => texts::has(alloc, text, words)?,
            "prints" => texts::prints(alloc, text, self.wanted.as_slice())?,
            "made" => texts::is_made(alloc, words, self.wanted.as_slice())?,
            "runs" | "leaves" | "asks" => self.comes_to(alloc, head, words)?,
            _ => {
                self.take(alloc, head, words)?;
                return Ok(true);
            }
        };
        Ok(self.compare(same))
    }

    /// Takes a line without an answer.
    fn take(&mut self, alloc: Global, head: &str, words: &str) -> Result<()> {
        match head {
            "text" => self.begin(),
            ">" => self.add(words)?,
            "many" => self.add_many(words)?,
            "<" => self.want(words)?,
            "reads" => self.reads = programs::pairs(alloc, words)?,
            "writes" => self.writes = programs::pairs(alloc, words)?,
            _ => {}
        }
        Ok(())
    }
}
