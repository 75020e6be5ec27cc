//! What the lines tell of a history.

use anyhow::{Result, bail};
use raid_base::{Ask, Entry, Item, Kind, Listed, Method, NoMemory, Noted, Pairs, Txn, Verdict};
use raid_view_lines::entries;
use raid_view_lines::words::{self, Head, Word};
use std::alloc::Global;

/// What a transaction asks.
#[derive(Drop)]
pub enum Question {
    Read {
        txn: Txn,
        stamp: u32,
        item: Item,
    },
    Commit {
        txn: Txn,
        stamp: u32,
        reads: Pairs,
        writes: Pairs,
    },
}

impl Question {
    /// The question, for a controller.
    pub fn ask(&self) -> Ask<'_> {
        match self {
            Question::Read { txn, stamp, item } => Ask::Read {
                txn: *txn,
                stamp: *stamp,
                item: *item,
            },
            Question::Commit {
                txn,
                stamp,
                reads,
                writes,
            } => Ask::Commit {
                txn: *txn,
                stamp: *stamp,
                reads,
                writes,
            },
        }
    }
}

/// What comes next, and what the answer is to be.
#[derive(Drop)]
pub enum Step {
    /// An entry is placed.
    Place(Noted),
    /// A transaction asks.
    Judge(Question, Verdict),
    /// Whether the first transaction is in the way of the second one's writes.
    Blocks(Txn, Txn, Pairs, bool),
    /// A second controller comes beside the one in force, with the last entry.
    Join,
    /// Whether the end of the switch is due.
    Due(bool),
    /// The old controller goes, with the last entry.
    Part,
}

/// A history with one switch.
#[derive(Drop)]
pub struct Era {
    /// The kind at first.
    pub old: Kind,
    /// The kind to which is switched.
    pub new: Kind,
    pub steps: Listed<Step>,
    // The number of the last entry.
    placed: u32,
}

impl Era {
    /// Nothing has been told yet.
    pub fn new(alloc: Global) -> Era {
        Era {
            old: Kind::Lock,
            new: Kind::Lock,
            steps: Listed::new(alloc),
            placed: 0,
        }
    }

    /// Hears a line. The first one of a history forgets the history before it.
    pub fn hear(&mut self, alloc: Global, line: &[Word]) -> Result<()> {
        match words::line_head(line)? {
            Head::View => self.begin(words::kind(line, 2)?),
            Head::Entry => self.place(entries::noted(alloc, line)?)?,
            Head::AskRead => self.steps.push(read_of(line)?)?,
            Head::AskCommit => self.steps.push(commit_of(alloc, line)?)?,
            Head::Blocks => self.steps.push(blocks_of(alloc, line)?)?,
            Head::Suffix => self.switch(words::kind(line, 1)?)?,
            Head::Due => self.due(words::answer(line, 1)?)?,
            Head::End => {}
            _ => bail!("no line of a history with a switch"),
        }
        Ok(())
    }

    /// A history begins with a controller of this kind.
    fn begin(&mut self, kind: Kind) {
        self.old = kind;
        self.new = kind;
        self.steps.clear();
        self.placed = 0;
    }

    /// An entry comes.
    fn place(&mut self, noted: Noted) -> Result<(), NoMemory> {
        self.placed = noted.at;
        self.steps.push(Step::Place(noted))
    }

    /// An entry comes that has the next number and no stamp.
    fn place_next(&mut self, entry: Entry) -> Result<(), NoMemory> {
        self.place(Noted {
            at: self.placed.saturating_add(1),
            stamp: 0,
            entry,
        })
    }

    /// A switch to this kind comes on.
    fn switch(&mut self, kind: Kind) -> Result<(), NoMemory> {
        self.new = kind;
        self.place_next(Entry::SwitchOn {
            switch: 1,
            kind,
            method: Method::Suffix,
        })?;
        self.steps.push(Step::Join)
    }

    /// The end of the switch is due or not; where it is, it comes.
    fn due(&mut self, wanted: bool) -> Result<(), NoMemory> {
        self.steps.push(Step::Due(wanted))?;
        if wanted {
            self.place_next(Entry::SwitchEnd { switch: 1 })?;
            self.steps.push(Step::Part)?;
        }
        Ok(())
    }
}

/// A line on a read.
fn read_of(line: &[Word]) -> Result<Step> {
    let question = Question::Read {
        txn: words::txn(line, 1)?,
        stamp: words::number(line, 2)?,
        item: words::item(line, 3)?,
    };
    Ok(Step::Judge(question, words::verdict(line, 4)?))
}

/// A line on a commit.
fn commit_of(alloc: Global, line: &[Word]) -> Result<Step> {
    let question = Question::Commit {
        txn: words::txn(line, 1)?,
        stamp: words::number(line, 2)?,
        reads: Listed::new(alloc),
        writes: entries::pairs(alloc, line, 4, line.len())?,
    };
    Ok(Step::Judge(question, words::verdict(line, 3)?))
}

/// A line on who is in whose way.
fn blocks_of(alloc: Global, line: &[Word]) -> Result<Step> {
    let reader = words::txn(line, 1)?;
    let writer = words::txn(line, 2)?;
    let wanted = words::answer(line, 3)?;
    let writes = entries::pairs(alloc, line, 4, line.len())?;
    Ok(Step::Blocks(reader, writer, writes, wanted))
}
