//! The call, made once.

use raid_app::{Ended, Schedule, Words, run};
use raid_base::NoMemory;
use raid_full_rack::{Controllers, full_rack};
use raid_io::{MemorySink, MemorySource, Sink, Source, read_up_to};
use raid_link::{Gate, Open};
use std::alloc::Global;
use std::thread::Threads;

/// More bytes than any text here has.
const ROOM: usize = 17_000_000;

/// How many bytes are given or taken in a call, where one of the calls fails.
const PIECE: usize = 10;

/// How an end in memory gives or takes bytes.
#[derive(Clone, Copy, Debug, PartialEq, Eq)]
pub enum Way {
    /// As many in a call as there are. It never fails.
    Whole,
    /// At most ten in a call. It fails in the call of this number, counted from 1, and in no other.
    Failing(u32),
}

/// How a call has ended.
#[derive(Drop, Debug)]
pub struct Outcome {
    pub status: u8,
    pub picks: Schedule,
    sink: MemorySink,
    left: Vec<u8>,
}

impl Outcome {
    /// What was written.
    pub fn written(&self) -> &[u8] {
        self.sink.held()
    }

    /// What the source had still to give when the call had ended.
    pub fn left(&self) -> &[u8] {
        self.left.as_slice()
    }
}

/// The words of a line, which has a space between any two.
pub fn words(alloc: Global, line: &str) -> Result<Words, NoMemory> {
    let mut words = Words::new(alloc);
    for word in line.split_whitespace() {
        words.push(String::from_str(alloc, word)?)?;
    }
    Ok(words)
}

fn source(alloc: Global, text: &[u8], way: Way) -> Result<MemorySource, NoMemory> {
    match way {
        Way::Whole => MemorySource::new(alloc, text, ROOM, &[]),
        Way::Failing(call) => MemorySource::new(alloc, text, PIECE, &[call]),
    }
}

fn sink(alloc: Global, way: Way) -> Result<MemorySink, NoMemory> {
    match way {
        Way::Whole => MemorySink::new(alloc, ROOM, ROOM, &[]),
        Way::Failing(call) => MemorySink::new(alloc, ROOM, PIECE, &[call]),
    }
}

/// Makes the call between any two ends, with the controllers that the program has, at a gate.
pub fn called_at<R: Threads + Sync, S: Source, K: Sink, G: Gate>(
    rt: &R,
    alloc: Global,
    line: &str,
    source: &mut S,
    sink: &mut K,
    gate: &G,
) -> Result<Ended, NoMemory> {
    let words = words(alloc, line)?;
    let made = Controllers::new(alloc)?;
    let rack = full_rack(
        alloc,
        made.lock,
        made.stamp,
        made.valid,
        made.graph,
        made.first,
        made.second,
    )?;
    Ok(run(rt, alloc, &words, source, sink, rack, gate))
}

/// Makes the call between any two ends, with nobody held up.
pub fn called<R: Threads + Sync, S: Source, K: Sink>(
    rt: &R,
    alloc: Global,
    line: &str,
    source: &mut S,
    sink: &mut K,
) -> Result<Ended, NoMemory> {
    called_at(rt, alloc, line, source, sink, &Open)
}

/// Makes the call with the words of a line, over a text in memory.
pub fn told<R: Threads + Sync>(
    rt: &R,
    alloc: Global,
    line: &str,
    text: &[u8],
    giving: Way,
    taking: Way,
) -> Result<Outcome, NoMemory> {
    let mut source = source(alloc, text, giving)?;
    let mut sink = sink(alloc, taking)?;
    let Ended { status, schedule } = called(rt, alloc, line, &mut source, &mut sink)?;
    let left = match read_up_to(alloc, &mut source, ROOM) {
        Ok(left) => left,
        Err(_) => Vec::new(alloc),
    };
    Ok(Outcome {
        status,
        picks: schedule,
        sink,
        left,
    })
}
