//! `raid`: reads a workload from standard input, runs it, and writes the report to standard output.
#![tactic(auto)]

use raid_app::{Words, run};
use raid_base::NoMemory;
use raid_full_rack::{Controllers, full_rack};
use raid_io::{InputSource, OutputSink, Sink, Source};
use raid_link::Open;
use std::alloc::Global;
use std::env;
use std::process::ExitCode;
use std::thread::Threads;

/// The status of a call that finds no memory for its words or its controllers.
const NO_MEMORY: u8 = 6;

fn main(rt: HostRuntime) -> ExitCode {
    let Ok(words) = words(&rt) else {
        return ExitCode::from(NO_MEMORY);
    };
    let mut source = InputSource::new(rt.stdin());
    let mut sink = OutputSink::new(rt.stdout());
    match serve(&rt, rt.alloc(), &words, &mut source, &mut sink) {
        Ok(status) => ExitCode::from(status),
        Err(NoMemory) => ExitCode::from(NO_MEMORY),
    }
}

/// Does what the words ask for, and answers the status.
fn serve<R: Threads + Sync, S: Source, K: Sink>(
    rt: &R,
    alloc: Global,
    words: &Words,
    source: &mut S,
    sink: &mut K,
) -> Result<u8, NoMemory> {
    let made = Controllers::new(alloc)?;
    let rack = full_rack(
        alloc,
        made.lock,
        made.stamp,
        made.valid,
        made.graph,
        made.first,
        made.second,
    )?;
    let ended = run(rt, alloc, words, source, sink, rack, &Open);
    Ok(ended.status)
}

/// The words of the command line, without the program's own name.
fn words(rt: &HostRuntime) -> Result<Words, NoMemory> {
    let mut words = Words::new(rt.alloc());
    for word in env::args(rt).map_err(|_| NoMemory)?.skip(1) {
        words.push(word)?;
    }
    Ok(words)
}
