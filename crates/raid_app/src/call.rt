ghost use Rattle.std.specs.Prelude.{◌≡◌, true};
ghost use Rattle.raid_force.specs.Lasting.{AreClear, are_whole};
ghost use Rattle.raid_app.specs.Ended.{Ends, Said, IsWritten};

use crate::answer::{Answer, answer_words};
use crate::statuses::UNWRITTEN;
use raid_command::Words;
use raid_control::{Controller, Rack};
use raid_io::{Failed, Sink, Source, write_all};
use raid_link::Gate;
use raid_merge::Schedule;
use std::alloc::Global;
use std::thread::Threads;

/// How a call of the program ended: its status, and the picks of the run that it made.
#[derive(Drop, Debug)]
pub struct Ended {
    pub status: u8,
    pub schedule: Schedule,
}

/// Does what the words ask for: `run` reads a workload text, runs its servers, each in a thread of its own, and writes the report, with
/// `--brief` the summary; `make` writes a workload made from a seed; `check` reads a workload text with a report's text behind it, which
/// begins with the first line that is exactly `report 1` or `report 2`, and writes what is found of the report; `advise` reads the same, and where
/// the report is sound writes the switch that its entries with the last ends speak for, as many as `--last` says: `keep`, or the line that the
/// workload's text is to get.
///
/// | status | comes | written |
/// |---|---|---|
/// | 0 | the command was done, and a report that was judged is sound | the report, the summary, the made workload, `sound`, or the advice |
/// | 2 | exactly where the words are no command, and no fault of the sink came | the usage line |
/// | 3 | exactly where a text is too long or has a fault, or a report's text a line that doesn't fit, and no fault of the sink came | the refusal line |
/// | 4 | only where the source's count of faults rose in this call | nothing |
/// | 5 | only where the sink's count of faults rose in this call | a front part of what was to be written |
/// | 6 | memory was refused | nothing |
/// | 8 | exactly where a report that was judged isn't sound, and no fault of the sink came | what fails first |
///
/// Each "exactly" yields to want of memory, those of 2, 3 and 8 to a failed write, those of 3 and 8 to a failed read.
///
/// The rack has to be whole and its controllers cleared. The gate is called before each step of a run, and can hold a server up. The schedule is
/// the list of the steps that the servers took, put in an order that agrees with their clocks: each finds its letter, and what they lead to is
/// what the servers came to. It is empty where no run was made, or memory was refused in it. `make` and words that are refused leave the source
/// as it was. For status 0 of a run, and for statuses 0 and 8 of `check` and `advise`, the source was read to its end.
///
/// The report of such a run is sound. Its history is legal: each entry is the one that the rules force there, or else one that they let come,
/// so each abort has the one cause that they give. The committed transactions, run alone one after another in the order told, read what their
/// commits tell, write what they tell, and leave the final values. Each switch aborted just those of its list; each action while two controllers
/// were in force was granted by both; and no read was granted at a copy that the history has locked. Each copy is told, and each at an up
/// site that isn't locked has its item's final value. And nothing is left to do: nobody runs or waits, each transaction has begun or can't, no copy
/// at an up site could be renewed, and no site owes an Ack.
pub fn run<R: Threads + Sync, S: Source, K: Sink, G: Gate>(
    rt: &R,
    alloc: Global,
    words: &Words,
    source: &mut S,
    sink: &mut K,
    rack: Rack,
    gate: &G,
) -> Ended
    requires whole { are_whole ⟦<dyn Controller as Controller>⟧ rack.slots.items ≡ true }
    requires clear { AreClear ⟦<dyn Controller as Controller>⟧ rack.slots.items }
    ensures ended { Ends words.now (record { before = S.left source.old; after = S.left source.new; faults = S.faults source.old; faults_after = S.faults source.new }) (record { before = K.held sink.old; after = K.held sink.new; faults = K.faults sink.old; faults_after = K.faults sink.new }) result.schedule result.status }
{
    let answer = answer_words(rt, alloc, words, source, rack, gate);
    say(sink, answer)
}

/// Says what is to be said.
fn say<K: Sink>(sink: &mut K, answer: Answer) -> Ended
    ensures said { Said answer (record { before = K.held sink.old; after = K.held sink.new; faults = K.faults sink.old; faults_after = K.faults sink.new }) result.status }
    ensures schedule { result.schedule ≡ answer.schedule }
{
    let Answer {
        status,
        text,
        schedule,
    } = answer;
    let status = match text {
        None => status,
        Some(text) => write(sink, status, text.as_slice()),
    };
    Ended { status, schedule }
}

/// Writes a text, and answers the status that goes with it, or 5 where the sink failed.
fn write<K: Sink>(sink: &mut K, status: u8, text: &[u8]) -> u8
    ensures { IsWritten status text.now (record { before = K.held sink.old; after = K.held sink.new; faults = K.faults sink.old; faults_after = K.faults sink.new }) result }
{
    match write_all(sink, text) {
        Ok(()) => status,
        Err(Failed) => UNWRITTEN,
    }
}
