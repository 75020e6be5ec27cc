ghost use Rattle.std.specs.Prelude.{◌≡◌, ℕ, None};

use crate::failed::Failed;
use crate::sink::Sink;
use crate::source::Source;
use std::io::{Read, Write};

/// A stream of the system as a source. What it has left is not told: no clause can say what a stream gives.
/// These few lines are trusted to pass on what the stream says.
#[derive(Drop)]
pub struct InputSource<R: Read> {
    stream: R,
    faults: u64,
}

impl<R: Read + Drop> InputSource<R> {
    /// A source over the stream, with no fault so far.
    pub fn new(stream: R) -> InputSource<R>
        ensures { result.faults ≡ 0 }
    {
        InputSource { stream, faults: 0 }
    }
}

impl<R: Read + Drop> Source for InputSource<R> {
    ghost left = { λ s. None };

    ghost faults = { λ s. s.faults };

    fn read(&mut self, into: &mut [u8]) -> Result<usize, Failed> {
        match self.stream.read(into) {
            Ok(count) => Ok(count),
            Err(_) => {
                self.faults = self.faults.saturating_add(1);
                Err(Failed)
            }
        }
    }
}

/// A stream of the system as a sink, flushed after each write; a failed flush is a fault. What the stream
/// holds is not told. These few lines are trusted to pass on what the stream says.
#[derive(Drop)]
pub struct OutputSink<W: Write> {
    stream: W,
    faults: u64,
}

impl<W: Write + Drop> OutputSink<W> {
    /// A sink over the stream, with no fault so far.
    pub fn new(stream: W) -> OutputSink<W>
        ensures { result.faults ≡ 0 }
    {
        OutputSink { stream, faults: 0 }
    }
}

impl<W: Write + Drop> Sink for OutputSink<W> {
    ghost held = { λ s. None };

    ghost faults = { λ s. s.faults };

    fn write(&mut self, piece: &[u8]) -> Result<usize, Failed> {
        match self.stream.write(piece) {
            Ok(count) if count > 0 && self.stream.flush().is_ok() => Ok(count),
            _ => {
                self.faults = self.faults.saturating_add(1);
                Err(Failed)
            }
        }
    }
}
