ghost use Rattle.std.specs.Prelude.{◌≡◌, ℕ, ◌+◌, ◌<◌, ◌≤◌, List, [], ◌++◌, Option, Some, None, length, take, vec_capacity, IfOk, OnErr};
ghost use Rattle.raid_io.specs.Ends.{Gave};
ghost use Rattle.raid_io.specs.Faults.{HasCause};
ghost use Rattle.raid_io.specs.Memory.{Store, WritesTo};

use crate::failed::Failed;
use raid_base::NoMemory;
use std::alloc::Global;
use std::marker::Model;

/// Where bytes go.
pub trait Sink {
    /// The bytes that it holds, where the sink tells them.
    ghost held: { Self → Option (List ℕ) };

    /// How often it has failed; the count stays at 18,446,744,073,709,551,615 once it is there.
    ghost faults: { Self → ℕ };

    /// Puts bytes from the front of `piece` behind those held, at least one; answers how many. `Failed` puts
    /// none there, and comes only where the count of faults rises in this call. A sink that takes nothing
    /// answers `Failed`.
    fn write(&mut self, piece: &[u8]) -> Result<usize, Failed>
        requires { 0 < length piece.now }
        ensures some { IfOk result (λ n. 0 < n) }
        ensures bound { IfOk result (λ n. n ≤ length piece.now) }
        ensures bytes { IfOk result (λ n. Gave (take n piece.now) (held self.old) (held self.new)) }
        ensures err { OnErr result (held self.new ≡ held self.old) }
        ensures cause { HasCause (faults self.old) (faults self.new) result };
}

/// A sink in memory, which takes a piece at a time, and fails when it is told to and when it is full.
#[derive(Drop, Debug)]
pub struct MemorySink {
    bytes: Vec<u8>,
    room: usize,
    piece: usize,
    failing: Vec<u32>,
    calls: u32,
    faults: u64,
}

impl Model for MemorySink {
    ghost use Rattle.std.specs.Prelude.{◌≤◌, vec_len, vec_capacity};
    ghost use Rattle.raid_io.specs.Memory.{Store};

    ghost Value = { Store };

    ghost view = { λ s. record { held = s.bytes.items; room = s.room; piece = s.piece; failing = s.failing.items; calls = s.calls; faults = s.faults } };

    ghost invariant = { λ s. (vec_len s.bytes ≤ s.room) × (s.room ≤ vec_capacity s.bytes) × (1 ≤ s.piece) };
}

impl MemorySink {
    /// A sink that can hold `room` bytes, takes at most `piece` of them in a call, and fails in the calls
    /// whose numbers, counted from 1, are in `failing`.
    pub fn new(
        alloc: Global,
        room: usize,
        piece: usize,
        failing: &[u32],
    ) -> Result<MemorySink, NoMemory>
        requires { 1 ≤ piece }
        ensures { IfOk result (λ s. s ≡ record { held = []; room = room; piece = piece; failing = failing.now; calls = 0; faults = 0 }) }
    {
        Ok(MemorySink {
            bytes: Vec::with_capacity(alloc, room)?,
            room,
            piece,
            failing: Vec::from_slice(alloc, failing)?,
            calls: 0,
            faults: 0,
        })
    }

    /// The bytes held.
    pub fn held(&self) -> &[u8]
        ensures { result.now ≡ self.now.held }
    {
        self.bytes.as_slice()
    }
}

impl Sink for MemorySink {
    ghost held = { λ s. Some s.held };

    ghost faults = { λ s. s.faults };

    fn write(&mut self, piece: &[u8]) -> Result<usize, Failed>
        requires { 0 < length piece.now }
        ensures some { IfOk result (λ n. 0 < n) }
        ensures bound { IfOk result (λ n. n ≤ length piece.now) }
        ensures bytes { IfOk result (λ n. Gave (take n piece.now) (Some self.old.held) (Some self.new.held)) }
        ensures err { OnErr result (self.new.held ≡ self.old.held) }
        ensures cause { HasCause self.old.faults self.new.faults result }
        ensures exact { WritesTo self.old piece.now self.new result }
    {
        self.calls = self.calls.saturating_add(1);
        let free = self.room - self.bytes.len();
        if self.failing.contains(&self.calls) || free == 0 {
            self.faults = self.faults.saturating_add(1);
            return Err(Failed);
        }
        let count = self.piece.min(free).min(piece.len());
        append(&mut self.bytes, &piece[..count]);
        Ok(count)
    }
}

/// Puts bytes behind those of a vector that has the room for them.
fn append(bytes: &mut Vec<u8>, more: &[u8])
    requires { length bytes.old.items + length more.now ≤ vec_capacity bytes.old }
    ensures items { bytes.new.items ≡ bytes.old.items ++ more.now }
    ensures capacity { vec_capacity bytes.new ≡ vec_capacity bytes.old }
{
    for byte in more {
        bytes.push_reserved(*byte);
    }
}

/// A sink that takes every piece whole, keeps nothing, tells nothing, and never fails.
#[derive(Clone, Copy, Debug, PartialEq, Eq)]
pub struct PlainSink;

impl PlainSink {
    /// Such a sink.
    pub fn new() -> PlainSink {
        PlainSink
    }
}

impl Sink for PlainSink {
    ghost held = { λ s. None };

    ghost faults = { λ s. 0 };

    fn write(&mut self, piece: &[u8]) -> Result<usize, Failed> {
        Ok(piece.len())
    }
}
