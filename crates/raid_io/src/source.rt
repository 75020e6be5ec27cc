ghost use Rattle.std.specs.Prelude.{◌≡◌, ℕ, ◌<◌, ◌≤◌, List, [], ◌++◌, Option, Some, length, take, drop, Result, Ok, IfOk, OnErr};
ghost use Rattle.raid_io.specs.Ends.{Took, IsAtEnd};
ghost use Rattle.raid_io.specs.Faults.{HasCause};
ghost use Rattle.raid_io.specs.Memory.{Feed, ReadsFrom, moved};

use crate::failed::Failed;
use raid_base::NoMemory;
use std::alloc::Global;
use std::marker::Model;

/// Where bytes come from.
pub trait Source {
    /// The bytes that are left, where the source tells them.
    ghost left: { Self → Option (List ℕ) };

    /// How often it has failed; the count stays at 18,446,744,073,709,551,615 once it is there.
    ghost faults: { Self → ℕ };

    /// Takes bytes from the front of what is left and puts them at the front of `into`; answers how many.
    /// 0 is the end, and comes only where nothing is left. `Failed` takes nothing, and comes only where
    /// the count of faults rises in this call.
    fn read(&mut self, into: &mut [u8]) -> Result<usize, Failed>
        requires { 0 < length into.old }
        ensures room { length into.new ≡ length into.old }
        ensures bound { IfOk result (λ n. n ≤ length into.old) }
        ensures bytes { IfOk result (λ n. Took (take n into.new) (left self.old) (left self.new)) }
        ensures end { result ≡ Ok 0 → IsAtEnd (left self.new) }
        ensures err { OnErr result (left self.new ≡ left self.old) }
        ensures cause { HasCause (faults self.old) (faults self.new) result };
}

/// Copies bytes from the front of one slice to the front of another, at most `most` of them; answers how many.
fn fill(into: &mut [u8], from: &[u8], most: usize) -> usize
    requires room { 0 < length into.old }
    requires some { 1 ≤ most }
    ensures room { length into.new ≡ length into.old }
    ensures count { result ≡ moved most (length into.old) (length from.now) }
    ensures front { from.now ≡ take result into.new ++ drop result from.now }
    ensures end { result ≡ 0 → from.now ≡ [] }
{
    let count = most.min(into.len()).min(from.len());
    into[..count].copy_from_slice(&from[..count]);
    count
}

/// Bytes in memory, given a piece at a time, by a source that fails when it is told to.
#[derive(Drop, Debug)]
pub struct MemorySource {
    bytes: Vec<u8>,
    at: usize,
    piece: usize,
    failing: Vec<u32>,
    calls: u32,
    faults: u64,
}

impl Model for MemorySource {
    ghost use Rattle.std.specs.Prelude.{◌≤◌, drop, vec_len};
    ghost use Rattle.raid_io.specs.Memory.{Feed};

    ghost Value = { Feed };

    ghost view = { λ s. record { left = drop s.at s.bytes.items; piece = s.piece; failing = s.failing.items; calls = s.calls; faults = s.faults } };

    ghost invariant = { λ s. (s.at ≤ vec_len s.bytes) × (1 ≤ s.piece) };
}

impl MemorySource {
    /// A source of these bytes that gives at most `piece` of them in a call, and fails in the calls whose
    /// numbers, counted from 1, are in `failing`.
    pub fn new(
        alloc: Global,
        bytes: &[u8],
        piece: usize,
        failing: &[u32],
    ) -> Result<MemorySource, NoMemory>
        requires { 1 ≤ piece }
        ensures { IfOk result (λ s. s ≡ record { left = bytes.now; piece = piece; failing = failing.now; calls = 0; faults = 0 }) }
    {
        Ok(MemorySource {
            bytes: Vec::from_slice(alloc, bytes)?,
            at: 0,
            piece,
            failing: Vec::from_slice(alloc, failing)?,
            calls: 0,
            faults: 0,
        })
    }
}

impl Source for MemorySource {
    ghost left = { λ s. Some s.left };

    ghost faults = { λ s. s.faults };

    fn read(&mut self, into: &mut [u8]) -> Result<usize, Failed>
        requires { 0 < length into.old }
        ensures room { length into.new ≡ length into.old }
        ensures bound { IfOk result (λ n. n ≤ length into.old) }
        ensures bytes { IfOk result (λ n. Took (take n into.new) (Some self.old.left) (Some self.new.left)) }
        ensures end { result ≡ Ok 0 → IsAtEnd (Some self.new.left) }
        ensures err { OnErr result (self.new.left ≡ self.old.left) }
        ensures cause { HasCause self.old.faults self.new.faults result }
        ensures exact { ReadsFrom self.old (length into.old) self.new result }
    {
        self.calls = self.calls.saturating_add(1);
        if self.failing.contains(&self.calls) {
            self.faults = self.faults.saturating_add(1);
            return Err(Failed);
        }
        let count = fill(into, &self.bytes[self.at..], self.piece);
        self.at += count;
        Ok(count)
    }
}

/// Bytes in memory, given as many at a time as there is room for, by a source that never fails.
#[derive(Drop, Debug)]
pub struct PlainSource {
    bytes: Vec<u8>,
    at: usize,
}

impl Model for PlainSource {
    ghost use Rattle.std.specs.Prelude.{List, ℕ, ◌≤◌, drop, vec_len};

    ghost Value = { List ℕ };

    ghost view = { λ s. drop s.at s.bytes.items };

    ghost invariant = { λ s. s.at ≤ vec_len s.bytes };
}

impl PlainSource {
    /// A source of these bytes.
    pub fn new(alloc: Global, bytes: &[u8]) -> Result<PlainSource, NoMemory>
        ensures { IfOk result (λ s. s ≡ bytes.now) }
    {
        Ok(PlainSource {
            bytes: Vec::from_slice(alloc, bytes)?,
            at: 0,
        })
    }
}

impl Source for PlainSource {
    ghost left = { λ s. Some s };

    ghost faults = { λ s. 0 };

    fn read(&mut self, into: &mut [u8]) -> Result<usize, Failed> {
        let count = fill(into, &self.bytes[self.at..], into.len());
        self.at += count;
        Ok(count)
    }
}
