ghost use Rattle.std.specs.Prelude.{◌≡◌, ◌≤◌};
ghost use Rattle.raid_base.specs.Names as words;

use std::alloc::{AllocError, AllocFailed};
use thiserror::Error;

/// A transaction, by its number. Numbers are counted from 1: with `T` programs in a workload,
/// number `k` is attempt `(k - 1) / T` of program `1 + (k - 1) % T`.
#[derive(Clone, Copy, Debug, PartialEq, Eq, PartialOrd, Ord, Hash)]
pub struct Txn(pub u32);

/// An item, by the place of its line among the workload's item lines, counted from 0.
#[derive(Clone, Copy, Debug, PartialEq, Eq, PartialOrd, Ord, Hash)]
pub struct Item(pub u16);

/// A site, by its number, 1 to 8.
#[derive(Clone, Copy, Debug, PartialEq, Eq, PartialOrd, Ord, Hash)]
pub struct Site(pub u8);

/// Memory was refused. No contract says when this comes; what it leaves as it was stands at each call.
#[derive(Clone, Copy, Debug, PartialEq, Eq, Error)]
#[error("no memory")]
pub struct NoMemory;

impl From<AllocError> for NoMemory {
    fn from(_: AllocError) -> NoMemory {
        NoMemory
    }
}

impl<T: Drop> From<AllocFailed<T>> for NoMemory {
    fn from(_: AllocFailed<T>) -> NoMemory {
        NoMemory
    }
}

/// The number of the program that a transaction runs, counted from 1, in a workload of so many programs.
pub fn program_of(txn: Txn, programs: u32) -> u32
    requires programs { 1 ≤ programs }
    requires txn { 1 ≤ txn.0 }
    ensures { result ≡ words.program_of txn programs }
{
    1 + (txn.0 - 1) % programs
}

/// Which attempt at its program a transaction is, counted from 0, in a workload of so many programs.
pub fn attempt_of(txn: Txn, programs: u32) -> u32
    requires programs { 1 ≤ programs }
    requires txn { 1 ≤ txn.0 }
    ensures { result ≡ words.attempt_of txn programs }
{
    (txn.0 - 1) / programs
}
