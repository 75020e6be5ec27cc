//! A controller that counts.

ghost use Rattle.std.specs.Prelude.{List, [], IfOk};
ghost use Rattle.raid_base.specs.declared.entry.Noted.{Noted};
ghost use Rattle.raid_base.specs.declared.verdict.Kind.TheVariants.{Lock};
ghost use Rattle.raid_base.specs.declared.verdict.Structure.TheVariants.{Native};
ghost use Rattle.raid_lock.specs.Known.{Known};

use raid_base::{Ask, Entry, Kind, NoMemory, Pairs, Structure, Txn, Verdict};
use raid_control::{Carry, Controller};
use raid_lock::LockControl;
use std::alloc::{AllocError, Global};
use std::sync::Arc;
use std::sync::atomic::{AtomicU64, Ordering};

/// Counts that several owners share.
#[derive(Drop)]
pub struct Counts {
    calls: Arc<AtomicU64, Global>,
    drops: Arc<AtomicU64, Global>,
}

impl Counts {
    /// Nothing has been counted.
    pub fn new(alloc: Global) -> Result<Counts, AllocError> {
        Ok(Counts {
            calls: Arc::new(alloc, AtomicU64::new(0))?,
            drops: Arc::new(alloc, AtomicU64::new(0))?,
        })
    }

    /// The same counts once more.
    fn share(&self) -> Result<Counts, AllocError> {
        Ok(Counts {
            calls: Arc::try_clone(&self.calls)?,
            drops: Arc::try_clone(&self.drops)?,
        })
    }

    /// How often there was judged or noted.
    pub fn calls(&self) -> u64 {
        self.calls.load(Ordering::SeqCst)
    }

    /// How often a controller was dropped.
    pub fn drops(&self) -> u64 {
        self.drops.load(Ordering::SeqCst)
    }
}

/// Passes each call on to a controller by read locks, and counts those that judge and note, and when it is dropped.
pub struct Counting {
    inner: LockControl,
    counts: Counts,
}

impl Counting {
    /// It stands for the empty view, and adds to these counts. Want of memory is the only error.
    pub fn new(alloc: Global, counts: &Counts) -> Result<Box<Counting>, NoMemory>
        ensures { IfOk result (λ c. ⟦<Counting as Controller>⟧.stands c.value []) }
    {
        let inner = LockControl::new(alloc, 4, 4)?;
        let counts = counts.share()?;
        Ok(Box::new(alloc, Counting { inner, counts })?)
    }
}

impl Drop for Counting {
    fn drop(self) {
        self.counts.drops.fetch_add(1, Ordering::SeqCst);
        let Counting {
            inner: _,
            counts: _,
        } = self;
    }
}

impl Controller for Counting {
    ghost stands = { λ c view. Known c.inner view };

    ghost kind_of = { λ _. Lock };

    ghost structure_of = { λ _. Native };

    fn kind(&self) -> Kind {
        Kind::Lock
    }

    fn structure(&self) -> Structure {
        Structure::Native
    }

    fn judge(&mut self, ask: &Ask) -> Verdict {
        self.counts.calls.fetch_add(1, Ordering::SeqCst);
        self.inner.judge(ask)
    }

    fn note(&mut self, at: u32, stamp: u32, entry: &Entry) -> Result<(), NoMemory> {
        self.counts.calls.fetch_add(1, Ordering::SeqCst);
        self.inner.note(at, stamp, entry)
    }

    fn backward(&self, txn: Txn) -> bool {
        self.inner.backward(txn)
    }

    fn blocks(&self, reader: Txn, writer: Txn, writes: &Pairs) -> bool {
        self.inner.blocks(reader, writer, writes)
    }

    fn carry(&self, alloc: Global) -> Result<Carry, NoMemory> {
        self.inner.carry(alloc)
    }

    fn load(&mut self, carry: &Carry) -> Result<(), NoMemory> {
        self.inner.load(carry)
    }

    fn set_kind(&mut self, kind: Kind) -> bool {
        self.inner.set_kind(kind)
    }

    fn clear(&mut self) {
        self.inner.clear();
    }
}
