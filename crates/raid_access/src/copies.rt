ghost use Rattle.std.specs.Prelude.{◌≡◌, ◌≤◌, Some, IsTrue, IfOk, OnOk, OnErr, option_map, if◌then◌else◌};
ghost use Rattle.std.specs.List.{list_any};
ghost use Rattle.raid_base.specs.Names.{is_txn, is_item};
ghost use Rattle.raid_access.specs.Stock as words;
ghost use Rattle.raid_access.specs.Stock.{copy_in, first_stock, staging, unstaging, applying, may_refresh, refreshed, stopped};

use crate::slots::Slots;
use crate::staged::Staged;
use crate::{slots, staged};
use raid_base::{CopyLine, CopyList, Duplicate, Item, NoMemory, Pairs, Site, Txn};
use raid_workload::Workload;
use std::alloc::Global;
use std::marker::Model;

/// What a copy holds: the item's value, and the number of the Commit that wrote it, 0 for the initial value.
#[derive(Clone, Copy, Debug, PartialEq, Eq)]
pub struct Held {
    pub value: i64,
    pub version: u32,
}

/// The copies of one site, and what is staged there for each transaction.
///
/// Contracts see the list of the copies, by item, and the list of what is staged, last staged last. A look-up of a
/// copy searches nothing.
#[derive(Drop, Debug)]
pub struct Copies {
    site: Site,
    slots: Slots,
    staged: Staged,
    alloc: Global,
}

impl Model for Copies {
    ghost use Rattle.std.specs.Prelude.{◌≤◌, ◌^◌, vec_len};
    ghost use Rattle.raid_access.specs.Stock.{Stock, copies_from};

    ghost Value = { Stock };

    ghost view = { λ c. record { site = c.site; copies = copies_from 0 c.slots.items; staged = c.staged.items } };

    ghost invariant = { λ c. vec_len c.slots ≤ 2 ^ 16 };
}

impl Copies {
    /// The copies that the site has at the start: those of the items that it holds, with their initial values and
    /// version 0. Nothing is staged.
    pub fn new(alloc: Global, site: Site, workload: &Workload) -> Result<Copies, NoMemory>
        requires least { 1 ≤ site.0 }
        requires most { site.0 ≤ 8 }
        ensures { IfOk result (λ c. c ≡ first_stock workload.now site) }
    {
        let slots = slots::first_slots(alloc, site, workload)?;
        Ok(Copies {
            site,
            slots,
            staged: Vec::new(alloc),
            alloc,
        })
    }

    /// Whether the site holds a copy of the item.
    pub fn holds(&self, item: Item) -> bool
        ensures { result ≡ list_any (λ c. is_item item c.item) self.now.copies }
    {
        slots::held(self.slots.as_slice(), item).is_some()
    }

    /// What the site's copy of the item holds.
    pub fn read(&self, item: Item) -> Held
        requires { IsTrue (list_any (λ c. is_item item c.item) self.now.copies) }
        ensures { option_map words.held (copy_in self.now.copies item) ≡ Some result }
    {
        slots::held(self.slots.as_slice(), item).unwrap_or(Held {
            value: 0,
            version: 0,
        })
    }

    /// Whether writes are staged for the transaction.
    pub fn is_staged(&self, txn: Txn) -> bool
        ensures { result ≡ list_any (λ e. is_txn txn e.0) self.now.staged }
    {
        staged::has(self.staged.as_slice(), txn)
    }

    /// Stages the writes for the transaction, in place of what was staged for it. After want of memory all is as
    /// it was.
    pub fn stage(&mut self, txn: Txn, writes: &Pairs) -> Result<(), NoMemory>
        ensures ok { OnOk result (self.new ≡ staging self.old txn writes.now) }
        ensures err { OnErr result (self.new ≡ self.old) }
    {
        let writes = writes.copy(self.alloc)?;
        staged::put(&mut self.staged, txn, writes)
    }

    /// Makes what is staged for the transaction the site's copies, with the number of its Commit as their version;
    /// then nothing is staged for it. Takes no memory.
    pub fn apply(&mut self, txn: Txn, number: u32)
        ensures { self.new ≡ applying self.old txn number }
    {
        slots::set_staged(
            self.slots.as_mut_slice(),
            self.staged.as_slice(),
            txn,
            number,
        );
        staged::drop_of(&mut self.staged, txn);
    }

    /// Drops what is staged for the transaction. Takes no memory.
    pub fn drop_staged(&mut self, txn: Txn)
        ensures { self.new ≡ unstaging self.old txn }
    {
        staged::drop_of(&mut self.staged, txn);
    }

    /// Gives the item's copy this value and version, unless it has a larger version. False exactly where it has one,
    /// or the site holds no copy of the item; then nothing changes. Takes no memory.
    pub fn refresh(&mut self, item: Item, value: i64, version: u32) -> bool
        ensures is { result ≡ may_refresh self.old.copies item version }
        ensures refreshed { self.new ≡ (if result then refreshed self.old item value version else self.old) }
    {
        let may = match slots::held(self.slots.as_slice(), item) {
            Some(held) => held.version <= version,
            None => false,
        };
        if may {
            slots::set(self.slots.as_mut_slice(), item, value, version);
        }
        may
    }

    /// What stopping leaves: the copies. All that is staged is dropped. Takes no memory.
    pub fn stop(&mut self)
        ensures { self.new ≡ stopped self.old }
    {
        self.staged.clear();
    }

    /// The copies as a report tells them, by item. Want of memory is the only error.
    pub fn copy_lines(&self, alloc: Global) -> Result<CopyList, NoMemory>
        ensures { IfOk result (λ lines. lines ≡ words.lines self.now) }
    {
        let mut lines = CopyList::new(alloc);
        for (k, slot) in self.slots.iter().enumerate() {
            if let Some(held) = slot {
                lines.push(CopyLine {
                    site: self.site,
                    item: Item(k as u16),
                    value: held.value,
                    version: held.version,
                })?;
            }
        }
        Ok(lines)
    }
}
