ghost use Rattle.std.specs.Prelude.{◌≡◌, ◌≤◌, ◌^◌, length, map, vec_len, option_map, IfOk, if◌then◌else◌};
ghost use Rattle.raid_steps.specs.Copies.{renewed, set_copy};
ghost use Rattle.raid_steps.specs.World.{first_site};
ghost use Rattle.raid_access.specs.Stock.{copies_from, copy_in, held, renewed_by, may_refresh};

use crate::copies::Held;
use raid_base::{Item, NoMemory, Pairs, Site, Txn};
use raid_workload::Workload;
use std::alloc::Global;

/// A slot for each item of the workload, by number: what the site's copy of it holds, if it has one.
pub type Slots = Vec<Option<Held>>;

/// The slots of a site at the start.
pub fn first_slots(alloc: Global, site: Site, workload: &Workload) -> Result<Slots, NoMemory>
    requires least { 1 ≤ site.0 }
    requires most { site.0 ≤ 8 }
    ensures copies { IfOk result (λ slots. copies_from 0 slots.items ≡ (first_site workload.now site).copies) }
    ensures few { IfOk result (λ slots. vec_len slots ≤ 2 ^ 16) }
{
    let mut slots = Vec::new(alloc);
    for line in workload.items.as_slice() {
        slots.push(first_held(line.value, line.holders.contains(site)))?;
    }
    Ok(slots)
}

/// What a copy of an item with this initial value holds at the start, if there is a copy.
fn first_held(value: i64, here: bool) -> Option<Held>
    ensures { result ≡ (if here then Some (record { value = value; version = 0 }) else None) }
{
    if here {
        Some(Held { value, version: 0 })
    } else {
        None
    }
}

/// What the copy of the item holds, if there is one.
pub fn held(slots: &[Option<Held>], item: Item) -> Option<Held>
    ensures { result ≡ option_map held (copy_in (copies_from 0 slots.now) item) }
{
    let place = item.0 as usize;
    if place < slots.len() {
        slots[place]
    } else {
        None
    }
}

/// Gives the item's copy, if there is one, a value and a version.
pub fn set(slots: &mut [Option<Held>], item: Item, value: i64, version: u32)
    ensures is { copies_from 0 slots.new ≡ set_copy item value version (copies_from 0 slots.old) }
    ensures length { length slots.new ≡ length slots.old }
{
    let place = item.0 as usize;
    if place < slots.len() && slots[place].is_some() {
        slots[place] = Some(Held { value, version });
    }
}

/// Gives the copies of the items, where there are any, the values of their first pairs, and the version.
fn set_all(slots: &mut [Option<Held>], pairs: &[(Item, i64)], version: u32)
    ensures is { copies_from 0 slots.new ≡ map (renewed version pairs.now) (copies_from 0 slots.old) }
    ensures length { length slots.new ≡ length slots.old }
{
    for k in (0..pairs.len()).rev() {
        let (item, value) = pairs[k];
        set(slots, item, value, version);
    }
}

/// Makes what is staged for the transaction, if anything is, the copies.
pub fn set_staged(slots: &mut [Option<Held>], staged: &[(Txn, Pairs)], txn: Txn, version: u32)
    ensures is { copies_from 0 slots.new ≡ renewed_by staged.now txn version (copies_from 0 slots.old) }
    ensures length { length slots.new ≡ length slots.old }
{
    for (other, pairs) in staged {
        if *other == txn {
            set_all(slots, pairs.as_slice(), version);
            return;
        }
    }
}
