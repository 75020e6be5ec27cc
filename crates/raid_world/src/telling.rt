//! What is told of the servers at the end.
ghost use Rattle.std.specs.Prelude.{◌≡◌, ◌<◌, ◌==◌, if◌then◌else◌, [], pos, length, map, flat_map, unwrap_or, vec_len, slice_index_or, All, IfOk, false};
ghost use Rattle.raid_base.specs.declared.names.Item.{Item};
ghost use Rattle.raid_base.specs.Find.{first_of};
ghost use Rattle.raid_workload.specs.Parts.{items};
ghost use Rattle.raid_rules.specs.Conflict.{serial_order};
ghost use Rattle.raid_rules.specs.Entries as words;
ghost use Rattle.raid_rules.specs.History.{noted};
ghost use Rattle.raid_legal.specs.Seen.{value_of};
ghost use Rattle.raid_steps.specs.State as states;
ghost use Rattle.raid_steps.specs.World.{copy_lines};
ghost use Rattle.raid_site.specs.Server.{state_of};
ghost use Rattle.raid_sequencer.specs.Runs as deciding;
ghost use Rattle.raid_world.specs.Stands.{GoesOn};

use raid_base::{CopyList, Duplicate, Entries, Entry, Item, NoMemory, Pairs, TxnList};
use raid_control::Controller;
use raid_history::History;
use raid_rules::order::Order;
use raid_sequencer::Sequencer;
use raid_site::SiteServer;
use raid_workload::Workload;
use std::alloc::Global;

/// All entries of a history.
pub fn entries(alloc: Global, history: &History) -> Result<Entries, NoMemory>
    ensures { IfOk result (λ entries. entries ≡ history.now) }
{
    let mut entries = Entries::new(alloc);
    for k in 0..history.len() {
        let copied = history.entry(k + 1).copy(alloc)?;
        entries.push(copied)?;
    }
    Ok(entries)
}

/// The serial order of the committed transactions.
pub fn order(alloc: Global, sequencer: &Sequencer) -> Result<TxnList, NoMemory>
    requires runs { deciding.Runs ⟦<dyn Controller as Controller>⟧ sequencer.now }
    requires goes_on { deciding.is_finished sequencer.now ≡ false }
    requires tells { (s : states.Sequencer) × deciding.Tells sequencer.now s }
    ensures { IfOk result (λ order. (s : states.Sequencer) → deciding.Tells sequencer.now s → order ≡ serial_order (noted s.history)) }
{
    match sequencer.order(alloc)? {
        Order::Whole(order) => Ok(order),
        Order::Cyclic(_) => unreachable!(),
    }
}

/// The values that the items open with, in their order.
fn first_values(alloc: Global, workload: &Workload) -> Result<Vec<i64>, NoMemory>
    ensures long { IfOk result (λ values. vec_len values ≡ length workload.now.items) }
    ensures are { IfOk result (λ values. (x : Item) → x.0 < length workload.now.items → slice_index_or values.items x.0 (pos 0) ≡ value_of workload.now [] x) }
{
    let mut values = Vec::new(alloc);
    for line in workload.items.as_slice() {
        values.push(line.value)?;
    }
    Ok(values)
}

/// What an entry writes: the writes of a Commit.
fn writes_of(entry: &Entry) -> &[(Item, i64)]
    ensures { result.now ≡ words.writes_of entry.now }
{
    match entry {
        Entry::Commit { request, .. } => request.writes.as_slice(),
        _ => &[],
    }
}

/// Gives the items that have a place the values of their first pairs.
fn put_all(values: &mut Vec<i64>, pairs: &[(Item, i64)])
    ensures long { vec_len values.new ≡ vec_len values.old }
    ensures are { (x : Item) → x.0 < vec_len values.old → slice_index_or values.new.items x.0 (pos 0) ≡ unwrap_or (first_of x pairs.now) (slice_index_or values.old.items x.0 (pos 0)) }
{
    for k in (0..pairs.len()).rev() {
        let (item, value) = pairs[k];
        put(values, item, value);
    }
}

/// Gives an item that has a place a value.
fn put(values: &mut Vec<i64>, item: Item, value: i64)
    ensures long { vec_len values.new ≡ vec_len values.old }
    ensures are { (x : Item) → x.0 < vec_len values.old → slice_index_or values.new.items x.0 (pos 0) ≡ (if item.0 == x.0 then value else slice_index_or values.old.items x.0 (pos 0)) }
{
    let place = item.0 as usize;
    if place < values.len() {
        values[place] = value;
    }
}

/// The value that each item has after the history, in the order of the items: one pass over its Commits.
fn values(alloc: Global, workload: &Workload, history: &History) -> Result<Vec<i64>, NoMemory>
    ensures long { IfOk result (λ values. vec_len values ≡ length workload.now.items) }
    ensures are { IfOk result (λ values. (x : Item) → x.0 < length workload.now.items → slice_index_or values.items x.0 (pos 0) ≡ value_of workload.now (noted history.now) x) }
{
    let mut values = first_values(alloc, workload)?;
    for k in 0..history.len() {
        put_all(&mut values, writes_of(history.entry(k + 1)));
    }
    Ok(values)
}

/// Each item with the value that it has after the history.
pub fn finals(alloc: Global, workload: &Workload, history: &History) -> Result<Pairs, NoMemory>
    ensures { IfOk result (λ pairs. pairs ≡ map (λ x. (x, value_of workload.now (noted history.now) x)) (items workload.now)) }
{
    let values = values(alloc, workload, history)?;
    let mut pairs = Pairs::new(alloc);
    for k in 0..workload.items.len() {
        pairs.push((Item(k as u16), values[k]))?;
    }
    Ok(pairs)
}

/// The copies of a site.
pub fn copies_at(
    alloc: Global,
    workload: &Workload,
    site: &SiteServer,
) -> Result<CopyList, NoMemory>
    requires { GoesOn workload.now site.now }
    ensures { IfOk result (λ lines. lines ≡ copy_lines (state_of site.now)) }
{
    site.copies().copy_lines(alloc)
}

/// The copies of all sites, in the order of the sites.
pub fn copies(
    alloc: Global,
    workload: &Workload,
    sites: &[SiteServer],
) -> Result<CopyList, NoMemory>
    requires { All (GoesOn workload.now) sites.now }
    ensures { IfOk result (λ lines. lines ≡ flat_map copy_lines (map state_of sites.now)) }
{
    let mut copies = CopyList::new(alloc);
    for site in sites {
        let lines = copies_at(alloc, workload, site)?;
        copies.push_all(lines.as_slice())?;
    }
    Ok(copies)
}
