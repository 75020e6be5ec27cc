//! Whether a report whose history is legal is serial.

ghost use Rattle.std.specs.Prelude.{◌≡◌, ◌↔◌, map, IsTrue, IfOk};
ghost use Rattle.raid_workload.specs.Parts as parts;
ghost use Rattle.raid_rules.specs.History.{noted};
ghost use Rattle.raid_rules.specs.Conflict.{serial_order};
ghost use Rattle.raid_legal.specs.Seen.{value_of};
ghost use Rattle.raid_legal.specs.Serial as words;
ghost use Rattle.raid_check.specs.Replay.{AreOf};

use crate::tables::Tables;
use raid_base::{Item, NoMemory, Pairs, Report, Txn, TxnList};
use raid_rules::order::Order;
use raid_seen::same::are_same_pairs;
use raid_workload::Workload;
use std::alloc::Global;

/// Whether two lists of transactions are one.
fn are_same(a: &[Txn], b: &[Txn]) -> bool
    ensures { IsTrue result ↔ a.now ≡ b.now }
{
    a == b
}

/// The serial order of the history.
fn order(alloc: Global, workload: &Workload, tables: &Tables) -> Result<TxnList, NoMemory>
    requires { AreOf workload.now tables.now }
    ensures { IfOk result (λ ts. ts ≡ serial_order (noted tables.now.history)) }
{
    let order = tables.graph.order(alloc)?;
    match order {
        Order::Whole(order) => Ok(order),
        Order::Cyclic(_) => unreachable!(),
    }
}

/// All items, in order, with their values.
fn finals(alloc: Global, workload: &Workload, tables: &Tables) -> Result<Pairs, NoMemory>
    requires { AreOf workload.now tables.now }
    ensures { IfOk result (λ ps. ps ≡ map (λ x. (x, value_of workload.now (noted tables.now.history) x)) (parts.items workload.now)) }
{
    let mut finals = Pairs::new(alloc);
    for place in 0..workload.items.len() {
        let item = Item(place as u16);
        finals.push((item, tables.values.get(item)))?;
    }
    Ok(finals)
}

/// Whether the report, whose entries are those of the tables, is serial: its order is the serial order, and its finals are the items' last
/// values. That the programs, run one at a time in that order, make the Commits and leave those values is a law on legal histories.
pub fn is_serial(
    alloc: Global,
    workload: &Workload,
    tables: &Tables,
    report: &Report,
) -> Result<bool, NoMemory>
    requires of { AreOf workload.now tables.now }
    requires entries { tables.now.history ≡ report.now.entries }
    ensures { IfOk result (λ b. IsTrue b ↔ words.Serial workload.now report.now) }
{
    let order = order(alloc, workload, tables)?;
    if !are_same(report.order.as_slice(), order.as_slice()) {
        return Ok(false);
    }
    let finals = finals(alloc, workload, tables)?;
    Ok(are_same_pairs(report.finals.as_slice(), finals.as_slice()))
}
