//! What a conflict graph, or a controller that judges by one, says after some entries.

use raid_base::{
    Act, Ask, Cause, Entry, Item, Kind, NoMemory, Pairs, Request, Site, Sites, Txn, Vector, Verdict,
};
use raid_conflict::Graph;
use raid_control::Controller;
use raid_generic::GenericControl;
use raid_graph::GraphControl;
use raid_rules::order::Order;
use std::alloc::Global;

/// What a transaction does, each by its number, as items are. The entries are numbered from 1.
#[derive(Clone, Copy)]
pub enum Does {
    Begins(u32),
    Reads(u32, u16),
    /// With a write of each of the items.
    Commits(u32, &'static [u16]),
    IsAborted(u32),
}

/// What a transaction asks for.
#[derive(Clone, Copy)]
pub enum Asks {
    ToRead(u32, u16),
    /// With a write of each of the items.
    ToCommit(u32, &'static [u16]),
}

/// Whether all committed transactions can be listed.
#[derive(Clone, Copy, Debug, PartialEq, Eq)]
pub enum Listing {
    Whole,
    Cyclic,
}

/// The order of the committed transactions, or a cycle of theirs.
#[derive(Drop)]
pub struct Listed {
    pub listing: Listing,
    pub txns: Vec<u32>,
}

/// A write of 1 to each of the items.
fn writes_of(alloc: Global, items: &[u16]) -> Result<Pairs, NoMemory> {
    let mut writes = Pairs::new(alloc);
    for item in items {
        writes.push((Item(*item), 1))?;
    }
    Ok(writes)
}

/// The entry that says so, at the only site.
fn entry_of(alloc: Global, does: Does) -> Result<Entry, NoMemory> {
    let entry = match does {
        Does::Begins(txn) => Entry::Begin {
            txn: Txn(txn),
            home: Site(1),
        },
        Does::Reads(txn, item) => Entry::Read {
            txn: Txn(txn),
            item: Item(item),
            site: Site(1),
        },
        Does::Commits(txn, items) => Entry::Commit {
            txn: Txn(txn),
            request: Request {
                reads: Pairs::new(alloc),
                writes: writes_of(alloc, items)?,
                under: Vector {
                    count: 1,
                    sessions: [1, 0, 0, 0, 0, 0, 0, 0],
                },
            },
            applied: Sites::none().with(Site(1)),
        },
        Does::IsAborted(txn) => Entry::Abort {
            txn: Txn(txn),
            cause: Cause::Own,
            act: Act::Ended(Pairs::new(alloc)),
        },
    };
    Ok(entry)
}

/// The transaction that does so.
fn txn_of(does: Does) -> u32 {
    match does {
        Does::Begins(txn) | Does::Reads(txn, _) | Does::Commits(txn, _) | Does::IsAborted(txn) =>
            txn,
    }
}

/// The number of the transaction's Begin, 0 where it has none.
fn stamp_of(done: &[Does], txn: u32) -> u32 {
    let mut number: u32 = 0;
    for does in done {
        number = number.saturating_add(1);
        if let Does::Begins(begun) = does {
            if *begun == txn {
                return number;
            }
        }
    }
    0
}

/// A graph that has noted what was done.
fn graph_of(alloc: Global, done: &[Does]) -> Result<Graph, NoMemory> {
    let mut graph = Graph::new(alloc, 1, 1)?;
    let mut number: u32 = 0;
    for does in done {
        number = number.saturating_add(1);
        let entry = entry_of(alloc, *does)?;
        graph.note(number, stamp_of(done, txn_of(*does)), &entry)?;
    }
    Ok(graph)
}

/// How many transactions are live after each of the entries.
pub fn live_after_each(alloc: Global, done: &[Does]) -> Result<Vec<usize>, NoMemory> {
    let mut counts = Vec::new(alloc);
    for count in 0..done.len() {
        let mut graph = graph_of(alloc, &done[..count + 1])?;
        counts.push(graph.live())?;
    }
    Ok(counts)
}

/// The order of the committed transactions after all entries.
pub fn order_after(alloc: Global, done: &[Does]) -> Result<Listed, NoMemory> {
    let graph = graph_of(alloc, done)?;
    let (listing, listed) = match graph.order(alloc)? {
        Order::Whole(listed) => (Listing::Whole, listed),
        Order::Cyclic(cycle) => (Listing::Cyclic, cycle),
    };
    let mut txns = Vec::new(alloc);
    for txn in listed.as_slice() {
        txns.push(txn.0)?;
    }
    Ok(Listed { listing, txns })
}

/// Whether the transaction reaches one whose stamp is less.
pub fn reach_after(alloc: Global, done: &[Does], txn: u32, before: u32) -> Result<bool, NoMemory> {
    let mut graph = graph_of(alloc, done)?;
    Ok(graph.reaches_before(Txn(txn), before))
}

/// What the controller says of it, once it has noted what was done.
fn verdict<C: Controller>(
    alloc: Global,
    control: &mut C,
    done: &[Does],
    asks: Asks,
) -> Result<Verdict, NoMemory> {
    let mut number: u32 = 0;
    for does in done {
        number = number.saturating_add(1);
        let entry = entry_of(alloc, *does)?;
        control.note(number, stamp_of(done, txn_of(*does)), &entry)?;
    }
    let none = Pairs::new(alloc);
    match asks {
        Asks::ToRead(txn, item) => Ok(control.judge(&Ask::Read {
            txn: Txn(txn),
            stamp: stamp_of(done, txn),
            item: Item(item),
        })),
        Asks::ToCommit(txn, items) => {
            let writes = writes_of(alloc, items)?;
            Ok(control.judge(&Ask::Commit {
                txn: Txn(txn),
                stamp: stamp_of(done, txn),
                reads: &none,
                writes: &writes,
            }))
        }
    }
}

/// What the native controller says.
pub fn says(alloc: Global, done: &[Does], asks: Asks) -> Result<Verdict, NoMemory> {
    let mut control = GraphControl::new(alloc, 1, 1)?;
    verdict(alloc, &mut control, done, asks)
}

/// What the generic one says, which stands for the same entries.
pub fn says_generic(alloc: Global, done: &[Does], asks: Asks) -> Result<Verdict, NoMemory> {
    let mut control = GenericControl::new(alloc, Kind::Graph, 1, 1)?;
    verdict(alloc, &mut control, done, asks)
}
