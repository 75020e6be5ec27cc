//! The links between all servers, before any letter but those that welcome the sites.
ghost use Rattle.std.specs.Prelude.{◌≡◌, ◌<◌, ◌≤◌, ◌+◌, ℕ, [], length, map, replicate, slice_index_or, IfOk, OnOk};
ghost use Rattle.raid_link.specs.Link.{all_sent};
ghost use Rattle.raid_link.specs.declared.ends.Sender.{Sender};
ghost use Rattle.raid_nodes.specs.Opening.{AddedUpTo, AllLinks, Welcomed};

use raid_base::{NoMemory, Site};
use raid_link::{Receiver, Sender, link};
use raid_workload::Workload;
use raid_world::opening::welcome;
use std::alloc::Global;

/// So many empty rows.
fn rows(alloc: Global, count: usize) -> Result<Vec<Vec<Receiver>>, NoMemory>
    ensures { IfOk result (λ rows. map (λ row. row.items) rows.items ≡ replicate count []) }
{
    let mut rows = Vec::new(alloc);
    for _made in 0..count {
        rows.push(Vec::new(alloc))?;
    }
    Ok(rows)
}

/// Makes a link from one server to each, in order: the ends that send, which are the server's. Each that receives goes to the end of its
/// own server's row.
fn links_from(
    alloc: Global,
    places: u32,
    inputs: &mut [Vec<Receiver>],
) -> Result<Vec<Sender>, NoMemory>
    requires least { 1 ≤ places }
    requires most { places ≤ 1024 }
    ensures { IfOk result (λ senders. AddedUpTo (length inputs.old) (map (λ row. row.items) inputs.old) senders.items (map (λ row. row.items) inputs.new)) }
{
    let mut senders = Vec::new(alloc);
    for to in 0..inputs.len() {
        let (sender, receiver) = link(alloc, places)?;
        senders.push(sender)?;
        inputs[to].push(receiver)?;
    }
    Ok(senders)
}

/// The rows of all ends that send, by their servers' numbers, and of all that receive, by theirs.
#[derive(Drop)]
pub struct Ends {
    pub outs: Vec<Vec<Sender>>,
    pub inputs: Vec<Vec<Receiver>>,
}

/// Makes a link from each of so many servers to each.
pub fn links(alloc: Global, count: usize, places: u32) -> Result<Ends, NoMemory>
    requires least { 1 ≤ places }
    requires most { places ≤ 1024 }
    ensures { IfOk result (λ ends. AllLinks count count (map (λ row. row.items) ends.outs.items) (map (λ row. row.items) ends.inputs.items)) }
{
    let mut outs = Vec::new(alloc);
    let mut inputs = rows(alloc, count)?;
    for _from in 0..count {
        let senders = links_from(alloc, places, &mut inputs)?;
        outs.push(senders)?;
    }
    Ok(Ends { outs, inputs })
}

/// Sends each site the letter that welcomes it.
pub fn welcome_all(workload: &Workload, senders: &mut [Sender]) -> Result<(), NoMemory>
    requires count { length senders.old ≡ workload.now.sites + 2 }
    requires none { (k : ℕ) (e : Sender) → k < length senders.old → all_sent (slice_index_or senders.old k e) ≡ [] }
    ensures { OnOk result (Welcomed workload.now (workload.now.sites + 2) senders.old senders.new) }
{
    for k in 0..workload.sites {
        senders[k as usize + 2].send(welcome(workload, Site(k + 1)))?;
    }
    Ok(())
}
