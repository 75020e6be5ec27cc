//! Servers as nodes before any letter.
ghost use Rattle.std.specs.Prelude.{◌≡◌, ◌<◌, ◌≤◌, ◌+◌, true, [], length, map, slice_index_or, IfOk};
ghost use Rattle.raid_force.specs.Lasting.{AreClear, are_whole};
ghost use Rattle.raid_nodes.specs.Opening.{AreOpened, AreRest};
ghost use Rattle.raid_nodes.specs.Ran.{AreOpen, IsFirst};

use crate::linking::{Ends, links, welcome_all};
use crate::node::ServerNode;
use crate::server::Server;
use raid_base::{NoMemory, Site};
use raid_control::{Controller, Rack};
use raid_link::OnTheWay;
use raid_merge::Journal;
use raid_monitor::Monitor;
use raid_sequencer::Sequencer;
use raid_site::SiteServer;
use raid_workload::Workload;
use std::alloc::Global;
use std::marker::PhantomData;
use std::mem;
use std::sync::Arc;

/// The monitor before any letter.
fn first_monitor(workload: &Workload) -> Server
    ensures { IsFirst ⟦<dyn Controller as Controller>⟧ workload.now 0 result }
{
    Server::Monitor(Monitor::new())
}

/// The sequencer before any letter.
fn first_sequencer(alloc: Global, workload: &Workload, rack: Rack) -> Result<Server, NoMemory>
    requires whole { are_whole ⟦<dyn Controller as Controller>⟧ rack.slots.items ≡ true }
    requires clear { AreClear ⟦<dyn Controller as Controller>⟧ rack.slots.items }
    ensures { IfOk result (λ server. IsFirst ⟦<dyn Controller as Controller>⟧ workload.now 1 server) }
{
    let sequencer = Sequencer::new(alloc, workload, rack)?;
    Ok(Server::Sequencer(sequencer))
}

/// The server of a site, which is numbered from 0 here, before any letter.
fn first_site(alloc: Global, workload: &Workload, k: u8) -> Result<Server, NoMemory>
    requires { k < workload.now.sites }
    ensures { IfOk result (λ server. IsFirst ⟦<dyn Controller as Controller>⟧ workload.now (k + 2) server) }
{
    let site = SiteServer::new(alloc, workload, Site(k + 1))?;
    Ok(Server::Site(site))
}

impl ServerNode {
    /// A server before any letter as the node with this number. It takes its ends of the links out of the rows of all.
    fn new(
        alloc: Global,
        number: u16,
        server: Server,
        ends: &mut Ends,
        way: &Arc<OnTheWay>,
    ) -> Result<ServerNode, NoMemory>
        requires outs { number < length ends.old.outs.items }
        requires inputs { number < length ends.old.inputs.items }
        ensures number { IfOk result (λ x. x.number ≡ number) }
        ensures server { IfOk result (λ x. x.server ≡ server) }
        ensures clock { IfOk result (λ x. x.clock ≡ 0) }
        ensures journal { IfOk result (λ x. x.journal ≡ []) }
        ensures outs { IfOk result (λ x. x.outs.items ≡ slice_index_or (map (λ row. row.items) ends.old.outs.items) number []) }
        ensures inputs { IfOk result (λ x. x.inputs.items ≡ slice_index_or (map (λ row. row.items) ends.old.inputs.items) number []) }
        ensures rest { AreRest number (map (λ row. row.items) ends.old.outs.items) (map (λ row. row.items) ends.new.outs.items) }
        ensures others { AreRest number (map (λ row. row.items) ends.old.inputs.items) (map (λ row. row.items) ends.new.inputs.items) }
    {
        let way = Arc::try_clone(way)?;
        Ok(ServerNode {
            number,
            server,
            clock: 0,
            journal: Journal::new(alloc),
            outs: mem::replace(&mut ends.outs[number as usize], Vec::new(alloc)),
            inputs: mem::replace(&mut ends.inputs[number as usize], Vec::new(alloc)),
            at: 0,
            since: 0,
            way,
            tokens: 0,
            told: PhantomData,
        })
    }
}

/// Makes a node of each server, with the links that are its own.
fn seat(
    alloc: Global,
    workload: &Workload,
    rack: Rack,
    mut ends: Ends,
) -> Result<Vec<ServerNode>, NoMemory>
    requires whole { are_whole ⟦<dyn Controller as Controller>⟧ rack.slots.items ≡ true }
    requires clear { AreClear ⟦<dyn Controller as Controller>⟧ rack.slots.items }
    requires opened { AreOpened workload.now (map (λ row. row.items) ends.outs.items) (map (λ row. row.items) ends.inputs.items) }
    ensures { IfOk result (λ nodes. AreOpen ⟦<dyn Controller as Controller>⟧ workload.now nodes.items) }
{
    let way = Arc::new(alloc, OnTheWay::new(u64::from(workload.sites)))?;
    let mut nodes = Vec::new(alloc);
    let monitor = first_monitor(workload);
    nodes.push(ServerNode::new(alloc, 0, monitor, &mut ends, &way)?)?;
    let sequencer = first_sequencer(alloc, workload, rack)?;
    nodes.push(ServerNode::new(alloc, 1, sequencer, &mut ends, &way)?)?;
    for k in 0..workload.sites {
        let site = first_site(alloc, workload, k)?;
        nodes.push(ServerNode::new(alloc, k as u16 + 2, site, &mut ends, &way)?)?;
    }
    Ok(nodes)
}

/// The servers of a workload as nodes, before any letter but those that welcome the sites, each by its number. `places` is how many letters
/// the ring of a link holds, 1 to 1,024. The rack has to be whole and its controllers cleared. Want of memory is the only error.
pub fn nodes(
    alloc: Global,
    workload: &Workload,
    places: u32,
    rack: Rack,
) -> Result<Vec<ServerNode>, NoMemory>
    requires least { 1 ≤ places }
    requires most { places ≤ 1024 }
    requires whole { are_whole ⟦<dyn Controller as Controller>⟧ rack.slots.items ≡ true }
    requires clear { AreClear ⟦<dyn Controller as Controller>⟧ rack.slots.items }
    ensures { IfOk result (λ nodes. AreOpen ⟦<dyn Controller as Controller>⟧ workload.now nodes.items) }
{
    let mut ends = links(alloc, workload.sites as usize + 2, places)?;
    welcome_all(workload, &mut ends.outs[1])?;
    seat(alloc, workload, rack, ends)
}
