//! The links at the start.
ghost use Rattle.std.specs.Prelude.{◌≡◌, ◌≤◌, ◌+◌, replicate, All, IfOk};
ghost use Rattle.raid_steps.specs.Programs as steps;
ghost use Rattle.raid_steps.specs.World.{open_world, first_letter};
ghost use Rattle.raid_world.specs.Stands.{AreLinks, InTime};

use raid_base::{NoMemory, Site, Vector};
use raid_links::Links;
use raid_message::{Letter, Message};
use raid_workload::Workload;
use std::alloc::Global;

/// The number of the first transaction that a site begins, 0 where none has its home there.
fn first_of(workload: &Workload, site: Site) -> u32
    ensures { result ≡ steps.following workload.now site 0 }
{
    for k in 0..workload.programs.len() {
        if workload.programs.get(k).home == site {
            return k as u32 + 1;
        }
    }
    0
}

/// So many sites, each in its first session.
fn all_first(sites: u8) -> Vector
    requires { sites ≤ 8 }
    ensures { result ≡ replicate sites 1 }
{
    let mut sessions = [0; 8];
    for k in 0..sites {
        sessions[k as usize] = 1;
    }
    Vector {
        count: sites,
        sessions,
    }
}

/// The letter that waits at a site.
pub fn welcome(workload: &Workload, site: Site) -> Letter
    ensures { result ≡ first_letter workload.now site }
{
    Letter {
        clock: 0,
        from: 0,
        to: 1,
        message: Message::Welcome {
            vector: all_first(workload.sites),
            next: first_of(workload, site),
        },
    }
}

/// The links at the start: for each site a letter of the sequencer is on its way.
pub fn open_links(alloc: Global, workload: &Workload) -> Result<Links, NoMemory>
    ensures are { IfOk result (λ links. links ≡ (open_world workload.now).links) }
    ensures shape { IfOk result (λ links. AreLinks (workload.now.sites + 2) links) }
    ensures in_time { IfOk result (λ links. All (All (All (InTime 0))) links) }
{
    let mut links = Links::new(alloc, workload.sites as usize + 2)?;
    for k in 0..workload.sites {
        let letter = welcome(workload, Site(k + 1));
        links.push(k as u16 + 2, 1, letter)?;
    }
    Ok(links)
}
