//! Which sites hold what a transaction writes.

ghost use Rattle.std.specs.Prelude.{◌≡◌, ◌≤◌, ◌&&◌, not, filter, nat_le, IfOk};
ghost use Rattle.raid_base.specs.Names.{is_site, has_site};
ghost use Rattle.raid_workload.specs.Parts.{placement, sites};
ghost use Rattle.raid_rules.specs.Sessions as rules;
ghost use Rattle.raid_legal.specs.Seen as seen;
ghost use Rattle.raid_steps.specs.Programs as steps;

use raid_base::{Item, NoMemory, Pairs, Site, Sites, Vector};
use raid_workload::Workload;
use std::alloc::Global;

/// The sites that hold the item, none where the workload doesn't have it.
fn holders(workload: &Workload, item: Item) -> Sites
    ensures { result ≡ rules.holders (placement workload.now) item }
{
    let place = item.0 as usize;
    if place < workload.items.len() {
        workload.items.get(place).holders
    } else {
        Sites::none()
    }
}

/// Whether the site holds the item.
fn is_holder(workload: &Workload, item: Item, site: Site) -> bool
    requires least { 1 ≤ site.0 }
    requires most { site.0 ≤ 8 }
    ensures { result ≡ has_site (rules.holders (placement workload.now) item) site }
{
    holders(workload, item).contains(site)
}

/// Whether the site holds one of the written items.
pub fn holds_some(workload: &Workload, writes: &[(Item, i64)], site: Site) -> bool
    requires least { 1 ≤ site.0 }
    requires most { site.0 ≤ 8 }
    ensures { result ≡ seen.holds_some workload.now writes.now site }
{
    for (item, _) in writes {
        if is_holder(workload, *item, site) {
            return true;
        }
    }
    false
}

/// Those of the writes whose items the site holds.
pub fn held_by(
    alloc: Global,
    workload: &Workload,
    site: Site,
    writes: &[(Item, i64)],
) -> Result<Pairs, NoMemory>
    requires least { 1 ≤ site.0 }
    requires most { site.0 ≤ 8 }
    ensures { IfOk result (λ held. held ≡ steps.held_by workload.now site writes.now) }
{
    let mut held = Pairs::new(alloc);
    for (item, value) in writes {
        if is_holder(workload, *item, site) {
            held.push((*item, *value))?;
        }
    }
    Ok(held)
}

/// Whether a site has to vote on the writes of another one's transaction: it is up and holds one of the items.
fn has_vote(
    workload: &Workload,
    vector: Vector,
    own: Site,
    writes: &[(Item, i64)],
    site: Site,
) -> bool
    requires least { 1 ≤ site.0 }
    requires most { site.0 ≤ 8 }
    ensures { result ≡ (nat_le site.0 workload.now.sites && (rules.is_site_up vector site && not (is_site own site) && seen.holds_some workload.now writes.now site)) }
{
    site.0 <= workload.sites
        && vector.session(site) > 0
        && site != own
        && holds_some(workload, writes, site)
}

/// The other up sites that hold a written item.
pub fn voters(workload: &Workload, vector: Vector, own: Site, writes: &[(Item, i64)]) -> Sites
    ensures { result ≡ filter (λ s. rules.is_site_up vector s && not (is_site own s) && seen.holds_some workload.now writes.now s) (sites workload.now) }
{
    let mut voters = Sites::none();
    for number in 1..9 {
        let site = Site(number);
        if has_vote(workload, vector, own, writes, site) {
            voters = voters.with(site);
        }
    }
    voters
}
