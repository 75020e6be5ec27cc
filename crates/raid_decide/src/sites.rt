//! Which sites take a write, and when they keep a commit from being decided.

ghost use Rattle.std.specs.Prelude.{◌≡◌, ◌≤◌, ◌&&◌, not, List, None, Some};
ghost use Rattle.std.specs.List.{list_any};
ghost use Rattle.raid_base.specs.declared.entry.Noted.{Noted};
ghost use Rattle.raid_workload.specs.Parts as parts;
ghost use Rattle.raid_rules.specs.Sessions as rules;
ghost use Rattle.raid_legal.specs.Seen as seen;
ghost use Rattle.raid_legal.specs.Answers as words;

use raid_base::{Cause, Item, Request, Site, Sites, Vector};
use raid_session::agrees;
use raid_workload::Workload;

/// The vector in which no site is up.
const NOWHERE: Vector = Vector {
    count: 0,
    sessions: [0; 8],
};

/// The sites that hold the item, none past the workload's items.
fn holders(workload: &Workload, item: Item) -> Sites
    ensures { result ≡ rules.holders (parts.placement workload.now) item }
{
    match workload.items.as_slice().get(item.0 as usize) {
        Some(line) => line.holders,
        None => Sites::none(),
    }
}

/// Whether one of the sites is up: the others say the same as a vector in which none is.
fn any_up(vector: Vector, sites: Sites) -> bool
    ensures { result ≡ list_any (rules.is_site_up vector) sites }
{
    !agrees(NOWHERE, vector, sites)
}

/// Whether the site holds one of the written items.
fn holds_some(workload: &Workload, writes: &[(Item, i64)], site: Site) -> bool
    requires least { 1 ≤ site.0 }
    requires most { site.0 ≤ 8 }
    ensures { result ≡ seen.holds_some workload.now writes.now site }
{
    writes
        .iter()
        .any(|(item, _)| holders(workload, *item).contains(site))
}

/// Whether the site is up in the vector, and holds one of the written items.
fn takes_part(workload: &Workload, vector: Vector, writes: &[(Item, i64)], site: Site) -> bool
    requires least { 1 ≤ site.0 }
    requires most { site.0 ≤ 8 }
    ensures { result ≡ (rules.is_site_up vector site && seen.holds_some workload.now writes.now site) }
{
    vector.session(site) > 0 && holds_some(workload, writes, site)
}

/// The sites at which the writes are applied: those that are up, and hold one of the items.
pub fn up_holders(workload: &Workload, vector: Vector, writes: &[(Item, i64)]) -> Sites
    ensures { (p : List Noted) → vector ≡ seen.vector workload.now p → result ≡ seen.up_holders workload.now p writes.now }
{
    let mut up = Sites::none();
    for number in 1..9 {
        let site = Site(number);
        if takes_part(workload, vector, writes, site) {
            up = up.with(site);
        }
    }
    up
}

/// Whether no holder of one of the written items is up in the vector.
fn is_unheld(workload: &Workload, vector: Vector, writes: &[(Item, i64)]) -> bool
    ensures { result ≡ list_any (λ pair. not (list_any (rules.is_site_up vector) (rules.holders (parts.placement workload.now) pair.0))) writes.now }
{
    writes
        .iter()
        .any(|(item, _)| !any_up(vector, holders(workload, *item)))
}

/// Whether a written item has no holder that is up.
pub fn has_no_holder(workload: &Workload, vector: Vector, request: &Request) -> bool
    ensures { (p : List Noted) → vector ≡ seen.vector workload.now p → result ≡ words.has_no_holder workload.now p request.now }
{
    is_unheld(workload, vector, request.writes.as_slice())
}

/// Whether a site that would take a write is in another session than the request says.
pub fn is_stale(workload: &Workload, vector: Vector, request: &Request) -> bool
    ensures { (p : List Noted) → vector ≡ seen.vector workload.now p → result ≡ words.is_stale workload.now p request.now }
{
    let up = up_holders(workload, vector, request.writes.as_slice());
    !agrees(request.under, vector, up)
}

/// Why the sites keep the commit from being decided, if they do: nobody could take a write, or the request's home knew other sessions
/// than the present ones.
pub fn site_refusal(workload: &Workload, vector: Vector, request: &Request) -> Option<Cause>
    ensures { (p : List Noted) → vector ≡ seen.vector workload.now p → result ≡ words.site_refusal workload.now p request.now }
{
    if has_no_holder(workload, vector, request) {
        return Some(Cause::NoCopy);
    }
    if is_stale(workload, vector, request) {
        return Some(Cause::Stale(vector));
    }
    None
}
