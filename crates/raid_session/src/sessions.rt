ghost use Rattle.std.specs.Prelude.{◌≡◌, ◌≤◌, ◌&&◌, List, length, not, filter};
ghost use Rattle.raid_base.specs.declared.entry.Noted.{Noted};
ghost use Rattle.raid_base.specs.declared.request.Request.{Request};
ghost use Rattle.raid_base.specs.Names.{has_site};
ghost use Rattle.raid_base.specs.Sites.{all_sites};
ghost use Rattle.raid_workload.specs.declared.workload.Workload.{Workload};
ghost use Rattle.raid_workload.specs.Parts.{sites};
ghost use Rattle.raid_rules.specs.Sessions.{with_session, is_site_up};
ghost use Rattle.raid_legal.specs.Seen.{vector, holds_some};
ghost use Rattle.raid_legal.specs.Answers.{is_stale};
ghost use Rattle.raid_session.specs.Agreed.{agree, is_same};

use crate::sets;
use raid_base::{Site, Sites, Vector};

/// Whether the site is a holder that is up in the present vector in another session than in the request's.
fn differs(request: Vector, present: Vector, holders: Sites, site: Site) -> bool
    requires least { 1 ≤ site.0 }
    requires most { site.0 ≤ 8 }
    ensures { result ≡ (has_site holders site && not (is_same request present site)) }
{
    let session = present.session(site);
    holders.contains(site) && session > 0 && session != request.session(site)
}

/// Whether each of the holders that is up in the present vector has the same session in both vectors. A holder that is down
/// counts for nothing.
pub fn agrees(request: Vector, present: Vector, holders: Sites) -> bool
    ensures { result ≡ agree request present holders }
{
    sets::ascends(holders);
    for number in 1..9 {
        if differs(request, present, holders, Site(number)) {
            return false;
        }
    }
    true
}

/// The vector after the site went down.
pub fn after_down(vector: Vector, site: Site) -> Vector
    requires least { 1 ≤ site.0 }
    requires most { site.0 ≤ length vector }
    ensures is { result ≡ with_session vector site 0 }
    ensures count { length result ≡ length vector }
{
    after_up(vector, site, 0)
}

/// The vector after the site came up in a session.
pub fn after_up(vector: Vector, site: Site, session: u32) -> Vector
    requires least { 1 ≤ site.0 }
    requires most { site.0 ≤ length vector }
    ensures is { result ≡ with_session vector site session }
    ensures count { length result ≡ length vector }
{
    let mut sessions = vector.sessions;
    sessions[site.0 as usize - 1] = session;
    Vector {
        count: vector.count,
        sessions,
    }
}

/// The sites that are up in the vector.
pub fn up_sites(vector: Vector) -> Sites
    ensures { result ≡ filter (is_site_up vector) all_sites }
{
    let mut up = Sites::none();
    for number in 1..9 {
        let site = Site(number);
        if vector.session(site) > 0 {
            up = up.with(site);
        }
    }
    up
}

/// A request is stale exactly where its vector and the present one don't agree on the sites that hold what it writes.
#[tactic(auto, using(crate::proofs::Stale::stale_where_not_agreed))]
pub fn stale_is_disagreement()
    ensures { (w : Workload) (p : List Noted) (request : Request) → is_stale w p request ≡ not (agree request.under (vector w p) (filter (holds_some w request.writes) (sites w))) }
{}
