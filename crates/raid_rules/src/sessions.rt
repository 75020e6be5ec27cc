//! Sessions, owed acknowledgements, locked copies and sources.

ghost use Rattle.std.specs.Prelude.{◌≡◌, ◌≤◌, ◌&&◌, replicate, find};
ghost use Rattle.raid_base.specs.Names.{holds};
ghost use Rattle.raid_base.specs.Sites.{all_sites};
ghost use Rattle.raid_rules.specs.Entries.{is_commit};
ghost use Rattle.raid_rules.specs.Sessions as words;

use crate::said;
use raid_base::{Entry, Item, Noted, Placement, Site, Sites, Txn, Vector};

/// The vector with another session of the site, where it has one.
fn with_session(vector: Vector, site: Site, session: u32) -> Vector
    ensures { result ≡ words.with_session vector site session }
{
    let mut sessions = vector.sessions;
    let place = usize::from(site.0).saturating_sub(1);
    if place < usize::from(vector.count) {
        sessions[place] = session;
    }
    Vector {
        count: vector.count,
        sessions,
    }
}

/// The vector in which each of so many sites has its first session.
fn opening(sites: u8) -> Vector
    requires { sites ≤ 8 }
    ensures { result ≡ replicate sites 1 }
{
    let mut vector = Vector {
        count: sites,
        sessions: [0; 8],
    };
    for number in 0..sites {
        vector = with_session(vector, Site(number + 1), 1);
    }
    vector
}

/// The vector after an entry.
fn vector_after(vector: Vector, entry: &Entry) -> Vector
    ensures { result ≡ words.turn_vector vector entry.now }
{
    match entry {
        Entry::Down { site } => with_session(vector, *site, 0),
        Entry::Up { site, session } => with_session(vector, *site, *session),
        _ => vector,
    }
}

/// The session of each site, 0 for one that is down.
pub fn vector(sites: u8, view: &[Noted]) -> Vector
    requires { sites ≤ 8 }
    ensures { result ≡ words.vector sites view.now }
{
    let mut vector = opening(sites);
    for noted in view {
        vector = vector_after(vector, &noted.entry);
    }
    vector
}

/// Whether the site owes the acknowledgement after an entry.
fn owed_after(owed: bool, site: Site, own: Txn, entry: &Entry) -> bool
    requires least { 1 ≤ site.0 }
    requires most { site.0 ≤ 8 }
    ensures { result ≡ words.turn_owed site own owed entry.now }
{
    match entry {
        Entry::Commit { txn, applied, .. } => owed || (*txn == own && applied.contains(site)),
        Entry::Ack { txn, site: other } => owed && !(*txn == own && *other == site),
        Entry::Down { site: other } => owed && *other != site,
        _ => owed,
    }
}

/// Whether the site owes an acknowledgement of the transaction's Commit: from a Commit that is applied there
/// until its Ack or a Down.
pub fn owes(view: &[Noted], site: Site, txn: Txn) -> bool
    requires least { 1 ≤ site.0 }
    requires most { site.0 ≤ 8 }
    ensures { result ≡ words.owes view.now site txn }
{
    let mut owed = false;
    for noted in view {
        owed = owed_after(owed, site, txn, &noted.entry);
    }
    owed
}

/// Whether the entry is a Commit that wrote the item and that the site has not acknowledged.
fn is_owed_for(view: &[Noted], site: Site, item: Item, entry: &Entry) -> bool
    requires least { 1 ≤ site.0 }
    requires most { site.0 ≤ 8 }
    ensures { result ≡ is_commit (λ t request. holds item request.writes && words.owes view.now site t) entry.now }
{
    match entry {
        Entry::Commit { txn, request, .. } => {
            said::has_item(request.writes.as_slice(), item) && owes(view, site, *txn)
        }
        _ => false,
    }
}

/// Whether the site owes an acknowledgement of a Commit that wrote the item.
pub fn owes_for(view: &[Noted], site: Site, item: Item) -> bool
    requires least { 1 ≤ site.0 }
    requires most { site.0 ≤ 8 }
    ensures { result ≡ words.owes_for view.now site item }
{
    view.iter().any(|n| is_owed_for(view, site, item, &n.entry))
}

/// Whether a copy of the item at the site is locked after an entry, `before` being the entries before it.
fn locked_after(locked: bool, before: &[Noted], site: Site, item: Item, entry: &Entry) -> bool
    requires least { 1 ≤ site.0 }
    requires most { site.0 ≤ 8 }
    ensures { result ≡ words.turn_lock site item before.now locked entry.now }
{
    match entry {
        Entry::Commit {
            request,
            applied,
            ..
        } => {
            if said::has_item(request.writes.as_slice(), item) {
                !applied.contains(site)
            } else {
                locked
            }
        }
        Entry::Down { site: other } => locked || (*other == site && owes_for(before, site, item)),
        Entry::Clear {
            site: other,
            item: cleared,
            ..
        } => locked && !(*other == site && *cleared == item),
        _ => locked,
    }
}

/// Whether a copy of the item at the site is locked, if the site has one.
fn is_copy_locked(view: &[Noted], site: Site, item: Item) -> bool
    requires least { 1 ≤ site.0 }
    requires most { site.0 ≤ 8 }
    ensures { result ≡ words.is_copy_locked view.now site item }
{
    let mut locked = false;
    for (place, noted) in view.iter().enumerate() {
        locked = locked_after(locked, &view[..place], site, item, &noted.entry);
    }
    locked
}

/// The sites that have a copy of the item, none for an item past the placement's.
fn holders(placement: &Placement, item: Item) -> Sites
    ensures { result ≡ words.holders placement.now item }
{
    match placement.as_slice().get(usize::from(item.0)) {
        Some(sites) => *sites,
        None => Sites::none(),
    }
}

/// Whether the site has a copy of the item, and it is locked.
pub fn is_locked(placement: &Placement, view: &[Noted], site: Site, item: Item) -> bool
    requires least { 1 ≤ site.0 }
    requires most { site.0 ≤ 8 }
    ensures { result ≡ words.is_locked placement.now view.now site item }
{
    holders(placement, item).contains(site) && is_copy_locked(view, site, item)
}

/// Whether the site is up and has an unlocked copy of the item.
pub fn is_source(placement: &Placement, sites: u8, view: &[Noted], item: Item, site: Site) -> bool
    requires sites { sites ≤ 8 }
    requires least { 1 ≤ site.0 }
    requires most { site.0 ≤ 8 }
    ensures { result ≡ words.is_source sites placement.now view.now item site }
{
    holders(placement, item).contains(site)
        && vector(sites, view).session(site) > 0
        && !is_copy_locked(view, site, item)
}

/// The least source of the item; None exactly where it has no source.
fn least_source(placement: &Placement, sites: u8, view: &[Noted], item: Item) -> Option<Site>
    requires { sites ≤ 8 }
    ensures { result ≡ find (words.is_source sites placement.now view.now item) all_sites }
{
    for number in 1..9 {
        if is_source(placement, sites, view, item, Site(number)) {
            return Some(Site(number));
        }
    }
    None
}

/// Where a transaction of this home reads the item: at its home where that is a source, else at the least
/// source; None exactly where there is no source.
pub fn source_for(
    placement: &Placement,
    sites: u8,
    view: &[Noted],
    item: Item,
    home: Site,
) -> Option<Site>
    requires sites { sites ≤ 8 }
    requires least { 1 ≤ home.0 }
    requires most { home.0 ≤ 8 }
    ensures { result ≡ words.source_for (words.sources sites placement.now view.now item) home }
{
    if is_source(placement, sites, view, item, home) {
        Some(home)
    } else {
        least_source(placement, sites, view, item)
    }
}
