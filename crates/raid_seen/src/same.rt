//! When two entries are one.

ghost use Rattle.std.specs.Prelude.{◌≡◌, ◌↔◌, IsTrue};

use raid_base::{Act, Cause, Entry, Item, Request, Sites, Txn, Vector};

/// Whether two lists of pairs are one.
pub fn are_same_pairs(a: &[(Item, i64)], b: &[(Item, i64)]) -> bool
    ensures { IsTrue result ↔ a.now ≡ b.now }
{
    a == b
}

/// Whether two vectors are one.
fn is_same_vector(a: Vector, b: Vector) -> bool
    ensures { IsTrue result ↔ a ≡ b }
{
    a == b
}

/// Whether two sets of sites are one.
fn are_same_sites(a: Sites, b: Sites) -> bool
    ensures { IsTrue result ↔ a ≡ b }
{
    a == b
}

/// Whether two causes are one.
fn is_same_cause(a: Cause, b: Cause) -> bool
    ensures { IsTrue result ↔ a ≡ b }
{
    match a {
        Cause::Own => matches!(b, Cause::Own),
        Cause::Overflow => matches!(b, Cause::Overflow),
        Cause::Late => matches!(b, Cause::Late),
        Cause::Invalid => matches!(b, Cause::Invalid),
        Cause::Cycle => matches!(b, Cause::Cycle),
        Cause::Deadlock => matches!(b, Cause::Deadlock),
        Cause::SwitchOff(switch) => match b {
            Cause::SwitchOff(other) => switch == other,
            _ => false,
        },
        Cause::HomeDown => matches!(b, Cause::HomeDown),
        Cause::Stale(vector) => match b {
            Cause::Stale(other) => is_same_vector(vector, other),
            _ => false,
        },
        Cause::NoCopy => matches!(b, Cause::NoCopy),
    }
}

/// Whether two requests are one.
fn is_same_request(a: &Request, b: &Request) -> bool
    ensures { IsTrue result ↔ a.now ≡ b.now }
{
    if !are_same_pairs(a.reads.as_slice(), b.reads.as_slice()) {
        return false;
    }
    if !are_same_pairs(a.writes.as_slice(), b.writes.as_slice()) {
        return false;
    }
    is_same_vector(a.under, b.under)
}

/// Whether what two Commits have is one.
fn is_same_commit(
    txn: Txn,
    request: &Request,
    applied: Sites,
    t: Txn,
    r: &Request,
    sites: Sites,
) -> bool
    ensures { IsTrue result ↔ (txn ≡ t) × (request.now ≡ r.now) × (applied ≡ sites) }
{
    if !is_same_request(request, r) {
        return false;
    }
    if !are_same_sites(applied, sites) {
        return false;
    }
    txn == t
}

/// Whether what two Aborts have is one.
fn is_same_abort(txn: Txn, cause: Cause, act: &Act, t: Txn, why: Cause, other: &Act) -> bool
    ensures { IsTrue result ↔ (txn ≡ t) × (cause ≡ why) × (act.now ≡ other.now) }
{
    if !is_same_act(act, other) {
        return false;
    }
    if !is_same_cause(cause, why) {
        return false;
    }
    txn == t
}

/// Whether two acts are one.
fn is_same_act(a: &Act, b: &Act) -> bool
    ensures { IsTrue result ↔ a.now ≡ b.now }
{
    match a {
        Act::Nothing => matches!(b, Act::Nothing),
        Act::Ended(reads) => match b {
            Act::Ended(others) => are_same_pairs(reads.as_slice(), others.as_slice()),
            _ => false,
        },
        Act::Read(item) => match b {
            Act::Read(other) => item == other,
            _ => false,
        },
        Act::Commit(request) => match b {
            Act::Commit(other) => is_same_request(request, other),
            _ => false,
        },
    }
}

/// Whether two entries are one.
pub fn is_same(a: &Entry, b: &Entry) -> bool
    ensures { IsTrue result ↔ a.now ≡ b.now }
{
    match a {
        Entry::Begin { txn, home } => match b {
            Entry::Begin { txn: t, home: h } => txn == t && home == h,
            _ => false,
        },
        Entry::Read { txn, item, site } => match b {
            Entry::Read {
                txn: t,
                item: x,
                site: s,
            } => txn == t && item == x && site == s,
            _ => false,
        },
        Entry::Wait { txn, request } => match b {
            Entry::Wait { txn: t, request: r } => txn == t && is_same_request(request, r),
            _ => false,
        },
        Entry::Commit {
            txn,
            request,
            applied,
        } => match b {
            Entry::Commit {
                txn: t,
                request: r,
                applied: sites,
            } => is_same_commit(*txn, request, *applied, *t, r, *sites),
            _ => false,
        },
        Entry::Abort { txn, cause, act } => match b {
            Entry::Abort {
                txn: t,
                cause: why,
                act: other,
            } => is_same_abort(*txn, *cause, act, *t, *why, other),
            _ => false,
        },
        Entry::Ack { txn, site } => match b {
            Entry::Ack { txn: t, site: s } => txn == t && site == s,
            _ => false,
        },
        Entry::SwitchOn {
            switch,
            kind,
            method,
        } => match b {
            Entry::SwitchOn {
                switch: k,
                kind: to,
                method: by,
            } => switch == k && kind == to && method == by,
            _ => false,
        },
        Entry::SwitchEnd { switch } => match b {
            Entry::SwitchEnd { switch: k } => switch == k,
            _ => false,
        },
        Entry::Down { site } => match b {
            Entry::Down { site: s } => site == s,
            _ => false,
        },
        Entry::Up { site, session } => match b {
            Entry::Up {
                site: s,
                session: n,
            } => site == s && session == n,
            _ => false,
        },
        Entry::Clear {
            site,
            item,
            version,
        } => match b {
            Entry::Clear {
                site: s,
                item: x,
                version: v,
            } => site == s && item == x && version == v,
            _ => false,
        },
    }
}
