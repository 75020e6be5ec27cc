ghost use Rattle.std.specs.Prelude.{◌≡◌, ◌≤◌, ◌&&◌, ◌||◌, true, ℕ, List, [], ◌∷◌, ◌++◌, length, filter, find, IfOk, OnOk, OnErr};
ghost use Rattle.std.specs.List.{list_any};
ghost use Rattle.raid_base.specs.declared.names.Site.{Site};
ghost use Rattle.raid_base.specs.declared.names.Item.{Item};
ghost use Rattle.raid_base.specs.declared.entry.Noted.{Noted};
ghost use Rattle.raid_base.specs.declared.entry.Entry.TheVariants as entries;
ghost use Rattle.raid_base.specs.Names.{is_site, has_site};
ghost use Rattle.raid_base.specs.Sites.{all_sites};
ghost use Rattle.raid_rules.specs.Sessions as rules;
ghost use Rattle.raid_faillock.specs.Sets.{has_at};
ghost use Rattle.raid_faillock.specs.Debts.{AreListed, owes_in, wrote_in, owed_for};
ghost use Rattle.raid_faillock.specs.Stands as words;
ghost use Rattle.raid_faillock.specs.Stands.{Stands, Turns, Alike};

use crate::debts::{Debts, sites_at};
use crate::locks::Locks;
use raid_base::{Entry, Item, NoMemory, Placement, Request, Site, Sites, Txn, Vector};
use raid_rules::sessions;
use raid_session::{after_down, after_up};
use std::alloc::Global;
use std::marker::Model;

/// Which copies are locked, which acknowledgements are owed, and which sites are up.
///
/// They stand for every list of noted entries for which they answer as the rules do; contracts say what is answered of each such list.
/// No look-up searches anything but the eight sites, and none takes memory.
#[derive(Drop, Debug)]
pub struct FailLocks {
    holders: Vec<Sites>,
    locks: Locks,
    debts: Debts,
    vector: Vector,
    alloc: Global,
}

impl Model for FailLocks {
    ghost use Rattle.std.specs.Prelude.{◌≡◌, ◌≤◌, length};
    ghost use Rattle.raid_faillock.specs.Debts.{AreListed};
    ghost use Rattle.raid_faillock.specs.Stands.{Parts};

    ghost Value = { Parts };

    ghost view = { λ f. record { holders = f.holders.items; locks = f.locks; debts = f.debts; vector = f.vector } };

    ghost invariant = { λ f. (length f.holders.items ≡ length f.locks) × AreListed f.debts × (length f.vector ≤ 8) };
}

/// Locks the site's copies of what the transaction wrote, where the site owes its acknowledgement.
fn lock_for(locks: &mut Locks, holders: &[Sites], debts: &Debts, txn: Txn, site: Site)
    requires size { length holders.now ≡ length locks.old }
    requires least { 1 ≤ site.0 }
    requires most { site.0 ≤ 8 }
    ensures size { length locks.new ≡ length locks.old }
    ensures locks { (s : Site) (x : Item) → 1 ≤ s.0 → s.0 ≤ 8 → has_at locks.new x.0 s ≡ (has_at locks.old x.0 s || ((owes_in debts.now site txn && wrote_in debts.now txn x) && is_site s site && has_at holders.now x.0 s)) }
{
    if debts.owes(site, txn) {
        locks.lock_all(holders, debts.items_of(txn), site);
    }
}

/// Locks the site's copies for which it owes an acknowledgement.
fn lock_unpaid(locks: &mut Locks, holders: &[Sites], debts: &Debts, site: Site)
    requires size { length holders.now ≡ length locks.old }
    requires least { 1 ≤ site.0 }
    requires most { site.0 ≤ 8 }
    ensures size { length locks.new ≡ length locks.old }
    ensures locks { (s : Site) (x : Item) → 1 ≤ s.0 → s.0 ≤ 8 → has_at locks.new x.0 s ≡ (has_at locks.old x.0 s || (owed_for debts.now site x && is_site s site && has_at holders.now x.0 s)) }
{
    for txn in debts.unpaid.as_slice() {
        lock_for(locks, holders, debts, *txn, site);
    }
}

impl FailLocks {
    /// No copy is locked, no acknowledgement is owed, and each of so many sites is up in its first session.
    pub fn new(alloc: Global, placement: &Placement, sites: u8) -> Result<FailLocks, NoMemory>
        requires least { 1 ≤ sites }
        requires most { sites ≤ 8 }
        ensures { IfOk result (λ f. Stands f sites placement.now []) }
    {
        let holders = Vec::from_slice(alloc, placement.as_slice())?;
        let locks = Locks::new(alloc, placement.len())?;
        Ok(FailLocks {
            holders,
            locks,
            debts: Debts::new(alloc),
            vector: sessions::vector(sites, &[]),
            alloc,
        })
    }

    /// A transaction commits, and its writes are applied at these sites. After want of memory the same is said as before.
    fn commit(&mut self, txn: Txn, request: &Request, applied: Sites) -> Result<(), NoMemory>
        ensures ok { OnOk result (Turns self.old self.new (entries.Commit txn request.now applied)) }
        ensures err { OnErr result (Alike self.old self.new) }
    {
        self.debts.commit(self.alloc, txn, request, applied)?;
        self.locks.commit(self.holders.as_slice(), request.writes.as_slice(), applied);
        Ok(())
    }

    /// A site acknowledges a transaction's writes.
    fn ack(&mut self, txn: Txn, site: Site)
        requires { words.is_of_sites (length self.old.vector) site ≡ true }
        ensures { Turns self.old self.new (entries.Ack txn site) }
    {
        self.debts.ack(txn, site);
    }

    /// A site goes down: its copies of what it hasn't acknowledged are locked.
    fn down(&mut self, site: Site)
        requires { words.is_of_sites (length self.old.vector) site ≡ true }
        ensures { Turns self.old self.new (entries.Down site) }
    {
        lock_unpaid(&mut self.locks, self.holders.as_slice(), &self.debts, site);
        self.debts.down(site);
        self.vector = after_down(self.vector, site);
    }

    /// A site comes up in a session.
    fn up(&mut self, site: Site, session: u32)
        requires { words.is_of_sites (length self.old.vector) site ≡ true }
        ensures { Turns self.old self.new (entries.Up site session) }
    {
        self.vector = after_up(self.vector, site, session);
    }

    /// A copy is unlocked.
    fn clear(&mut self, site: Site, item: Item, version: u32)
        requires { words.is_of_sites (length self.old.vector) site ≡ true }
        ensures { Turns self.old self.new (entries.Clear site item version) }
    {
        let _ = version;
        self.locks.clear(item, site);
    }

    /// Whether the site is one of the vector's.
    fn has_site(&self, site: Site) -> bool
        ensures { result ≡ words.is_of_sites (length self.now.vector) site }
    {
        1 <= site.0 && site.0 <= self.vector.count
    }

    /// Whether the entry may be noted: the site that goes down or comes up, acknowledges, or has its copy unlocked, is one of the
    /// sites.
    pub fn may_note(&self, entry: &Entry) -> bool
        ensures { result ≡ words.names_sites (length self.now.vector) entry.now }
    {
        match entry {
            Entry::Ack { site, .. } => self.has_site(*site),
            Entry::Down { site } => self.has_site(*site),
            Entry::Up { site, .. } => self.has_site(*site),
            Entry::Clear { site, .. } => self.has_site(*site),
            Entry::Begin { .. }
            | Entry::Read { .. }
            | Entry::Wait { .. }
            | Entry::Commit { .. }
            | Entry::Abort { .. }
            | Entry::SwitchOn { .. }
            | Entry::SwitchEnd { .. } => true,
        }
    }

    /// Does what an entry says. After want of memory the same is said as before.
    fn turn(&mut self, entry: &Entry) -> Result<(), NoMemory>
        requires { words.names_sites (length self.old.vector) entry.now ≡ true }
        ensures ok { OnOk result (Turns self.old self.new entry.now) }
        ensures err { OnErr result (Alike self.old self.new) }
    {
        // Opened for its invariant, which says that what is owed is listed: entries that change nothing leave it so.
        let _ = &self.debts;
        match entry {
            Entry::Commit {
                txn,
                request,
                applied,
            } => return self.commit(*txn, request, *applied),
            Entry::Ack { txn, site } => self.ack(*txn, *site),
            Entry::Down { site } => self.down(*site),
            Entry::Up { site, session } => self.up(*site, *session),
            Entry::Clear {
                site,
                item,
                version,
            } => self.clear(*site, *item, *version),
            Entry::Begin { .. }
            | Entry::Read { .. }
            | Entry::Wait { .. }
            | Entry::Abort { .. }
            | Entry::SwitchOn { .. }
            | Entry::SwitchEnd { .. } => {}
        }
        Ok(())
    }

    /// Notes the entry that comes next, where [`may_note`](FailLocks::may_note) allows it. After want of memory the
    /// fail-locks stand for the lists that they stood for.
    pub fn note(&mut self, entry: &Entry) -> Result<(), NoMemory>
        requires { words.names_sites (length self.old.vector) entry.now ≡ true }
        ensures ok { OnOk result ((sites : ℕ) (placement : List (List Site)) (p : List Noted) (n : Noted) → n.entry ≡ entry.now → Stands self.old sites placement p → Stands self.new sites placement (p ++ n ∷ [])) }
        ensures err { OnErr result ((sites : ℕ) (placement : List (List Site)) (p : List Noted) → Stands self.old sites placement p → Stands self.new sites placement p) }
    {
        self.turn(entry)
    }

    /// Whether the site holds a copy of the item, and it is locked.
    pub fn is_locked(&self, site: Site, item: Item) -> bool
        requires least { 1 ≤ site.0 }
        requires most { site.0 ≤ 8 }
        ensures { (sites : ℕ) (placement : List (List Site)) (p : List Noted) → Stands self.now sites placement p → result ≡ rules.is_locked placement p site item }
    {
        self.locks.get(item).contains(site)
    }

    /// Whether any copy of an item of the placement is locked.
    pub fn is_any_locked(&self) -> bool
        ensures { (sites : ℕ) (placement : List (List Site)) (p : List Noted) → Stands self.now sites placement p → result ≡ words.is_any_locked placement p }
    {
        self.locks.is_any()
    }

    /// The sites at which a copy of an item of the placement is locked.
    pub fn locked_sites(&self) -> Sites
        ensures { (sites : ℕ) (placement : List (List Site)) (p : List Noted) → Stands self.now sites placement p → (s : Site) → 1 ≤ s.0 → s.0 ≤ 8 → has_site result s ≡ words.is_any_locked_at placement p s }
    {
        self.locks.anywhere()
    }

    /// Whether the site owes the acknowledgement of the transaction's Commit.
    pub fn owes(&self, site: Site, txn: Txn) -> bool
        requires least { 1 ≤ site.0 }
        requires most { site.0 ≤ 8 }
        ensures { (sites : ℕ) (placement : List (List Site)) (p : List Noted) → Stands self.now sites placement p → result ≡ rules.owes p site txn }
    {
        self.debts.owes(site, txn)
    }

    /// The session of each site, 0 for one that is down.
    pub fn vector(&self) -> Vector
        ensures { (sites : ℕ) (placement : List (List Site)) (p : List Noted) → Stands self.now sites placement p → result ≡ rules.vector sites p }
    {
        self.vector
    }

    /// Whether the site is up and has an unlocked copy of the item.
    fn serves(&self, item: Item, site: Site) -> bool
        requires least { 1 ≤ site.0 }
        requires most { site.0 ≤ 8 }
        ensures { result ≡ words.serves self.now item site }
    {
        sites_at(self.holders.as_slice(), item.0 as usize).contains(site)
            && self.vector.session(site) > 0
            && !self.locks.get(item).contains(site)
    }

    /// The least source of the item; None exactly where it has no source.
    fn least_source(&self, item: Item) -> Option<Site>
        ensures { result ≡ find (words.serves self.now item) all_sites }
    {
        for number in 1..9 {
            if self.serves(item, Site(number)) {
                return Some(Site(number));
            }
        }
        None
    }

    /// Where a transaction of this home reads the item: at its home where that is a source, else at the least source; None exactly
    /// where there is no source.
    pub fn source_for(&self, item: Item, home: Site) -> Option<Site>
        requires least { 1 ≤ home.0 }
        requires most { home.0 ≤ 8 }
        ensures { (sites : ℕ) (placement : List (List Site)) (p : List Noted) → Stands self.now sites placement p → result ≡ rules.source_for (rules.sources sites placement p item) home }
    {
        if self.serves(item, home) {
            Some(home)
        } else {
            self.least_source(item)
        }
    }
}
