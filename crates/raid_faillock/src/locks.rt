ghost use Rattle.std.specs.Prelude.{◌≡◌, ◌<◌, ◌≤◌, ◌+◌, ◌&&◌, ◌||◌, not, ℕ, [], length, replicate, slice_index_or, slice_set, IfOk, true, false, if◌then◌else◌};
ghost use Rattle.std.specs.List.{list_any};
ghost use Rattle.raid_base.specs.declared.names.Site.{Site};
ghost use Rattle.raid_base.specs.declared.names.Item.{Item};
ghost use Rattle.raid_base.specs.Names.{is_site, is_item, has_site, holds};
ghost use Rattle.raid_faillock.specs.Sets.{has_at, has_any};

use raid_base::{Item, NoMemory, Site, Sites};
use raid_session::{difference, sets, union, without};
use std::alloc::Global;
use std::marker::Model;

/// The sites whose copies are locked, for each item; contracts see the list of these sets. `some` counts those that aren't empty.
#[derive(Drop, Debug)]
pub struct Locks {
    sets: Vec<Sites>,
    some: usize,
}

impl Model for Locks {
    ghost use Rattle.std.specs.Prelude.{List, ◌≡◌, count_by};
    ghost use Rattle.raid_base.specs.declared.names.Site.{Site};
    ghost use Rattle.raid_faillock.specs.Sets.{has_any};

    ghost Value = { List (List Site) };

    ghost view = { λ l. l.sets.items };

    ghost invariant = { λ l. l.some ≡ count_by has_any l.sets.items };
}

/// Whether the set has a site.
fn has_any(set: Sites) -> bool
    ensures { result ≡ has_any set }
{
    sets::ascends(set);
    !set.is_empty()
}

/// How many sets have a site, once one that had some, or none, has some, or none.
fn recount(some: usize, before: bool, after: bool) -> usize
    requires one { before ≡ true → 1 ≤ some }
    requires more { before ≡ false → some < 18446744073709551615 }
    ensures { result + (if before then 1 else 0) ≡ some + (if after then 1 else 0) }
{
    match (before, after) {
        (true, false) => some - 1,
        (false, true) => some + 1,
        _ => some,
    }
}

impl Locks {
    /// No copy of so many items is locked.
    pub fn new(alloc: Global, items: usize) -> Result<Locks, NoMemory>
        ensures { IfOk result (λ l. l ≡ replicate items []) }
    {
        let mut sets = Vec::with_capacity(alloc, items)?;
        while sets.len() < items {
            sets.push_reserved(Sites::none());
        }
        Ok(Locks { sets, some: 0 })
    }

    /// The sites whose copies of the item are locked, none past the items.
    pub fn get(&self, item: Item) -> Sites
        ensures { result ≡ slice_index_or self.now item.0 [] }
    {
        let place = item.0 as usize;
        if place < self.sets.len() {
            self.sets[place]
        } else {
            Sites::none()
        }
    }

    /// Whether a copy is locked.
    pub fn is_any(&self) -> bool
        ensures { result ≡ list_any has_any self.now }
    {
        self.some > 0
    }

    /// The sites at which the copy of some item is locked. Looks at each item, with no early end.
    pub fn anywhere(&self) -> Sites
        ensures { (s : Site) → 1 ≤ s.0 → s.0 ≤ 8 → has_site result s ≡ list_any (λ set. has_site set s) self.now }
    {
        let mut found = Sites::none();
        for set in self.sets.as_slice() {
            found = union(found, *set);
        }
        found
    }

    /// Locks the copies of the item at these sites, and no other.
    fn put(&mut self, place: usize, set: Sites)
        requires { place < length self.old }
        ensures { self.new ≡ slice_set self.old place set }
    {
        let before = has_any(self.sets[place]);
        let after = has_any(set);
        self.some = recount(self.some, before, after);
        self.sets[place] = set;
    }

    /// A write of the item was applied at these sites: it unlocks their copies, and locks those of the other holders.
    fn pass(&mut self, holders: &[Sites], item: Item, applied: Sites)
        requires { length holders.now ≡ length self.old }
        ensures size { length self.new ≡ length self.old }
        ensures sets { (x : Item) (s : Site) → 1 ≤ s.0 → s.0 ≤ 8 → has_at self.new x.0 s ≡ (if is_item x item then has_at holders.now x.0 s && not (has_site applied s) else has_at self.old x.0 s) }
    {
        let place = item.0 as usize;
        if place < holders.len() {
            self.put(place, difference(holders[place], applied));
        }
    }

    /// The writes were applied at these sites.
    pub fn commit(&mut self, holders: &[Sites], writes: &[(Item, i64)], applied: Sites)
        requires { length holders.now ≡ length self.old }
        ensures size { length self.new ≡ length self.old }
        ensures sets { (x : Item) (s : Site) → 1 ≤ s.0 → s.0 ≤ 8 → has_at self.new x.0 s ≡ (if holds x writes.now then has_at holders.now x.0 s && not (has_site applied s) else has_at self.old x.0 s) }
    {
        for (item, _) in writes {
            self.pass(holders, *item, applied);
        }
    }

    /// Locks the site's copy of the item, where it has one.
    fn lock(&mut self, holders: &[Sites], item: Item, site: Site)
        requires size { length holders.now ≡ length self.old }
        requires least { 1 ≤ site.0 }
        requires most { site.0 ≤ 8 }
        ensures size { length self.new ≡ length self.old }
        ensures sets { (x : Item) (s : Site) → 1 ≤ s.0 → s.0 ≤ 8 → has_at self.new x.0 s ≡ (has_at self.old x.0 s || (is_item x item && is_site s site && has_at holders.now x.0 s)) }
    {
        let place = item.0 as usize;
        if place < holders.len() && holders[place].contains(site) {
            self.put(place, self.get(item).with(site));
        }
    }

    /// Locks the site's copies of the items.
    pub fn lock_all(&mut self, holders: &[Sites], items: &[Item], site: Site)
        requires size { length holders.now ≡ length self.old }
        requires least { 1 ≤ site.0 }
        requires most { site.0 ≤ 8 }
        ensures size { length self.new ≡ length self.old }
        ensures sets { (x : Item) (s : Site) → 1 ≤ s.0 → s.0 ≤ 8 → has_at self.new x.0 s ≡ (has_at self.old x.0 s || (list_any (is_item x) items.now && is_site s site && has_at holders.now x.0 s)) }
    {
        for item in items {
            self.lock(holders, *item, site);
        }
    }

    /// Unlocks the site's copy of the item.
    pub fn clear(&mut self, item: Item, site: Site)
        requires least { 1 ≤ site.0 }
        requires most { site.0 ≤ 8 }
        ensures size { length self.new ≡ length self.old }
        ensures sets { (x : Item) (s : Site) → 1 ≤ s.0 → s.0 ≤ 8 → has_at self.new x.0 s ≡ (has_at self.old x.0 s && not (is_site s site && is_item x item)) }
    {
        let place = item.0 as usize;
        if place < self.sets.len() {
            self.put(place, without(self.get(item), site));
        }
    }
}
