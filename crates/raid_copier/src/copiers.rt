ghost use Rattle.std.specs.Prelude.{◌≡◌, ◌≤◌, not, false, List, [], ◌∷◌, ◌++◌, filter, OnOk, OnErr};
ghost use Rattle.std.specs.List.{list_any};
ghost use Rattle.raid_base.specs.declared.names.Txn.{Txn};
ghost use Rattle.raid_base.specs.declared.request.Request.{Request};
ghost use Rattle.raid_base.specs.declared.entry.Entry.TheVariants.{Commit, Down};
ghost use Rattle.raid_steps.specs.State.{Copying};
ghost use Rattle.raid_steps.specs.Sequencer.{ends_copying};
ghost use Rattle.raid_copier.specs.Copiers.{Stands, is_to, is_held};

use crate::table::{grow, has, lose_in, place_of, put, renew_all, take_out};
use raid_base::{Item, NoMemory, Pairs, Site, Sites};
use std::alloc::Global;

/// The copies that are under way, at most one for each target and item.
///
/// They stand for a list of copies where they have the source of each, and no other; contracts say what each list becomes that they
/// stand for. The place of a target and an item is found without a search.
#[derive(Drop, Debug)]
pub struct Copiers {
    sources: Vec<Option<Site>>,
}

impl Copiers {
    /// No copy is under way.
    pub fn new(alloc: Global) -> Copiers
        ensures { Stands result [] }
    {
        Copiers {
            sources: Vec::new(alloc),
        }
    }

    /// Whether a copy of the item is under way to the target.
    pub fn is_out(&self, target: Site, item: Item) -> bool
        requires least { 1 ≤ target.0 }
        requires most { target.0 ≤ 8 }
        ensures held { result ≡ is_held self.now target item }
        ensures out { (out : List Copying) → Stands self.now out → result ≡ list_any (is_to target item) out }
    {
        has(&self.sources, place_of(target, item))
    }

    /// A copy of the item to the target is under way from here on, for which the source was asked. After want of memory the copies
    /// under way are what they were.
    pub fn ask(&mut self, target: Site, item: Item, source: Site) -> Result<(), NoMemory>
        requires least { 1 ≤ target.0 }
        requires most { target.0 ≤ 8 }
        requires idle { is_held self.old target item ≡ false }
        ensures ok { OnOk result ((out : List Copying) → Stands self.old out → Stands self.new (out ++ record { target = target; item = item; source = source } ∷ [])) }
        ensures err { OnErr result ((out : List Copying) → Stands self.old out → Stands self.new out) }
    {
        let place = place_of(target, item);
        grow(&mut self.sources, place)?;
        put(&mut self.sources, place, source);
        Ok(())
    }

    /// No copy of the item is under way to the target any longer. Changes nothing where none is.
    pub fn close(&mut self, target: Site, item: Item)
        requires least { 1 ≤ target.0 }
        requires most { target.0 ≤ 8 }
        ensures { (out : List Copying) → Stands self.old out → Stands self.new (filter (λ c. not (is_to target item c)) out) }
    {
        take_out(&mut self.sources, place_of(target, item));
    }

    /// The site is down: no copy is under way to it or from it any longer.
    pub fn lost(&mut self, site: Site)
        ensures { (out : List Copying) → Stands self.old out → Stands self.new (filter (λ c. not (ends_copying (Down site) c)) out) }
    {
        lose_in(&mut self.sources, site);
    }

    /// A Commit's writes are applied at these sites: no copy of a written item is under way to one of them any longer.
    pub fn renewed(&mut self, writes: &Pairs, applied: Sites)
        ensures { (out : List Copying) (t : Txn) (request : Request) → request.writes ≡ writes.now → Stands self.old out → Stands self.new (filter (λ c. not (ends_copying (Commit t request applied) c)) out) }
    {
        renew_all(&mut self.sources, writes.as_slice(), applied);
    }
}
