//! A table of sources: one for each item and target, by item, then target.

ghost use Rattle.std.specs.Prelude.{◌≡◌, ◌<◌, ◌≤◌, ◌+◌, ◌*◌, ◌-◌, ◌%◌, ◌==◌, ◌&&◌, ℕ, Some, None, is_some, vec_len, slice_index_or, OnOk, if◌then◌else◌};
ghost use Rattle.raid_base.specs.declared.names.Site.{Site};
ghost use Rattle.raid_base.specs.declared.names.Item.{Item};
ghost use Rattle.raid_base.specs.Names.{is_site, is_item, has_site, holds};
ghost use Rattle.raid_base.specs.Sites.{site};
ghost use Rattle.raid_copier.specs.Copiers as words;

use raid_base::{Item, NoMemory, Site, Sites};

/// The place of an item and a target in the table.
pub fn place_of(target: Site, item: Item) -> usize
    requires { 1 ≤ target.0 }
    ensures { result ≡ words.place_of target item }
{
    item.0 as usize * 8 + (target.0 as usize - 1)
}

/// Makes a place in the table, with no source where it is new. After want of memory too the table says what it said.
pub fn grow(table: &mut Vec<Option<Site>>, place: usize) -> Result<(), NoMemory>
    ensures ok { OnOk result (place < vec_len table.new) }
    ensures same { (k : ℕ) → slice_index_or table.new.items k None ≡ slice_index_or table.old.items k None }
{
    while table.len() <= place {
        table.push(None)?;
    }
    Ok(())
}

/// Puts a source at a place of the table.
pub fn put(table: &mut Vec<Option<Site>>, place: usize, source: Site)
    requires { place < vec_len table.old }
    ensures { (k : ℕ) → slice_index_or table.new.items k None ≡ (if k == place then Some source else slice_index_or table.old.items k None) }
{
    table[place] = Some(source);
}

/// Takes the source out at a place of the table, if it has one there.
pub fn take_out(table: &mut Vec<Option<Site>>, place: usize)
    ensures { (k : ℕ) → slice_index_or table.new.items k None ≡ (if k == place then None else slice_index_or table.old.items k None) }
{
    if place < table.len() {
        table[place] = None;
    }
}

/// Whether there is a source at a place of the table.
pub fn has(table: &[Option<Site>], place: usize) -> bool
    ensures { result ≡ is_some (slice_index_or table.now place None) }
{
    place < table.len() && table[place].is_some()
}

/// The source of a copy to the target after the loss of a site, if it is still under way.
fn left(source: Option<Site>, target: u8, lost: Site) -> Option<Site>
    ensures { result ≡ words.left lost (site target) source }
{
    match source {
        Some(other) => {
            if target == lost.0 || other == lost {
                None
            } else {
                source
            }
        }
        None => None,
    }
}

/// Takes out the sources of copies to the site, and those that are the site.
pub fn lose_in(table: &mut Vec<Option<Site>>, lost: Site)
    ensures { (k : ℕ) → slice_index_or table.new.items k None ≡ words.left lost (site (k % 8 + 1)) (slice_index_or table.old.items k None) }
{
    for k in 0..table.len() {
        table[k] = left(table[k], (k % 8) as u8 + 1, lost);
    }
}

/// Takes out the source of the item's copy to the target, where the target is one of the sites.
fn renew_at(table: &mut Vec<Option<Site>>, item: Item, applied: Sites, target: Site)
    requires least { 1 ≤ target.0 }
    requires most { target.0 ≤ 8 }
    ensures { (s : Site) (x : Item) → 1 ≤ s.0 → s.0 ≤ 8 → slice_index_or table.new.items (words.place_of s x) None ≡ (if (is_site target s && is_item x item) && has_site applied target then None else slice_index_or table.old.items (words.place_of s x) None) }
{
    if applied.contains(target) {
        take_out(table, place_of(target, item));
    }
}

/// Takes out the sources of the item's copies to these sites.
fn renew(table: &mut Vec<Option<Site>>, item: Item, applied: Sites)
    ensures { (s : Site) (x : Item) → 1 ≤ s.0 → s.0 ≤ 8 → slice_index_or table.new.items (words.place_of s x) None ≡ (if is_item x item && has_site applied s then None else slice_index_or table.old.items (words.place_of s x) None) }
{
    for number in 1..9 {
        renew_at(table, item, applied, Site(number));
    }
}

/// Takes out the sources of the written items' copies to these sites.
pub fn renew_all(table: &mut Vec<Option<Site>>, writes: &[(Item, i64)], applied: Sites)
    ensures { (s : Site) (x : Item) → 1 ≤ s.0 → s.0 ≤ 8 → slice_index_or table.new.items (words.place_of s x) None ≡ (if holds x writes.now && has_site applied s then None else slice_index_or table.old.items (words.place_of s x) None) }
{
    for (item, _) in writes {
        renew(table, *item, applied);
    }
}
