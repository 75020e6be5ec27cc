//! Whether the copies of a report whose history is legal are right.

ghost use Rattle.std.specs.Prelude.{◌≡◌, ◌≤◌, ◌<◌, [], ◌∷◌, ◌++◌, ◌↔◌, false, if◌then◌else◌, map, filter, length, IsTrue, IfOk, OnOk};
ghost use Rattle.std.specs.List.{list_all};
ghost use Rattle.std.specs.Option.{option_map_or};
ghost use Rattle.std.specs.Ordering.{int_eq};
ghost use Rattle.raid_base.specs.Find.{first_of};
ghost use Rattle.raid_base.specs.Names.{has_site};
ghost use Rattle.raid_workload.specs.Parts as parts;
ghost use Rattle.raid_rules.specs.History.{noted};
ghost use Rattle.raid_rules.specs.Sessions.{holders};
ghost use Rattle.raid_legal.specs.Serial as words;
ghost use Rattle.raid_check.specs.Replay.{AreOf, is_current};

use crate::tables::Tables;
use raid_base::{CopyLine, Item, NoMemory, Pairs, Report, Site, find};
use raid_workload::Workload;
use std::alloc::Global;

/// Whether the site holds the item.
fn holds(workload: &Workload, site: Site, item: Item) -> bool
    requires item { item.0 < length workload.now.items }
    requires least { 1 ≤ site.0 }
    requires most { site.0 ≤ 8 }
    ensures { result ≡ has_site (holders (parts.placement workload.now) item) site }
{
    workload.items.get(item.0 as usize).holders.contains(site)
}

/// Adds the item with the site, where the site holds it.
fn push_place(
    places: &mut Vec<(Site, Item)>,
    workload: &Workload,
    site: Site,
    item: Item,
) -> Result<(), NoMemory>
    requires item { item.0 < length workload.now.items }
    requires least { 1 ≤ site.0 }
    requires most { site.0 ≤ 8 }
    ensures { OnOk result (places.new.items ≡ places.old.items ++ (if has_site (holders (parts.placement workload.now) item) site then (site, item) ∷ [] else [])) }
{
    if holds(workload, site, item) {
        places.push((site, item))?;
    }
    Ok(())
}

/// Adds the items that the site holds, each with the site.
fn push_places(
    places: &mut Vec<(Site, Item)>,
    workload: &Workload,
    site: Site,
) -> Result<(), NoMemory>
    requires least { 1 ≤ site.0 }
    requires most { site.0 ≤ 8 }
    ensures { OnOk result (places.new.items ≡ places.old.items ++ map (λ x. (site, x)) (filter (λ x. has_site (holders (parts.placement workload.now) x) site) (parts.items workload.now))) }
{
    for place in 0..workload.items.len() {
        push_place(places, workload, site, Item(place as u16))?;
    }
    Ok(())
}

/// Where there are copies: each site with each item that it holds, by site, then item.
fn places(alloc: Global, workload: &Workload) -> Result<Vec<(Site, Item)>, NoMemory>
    ensures { IfOk result (λ ps. ps.items ≡ words.places workload.now) }
{
    let mut places = Vec::new(alloc);
    for number in 1..workload.sites + 1 {
        push_places(&mut places, workload, Site(number))?;
    }
    Ok(places)
}

/// Where these copies are.
fn told(alloc: Global, copies: &[CopyLine]) -> Result<Vec<(Site, Item)>, NoMemory>
    ensures { IfOk result (λ ps. ps.items ≡ map (λ c. (c.site, c.item)) copies.now) }
{
    let mut told = Vec::new(alloc);
    for copy in copies {
        told.push((copy.site, copy.item))?;
    }
    Ok(told)
}

/// Whether two lists of places are one.
fn are_same(a: &[(Site, Item)], b: &[(Site, Item)]) -> bool
    ensures { IsTrue result ↔ a.now ≡ b.now }
{
    a == b
}

/// Whether the item's final value is this.
fn has_value(finals: &Pairs, item: Item, value: i64) -> bool
    ensures { result ≡ option_map_or (λ v. int_eq v value) (first_of item finals.now) false }
{
    match find(finals, item) {
        Some(last) => last == value,
        None => false,
    }
}

/// Whether the copy, if it may be read, has the item's final value, and the number of the Commit that wrote it.
fn is_current(tables: &Tables, workload: &Workload, finals: &Pairs, copy: &CopyLine) -> bool
    requires { AreOf workload.now tables.now }
    ensures { result ≡ is_current workload.now (noted tables.now.history) finals.now copy.now }
{
    if !tables.is_up(copy.site) {
        return true;
    }
    if tables.is_locked(workload, copy.site, copy.item) {
        return true;
    }
    if !has_value(finals, copy.item, copy.value) {
        return false;
    }
    copy.version == tables.history.version_of(copy.item)
}

/// Whether each of the copies does.
fn are_current(tables: &Tables, workload: &Workload, finals: &Pairs, copies: &[CopyLine]) -> bool
    requires { AreOf workload.now tables.now }
    ensures { result ≡ list_all (is_current workload.now (noted tables.now.history) finals.now) copies.now }
{
    for copy in copies {
        if !is_current(tables, workload, finals, copy) {
            return false;
        }
    }
    true
}

/// Whether all copies of the report, whose entries are those of the tables, are told, and each that may be read is current.
pub fn are_right(
    alloc: Global,
    workload: &Workload,
    tables: &Tables,
    report: &Report,
) -> Result<bool, NoMemory>
    requires of { AreOf workload.now tables.now }
    requires entries { tables.now.history ≡ report.now.entries }
    ensures { IfOk result (λ b. IsTrue b ↔ words.Copies workload.now report.now) }
{
    let places = places(alloc, workload)?;
    let told = told(alloc, report.copies.as_slice())?;
    if !are_same(told.as_slice(), places.as_slice()) {
        return Ok(false);
    }
    Ok(are_current(tables, workload, &report.finals, report.copies.as_slice()))
}
