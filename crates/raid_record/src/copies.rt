//! Which copies are to be renewed, and the letters that ask for them.

ghost use Rattle.std.specs.Prelude.{◌≡◌, ◌≤◌, false, List, [], ◌∷◌, ◌++◌, filter, flat_map, option_map, option_to_list, IfSome, OnOk, if◌then◌else◌};
ghost use Rattle.std.specs.List.{list_any};
ghost use Rattle.raid_base.specs.declared.names.Item.{Item};
ghost use Rattle.raid_base.specs.declared.entry.Noted.{Noted};
ghost use Rattle.raid_base.specs.Names.{has_site};
ghost use Rattle.raid_workload.specs.declared.workload.Workload.{Workload};
ghost use Rattle.raid_workload.specs.Parts as parts;
ghost use Rattle.raid_rules.specs.Sessions.{is_site_up};
ghost use Rattle.raid_legal.specs.Seen as seen;
ghost use Rattle.raid_steps.specs.State.{Copying};
ghost use Rattle.raid_steps.specs.Sequencer.{copies_due};
ghost use Rattle.raid_faillock.specs.Stands as faillocks;
ghost use Rattle.raid_copier.specs.Copiers as ways;
ghost use Rattle.raid_record.specs.Turns.{copy_due, Asked};

use crate::sends::{session_of, to_site};
use raid_base::{Item, NoMemory, Site, Sites, Vector};
use raid_copier::Copiers;
use raid_faillock::FailLocks;
use raid_message::{Message, Outs};
use raid_workload::Workload;

/// From where the site's copy of the item is to be renewed, where it is to be: it is locked, has a source, and isn't under way.
fn source_of(locks: &FailLocks, copiers: &Copiers, site: Site, item: Item) -> Option<Site>
    requires least { 1 ≤ site.0 }
    requires most { site.0 ≤ 8 }
    ensures idle { IfSome result (λ source. ways.is_held copiers.now site item ≡ false) }
    ensures due { (w : Workload) (p : List Noted) (before out : List Copying) → faillocks.Stands locks.now w.sites (parts.placement w) p → ways.Stands copiers.now out → list_any (ways.is_to site item) out ≡ list_any (ways.is_to site item) before → copy_due w p before site item ≡ option_map (λ source. record { target = site; item = item; source = source }) result }
{
    if !locks.is_locked(site, item) || copiers.is_out(site, item) {
        return None;
    }
    // The site is no source of what is locked there, so this is the least source.
    locks.source_for(item, site)
}

/// Asks the source for the site's copy of the item.
fn ask(
    copiers: &mut Copiers,
    vector: Vector,
    site: Site,
    item: Item,
    source: Site,
    outs: &mut Outs,
) -> Result<(), NoMemory>
    requires least { 1 ≤ site.0 }
    requires most { site.0 ≤ 8 }
    requires idle { ways.is_held copiers.old site item ≡ false }
    ensures { OnOk result ((out : List Copying) → ways.Stands copiers.old out → Asked vector copiers.new outs.old outs.new out (record { target = site; item = item; source = source } ∷ [])) }
{
    copiers.ask(site, item, source)?;
    let message = Message::CopyDo {
        item,
        target: site,
        target_session: session_of(vector, site),
    };
    outs.push(to_site(vector, source, message))
}

/// Asks for the site's copy of the item where it is to be renewed, given that those under way now are for this copy what those before
/// were.
fn renew(
    locks: &FailLocks,
    copiers: &mut Copiers,
    vector: Vector,
    site: Site,
    item: Item,
    outs: &mut Outs,
) -> Result<(), NoMemory>
    requires least { 1 ≤ site.0 }
    requires most { site.0 ≤ 8 }
    ensures { OnOk result ((w : Workload) (p : List Noted) (before out : List Copying) → faillocks.Stands locks.now w.sites (parts.placement w) p → ways.Stands copiers.old out → list_any (ways.is_to site item) out ≡ list_any (ways.is_to site item) before → Asked vector copiers.new outs.old outs.new out (option_to_list (copy_due w p before site item))) }
{
    match source_of(locks, copiers, site, item) {
        Some(source) => ask(copiers, vector, site, item, source, outs),
        None => Ok(()),
    }
}

/// Asks for each copy of the site that is to be renewed, by item.
fn renew_site(
    workload: &Workload,
    locks: &FailLocks,
    copiers: &mut Copiers,
    vector: Vector,
    site: Site,
    outs: &mut Outs,
) -> Result<(), NoMemory>
    requires least { 1 ≤ site.0 }
    requires most { site.0 ≤ 8 }
    ensures { OnOk result ((p : List Noted) (before out : List Copying) → faillocks.Stands locks.now workload.now.sites (parts.placement workload.now) p → ways.Stands copiers.old out → ((x : Item) → list_any (ways.is_to site x) out ≡ list_any (ways.is_to site x) before) → Asked vector copiers.new outs.old outs.new out (copies_due workload.now p before site)) }
{
    for place in 0..workload.items.len() {
        renew(locks, copiers, vector, site, Item(place as u16), outs)?;
    }
    Ok(())
}

/// The same where the site is up, given the sites at which a copy is locked: at another it goes through no item.
fn renew_up(
    workload: &Workload,
    locks: &FailLocks,
    locked: Sites,
    copiers: &mut Copiers,
    vector: Vector,
    site: Site,
    outs: &mut Outs,
) -> Result<(), NoMemory>
    requires least { 1 ≤ site.0 }
    requires most { site.0 ≤ 8 }
    ensures { OnOk result ((p : List Noted) (before out : List Copying) → faillocks.Stands locks.now workload.now.sites (parts.placement workload.now) p → has_site locked site ≡ faillocks.is_any_locked_at (parts.placement workload.now) p site → ways.Stands copiers.old out → ((x : Item) → list_any (ways.is_to site x) out ≡ list_any (ways.is_to site x) before) → Asked vector copiers.new outs.old outs.new out (if is_site_up vector site then copies_due workload.now p before site else [])) }
{
    if !locked.contains(site) {
        return Ok(());
    }
    if session_of(vector, site) > 0 {
        return renew_site(workload, locks, copiers, vector, site, outs);
    }
    Ok(())
}

/// Asks for each copy that is to be renewed at an up site, by site, then item.
pub fn renew_all(
    workload: &Workload,
    locks: &FailLocks,
    copiers: &mut Copiers,
    vector: Vector,
    outs: &mut Outs,
) -> Result<(), NoMemory>
    ensures { OnOk result ((p : List Noted) (out : List Copying) → faillocks.Stands locks.now workload.now.sites (parts.placement workload.now) p → ways.Stands copiers.old out → vector ≡ seen.vector workload.now p → Asked vector copiers.new outs.old outs.new out (flat_map (copies_due workload.now p out) (filter (seen.is_up workload.now p) (parts.sites workload.now)))) }
{
    let locked = locks.locked_sites();
    for k in 0..workload.sites {
        renew_up(workload, locks, locked, copiers, vector, Site(k + 1), outs)?;
    }
    Ok(())
}
