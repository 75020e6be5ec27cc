//! The lines before the body.

ghost use Rattle.std.specs.Prelude.{◌≡◌, ◌≤◌, [], OnOk};
ghost use Rattle.raid_scan.specs.Words.{words_of};
ghost use Rattle.raid_tokens.specs.Reading.{Tells};
ghost use Rattle.raid_text.specs.Head.{version_of, version_line, after_sites, sites_line, restarts_line, sites_at, holders_at, item_line, open_line};
ghost use Rattle.raid_text.specs.Names.{names_of};
ghost use Rattle.raid_text.specs.Outcome.{Gives};

use crate::choices::{take_kind, take_structure};
use crate::error::LineError;
use crate::names::Names;
use crate::state::{Place, State};
use raid_base::{Site, Sites};
use raid_scan::next_word;
use raid_tokens::{
    Fault, is_word, number_of, take_end, take_keyword, take_name, take_number, take_value,
};
use raid_workload::{ItemLine, Name};
use std::alloc::Global;

/// The version, given the line's first word and what stands behind it.
#[tactic(auto, unfolding(crate::specs::Head::version_of))]
fn version_of(word: &[u8], line: &[u8]) -> Option<u8>
    ensures { result ≡ version_of word.now (words_of line.now) }
{
    let (version, rest) = next_word(line)?;
    if !(is_word(word, b"workload") && next_word(rest).is_none()) {
        None
    } else if is_word(version, b"1") {
        Some(1)
    } else if is_word(version, b"2") {
        Some(2)
    } else {
        None
    }
}

/// The line `workload 1` or `workload 2`.
#[tactic(auto, unfolding(crate::specs::Head::version_line))]
pub fn version_line(state: &mut State, word: &[u8], line: &[u8]) -> Result<(), Fault>
    ensures line { Tells (λ _. state.new) result (version_line state.old word.now (words_of line.now)) }
    ensures items { OnOk result (state.new.items ≡ state.old.items) }
{
    let version = version_of(word, line).ok_or(Fault::First)?;
    state.place = Place::Sites;
    state.version = version;
    Ok(())
}

/// Where the line of the sites leads.
fn after_sites(version: u8) -> Place
    ensures { result ≡ after_sites version }
{
    if version == 2 {
        Place::Restarts
    } else {
        Place::Items
    }
}

/// The line `sites N together M`.
#[tactic(auto, unfolding(crate::specs::Head::sites_line))]
pub fn sites_line(state: &mut State, line: &[u8]) -> Result<(), Fault>
    ensures line { Tells (λ _. state.new) result (sites_line state.old (words_of line.now)) }
    ensures items { OnOk result (state.new.items ≡ state.old.items) }
{
    let (sites, rest) = take_number(line, 1, 8, Fault::Range)?;
    let rest = take_keyword(rest, b"together")?;
    let (together, rest) = take_number(rest, 1, 16, Fault::Range)?;
    take_end(rest)?;
    state.place = after_sites(state.version);
    state.sites = sites as u8;
    state.together = together as u8;
    Ok(())
}

/// The line `restarts N`.
#[tactic(auto, unfolding(crate::specs::Head::restarts_line))]
pub fn restarts_line(state: &mut State, line: &[u8]) -> Result<(), Fault>
    ensures line { Tells (λ _. state.new) result (restarts_line state.old (words_of line.now)) }
    ensures items { OnOk result (state.new.items ≡ state.old.items) }
{
    let (restarts, rest) = take_number(line, 0, 3, Fault::Range)?;
    take_end(rest)?;
    state.place = Place::Items;
    state.restarts = restarts as u8;
    Ok(())
}

/// The words of the line, each a site and none twice.
#[tactic(auto, unfolding(crate::specs::Head::sites_at))]
fn take_sites(sites: u8, line: &[u8]) -> Result<Sites, Fault>
    requires { sites ≤ 8 }
    ensures { Tells (λ x. x) result (sites_at sites [] (words_of line.now)) }
{
    let mut found = Sites::none();
    let mut rest = line;
    while let Some((word, after)) = next_word(rest) {
        let site = Site(number_of(word, 1, u32::from(sites), Fault::Site)? as u8);
        if found.contains(site) {
            return Err(Fault::Twice);
        }
        found = found.with(site);
        rest = after;
    }
    Ok(found)
}

/// The holders of an item, of which there is at least one.
#[tactic(auto, unfolding(crate::specs::Head::holders_at))]
fn take_holders(sites: u8, line: &[u8]) -> Result<Sites, Fault>
    requires { sites ≤ 8 }
    ensures { Tells (λ x. x) result (holders_at sites (words_of line.now)) }
{
    if next_word(line).is_none() {
        return Err(Fault::NoCopy);
    }
    take_sites(sites, line)
}

/// A line `item NAME VALUE at S S ..`.
#[tactic(auto, unfolding(crate::specs::Head::item_line))]
pub fn item_line<'a>(
    alloc: Global,
    state: &mut State,
    names: &mut Names<'a>,
    line: &'a [u8],
) -> Result<(), LineError>
    requires sites { state.old.sites ≤ 8 }
    requires names { names.old ≡ names_of state.old.items }
    ensures line { Gives (λ _. state.new) result (item_line state.old (words_of line.now)) }
    ensures names { OnOk result (names.new ≡ names_of state.new.items) }
{
    if state.items.len() >= 1024 {
        return Err(LineError::Fault(Fault::Many));
    }
    let (name, rest) = take_name(line)?;
    if names.place_of(name).is_some() {
        return Err(LineError::Fault(Fault::Twice));
    }
    let (value, rest) = take_value(rest)?;
    let rest = take_keyword(rest, b"at")?;
    let holders = take_holders(state.sites, rest)?;
    names.push(name)?;
    let name = Name::new(alloc, name)?;
    state.items.push(ItemLine {
        name,
        value,
        holders,
    })?;
    Ok(())
}

/// The line `open KIND STRUCTURE`.
#[tactic(auto, unfolding(crate::specs::Head::open_line))]
pub fn open_line(state: &mut State, line: &[u8]) -> Result<(), Fault>
    ensures line { Tells (λ _. state.new) result (open_line state.old (words_of line.now)) }
    ensures items { OnOk result (state.new.items ≡ state.old.items) }
{
    let (kind, rest) = take_kind(line)?;
    let (structure, rest) = take_structure(rest)?;
    take_end(rest)?;
    state.place = Place::Body;
    state.kind = kind;
    state.latest_kind = kind;
    state.structure = structure;
    Ok(())
}
