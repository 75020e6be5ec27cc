//! What single words say.

ghost use Rattle.std.specs.Prelude.{◌≤◌};

use raid_base::{Entry, Item, Listed, NoMemory, Pairs, Request, Site, Sites, Txn, Vector};
use std::alloc::Global;

/// The digit at a place, 0 where there is none.
pub fn digit(word: &[u8], place: usize) -> u8 {
    match word.get(place) {
        Some(byte) => byte.saturating_sub(b'0'),
        None => 0,
    }
}

/// The transaction at a place.
pub fn txn_at(word: &[u8], place: usize) -> Txn {
    Txn(u32::from(digit(word, place)))
}

/// The site at a place.
pub fn site_at(word: &[u8], place: usize) -> Site
    ensures least { 1 ≤ result.0 }
    ensures most { result.0 ≤ 8 }
{
    Site(digit(word, place).clamp(1, 8))
}

/// The item at a place.
pub fn item_at(word: &[u8], place: usize) -> Item {
    match word.get(place) {
        Some(byte) => Item(u16::from(byte.saturating_sub(b'x'))),
        None => Item(0),
    }
}

/// The sites from a place on.
pub fn sites_from(word: &[u8], from: usize) -> Sites {
    let mut sites = Sites::none();
    for place in from..word.len() {
        sites = sites.with(site_at(word, place));
    }
    sites
}

/// A Commit of the items, applied at these sites.
fn commit(alloc: Global, txn: Txn, items: &[u8], applied: Sites) -> Result<Entry, NoMemory> {
    let mut writes = Pairs::new(alloc);
    for byte in items {
        writes.push((Item(u16::from(byte.saturating_sub(b'x'))), 0))?;
    }
    Ok(Entry::Commit {
        txn,
        request: Request {
            reads: Listed::new(alloc),
            writes,
            under: Vector {
                count: 0,
                sessions: [0; 8],
            },
        },
        applied,
    })
}

/// The Commit that a word says: the items stand before the sign, and the sites behind it.
fn commit_in(alloc: Global, word: &[u8]) -> Result<Entry, NoMemory> {
    let at = word
        .iter()
        .position(|byte| *byte == b'@')
        .unwrap_or(word.len());
    let items = word.get(2..at).unwrap_or(&[]);
    commit(
        alloc,
        txn_at(word, 1),
        items,
        sites_from(word, at.saturating_add(1)),
    )
}

/// The entry that a word says, if it says one.
pub fn entry_in(alloc: Global, word: &[u8]) -> Result<Option<Entry>, NoMemory> {
    let entry = match word.first() {
        Some(b'c') => commit_in(alloc, word)?,
        Some(b'k') => Entry::Ack {
            txn: txn_at(word, 1),
            site: site_at(word, 3),
        },
        Some(b'd') => Entry::Down {
            site: site_at(word, 1),
        },
        Some(b'u') => Entry::Up {
            site: site_at(word, 1),
            session: u32::from(digit(word, 3)),
        },
        Some(b'l') => Entry::Clear {
            site: site_at(word, 1),
            item: item_at(word, 2),
            version: 0,
        },
        _ => return Ok(None),
    };
    Ok(Some(entry))
}
