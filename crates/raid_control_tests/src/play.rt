//! Plays, word by word.

use raid_base::{
    Act, Ask, Bytes, Cause, Entry, Item, Kind, NoMemory, Pairs, Refusal, Request, Site, Sites, Txn,
    Vector, Verdict,
};
use raid_control::{Carry, Controller};
use std::alloc::Global;

fn digit(word: &[u8], place: usize) -> u8 {
    match word.get(place) {
        Some(byte) => byte.saturating_sub(b'0'),
        None => 0,
    }
}

fn txn_at(word: &[u8], place: usize) -> Txn {
    Txn(u32::from(digit(word, place)))
}

fn item_of(byte: u8) -> Item {
    Item(u16::from(byte.saturating_sub(b'x')))
}

fn item_at(word: &[u8], place: usize) -> Item {
    match word.get(place) {
        Some(byte) => item_of(*byte),
        None => Item(0),
    }
}

fn writes_from(alloc: Global, word: &[u8], place: usize) -> Result<Pairs, NoMemory> {
    let mut writes = Pairs::new(alloc);
    for byte in word.get(place..).unwrap_or(&[]) {
        writes.push((item_of(*byte), 5))?;
    }
    Ok(writes)
}

/// A request without reads.
pub fn request(alloc: Global, writes: Pairs) -> Request {
    Request {
        reads: Pairs::new(alloc),
        writes,
        under: Vector {
            count: 1,
            sessions: [1, 0, 0, 0, 0, 0, 0, 0],
        },
    }
}

/// The entry of a word.
fn entry(alloc: Global, word: &[u8]) -> Result<Entry, NoMemory> {
    let txn = txn_at(word, 1);
    match word.first() {
        Some(b'b') => Ok(Entry::Begin { txn, home: Site(1) }),
        Some(b'r') => Ok(Entry::Read {
            txn,
            item: item_at(word, 2),
            site: Site(1),
        }),
        Some(b'c') => {
            let writes = writes_from(alloc, word, 2)?;
            Ok(Entry::Commit {
                txn,
                request: request(alloc, writes),
                applied: Sites(1),
            })
        }
        _ => Ok(Entry::Abort {
            txn,
            cause: Cause::Own,
            act: Act::Nothing,
        }),
    }
}

/// The letter of a verdict.
fn letter(verdict: Verdict) -> u8 {
    match verdict {
        Verdict::Grant => b'g',
        Verdict::Wait => b'w',
        Verdict::Reject(Refusal::Late) => b'l',
        Verdict::Reject(Refusal::Invalid) => b'i',
        Verdict::Reject(Refusal::Cycle) => b'c',
    }
}

fn kind_at(word: &[u8], place: usize) -> Kind {
    match word.get(place) {
        Some(b's') => Kind::Stamp,
        Some(b'v') => Kind::Valid,
        Some(b'g') => Kind::Graph,
        _ => Kind::Lock,
    }
}

fn yes(answer: bool) -> u8 {
    if answer { b'y' } else { b'n' }
}

/// The answer to a word that asks.
fn answer<C: Controller>(
    alloc: Global,
    control: &mut C,
    stamps: &[u32],
    word: &[u8],
) -> Result<u8, NoMemory> {
    if word.first() == Some(&b'<') {
        return Ok(yes(control.backward(txn_at(word, 1))));
    }
    if word.first() == Some(&b'=') {
        return Ok(yes(control.set_kind(kind_at(word, 1))));
    }
    if word.first() == Some(&b'/') {
        let writes = writes_from(alloc, word, 3)?;
        return Ok(yes(control.blocks(txn_at(word, 1), txn_at(word, 2), &writes)));
    }
    let txn = txn_at(word, 2);
    let stamp = stamps.get(txn.0 as usize).copied().unwrap_or(0);
    let (reads, writes) = (Pairs::new(alloc), writes_from(alloc, word, 3)?);
    let ask = if word.get(1) == Some(&b'r') {
        let item = item_at(word, 3);
        Ask::Read { txn, stamp, item }
    } else {
        Ask::Commit {
            txn,
            stamp,
            reads: &reads,
            writes: &writes,
        }
    };
    Ok(letter(control.judge(&ask)))
}

/// Whether the word asks.
fn asks(word: &[u8]) -> bool {
    matches!(word.first(), Some(b'?' | b'<' | b'/' | b'='))
}

/// Notes the entry of a word under its number, with the stamp of its transaction.
fn enter<C: Controller>(
    alloc: Global,
    control: &mut C,
    stamps: &mut [u32],
    at: u32,
    word: &[u8],
) -> Result<(), NoMemory> {
    let place = digit(word, 1) as usize;
    if word.first() == Some(&b'b') && place < stamps.len() {
        stamps[place] = at;
    }
    let stamp = stamps.get(place).copied().unwrap_or(0);
    let entry = entry(alloc, word)?;
    control.note(at, stamp, &entry)
}

/// What is said to a play whose first entry has the next number after this one.
pub fn play<C: Controller>(
    alloc: Global,
    control: &mut C,
    after: u32,
    text: &str,
) -> Result<Bytes, NoMemory> {
    let mut stamps = [0; 10];
    let mut said = Bytes::new(alloc);
    let mut at = after;
    for text in text.split_whitespace() {
        let word = text.as_bytes();
        if asks(word) {
            let byte = answer(alloc, control, stamps.as_slice(), word)?;
            said.push(byte)?;
        } else {
            at = at.saturating_add(1);
            enter(alloc, control, stamps.as_mut_slice(), at, word)?;
        }
    }
    Ok(said)
}

/// The numbers of the carried entries.
pub fn numbers(alloc: Global, carry: &Carry) -> Result<Vec<u32>, NoMemory> {
    let mut numbers = Vec::new(alloc);
    for noted in carry.as_slice() {
        numbers.push(noted.at)?;
    }
    Ok(numbers)
}
