//! The words of a line.

ghost use Rattle.std.specs.Prelude.{◌≤◌, IfOk};

use anyhow::{Result, bail};
use raid_base::{Item, Kind, Listed, Refusal, Site, Txn, Verdict};
use std::alloc::Global;

/// What a line says.
#[derive(Clone, Copy, Debug, PartialEq, Eq)]
pub enum Head {
    View,
    Holders,
    Entry,
    AskRead,
    AskCommit,
    Blocks,
    Backward,
    Vector,
    Owes,
    Locked,
    Source,
    Order,
    Cyclic,
    Leads,
    Noted,
    Carried,
    Suffix,
    Due,
    End,
}

/// What an entry is.
#[derive(Clone, Copy, Debug, PartialEq, Eq)]
pub enum Sort {
    Begin,
    Read,
    Commit,
    Abort,
    Ack,
    Down,
    Up,
    Clear,
    Other,
}

/// A word.
#[derive(Clone, Copy, Debug, PartialEq, Eq)]
pub enum Word {
    Head(Head),
    Sort(Sort),
    Kind(Kind),
    Verdict(Verdict),
    Answer(bool),
    Number(u32),
}

/// A word that names something, or a number.
fn word_of(text: &str) -> Result<Word> {
    let word = match text {
        "view" => Word::Head(Head::View),
        "holders" => Word::Head(Head::Holders),
        "entry" => Word::Head(Head::Entry),
        "ask-read" => Word::Head(Head::AskRead),
        "ask-commit" => Word::Head(Head::AskCommit),
        "blocks" => Word::Head(Head::Blocks),
        "backward" => Word::Head(Head::Backward),
        "vector" => Word::Head(Head::Vector),
        "owes" => Word::Head(Head::Owes),
        "locked" => Word::Head(Head::Locked),
        "source" => Word::Head(Head::Source),
        "order" => Word::Head(Head::Order),
        "cyclic" => Word::Head(Head::Cyclic),
        "leads" => Word::Head(Head::Leads),
        "noted" => Word::Head(Head::Noted),
        "carried" => Word::Head(Head::Carried),
        "suffix" => Word::Head(Head::Suffix),
        "due" => Word::Head(Head::Due),
        "end" => Word::Head(Head::End),
        "begin" => Word::Sort(Sort::Begin),
        "read" => Word::Sort(Sort::Read),
        "commit" => Word::Sort(Sort::Commit),
        "abort" => Word::Sort(Sort::Abort),
        "ack" => Word::Sort(Sort::Ack),
        "down" => Word::Sort(Sort::Down),
        "up" => Word::Sort(Sort::Up),
        "clear" => Word::Sort(Sort::Clear),
        "other" => Word::Sort(Sort::Other),
        "lock" => Word::Kind(Kind::Lock),
        "stamp" => Word::Kind(Kind::Stamp),
        "valid" => Word::Kind(Kind::Valid),
        "graph" => Word::Kind(Kind::Graph),
        "grant" => Word::Verdict(Verdict::Grant),
        "wait" => Word::Verdict(Verdict::Wait),
        "late" => Word::Verdict(Verdict::Reject(Refusal::Late)),
        "invalid" => Word::Verdict(Verdict::Reject(Refusal::Invalid)),
        "cycle" => Word::Verdict(Verdict::Reject(Refusal::Cycle)),
        "yes" => Word::Answer(true),
        "no" => Word::Answer(false),
        _ => Word::Number(text.parse::<u32>()?),
    };
    Ok(word)
}

/// The words of a line.
pub fn words_of(alloc: Global, line: &str) -> Result<Listed<Word>> {
    let mut words = Listed::new(alloc);
    for text in line.split_whitespace() {
        words.push(word_of(text)?)?;
    }
    Ok(words)
}

/// What the line says.
pub fn line_head(words: &[Word]) -> Result<Head> {
    match words.first() {
        Some(Word::Head(head)) => Ok(*head),
        _ => bail!("no line of a view"),
    }
}

/// What the entry at a place is.
pub fn entry_sort(words: &[Word], place: usize) -> Result<Sort> {
    match words.get(place) {
        Some(Word::Sort(sort)) => Ok(*sort),
        _ => bail!("no kind of entry"),
    }
}

/// The kind of controller at a place.
pub fn kind(words: &[Word], place: usize) -> Result<Kind> {
    match words.get(place) {
        Some(Word::Kind(kind)) => Ok(*kind),
        _ => bail!("no kind of controller"),
    }
}

/// The verdict at a place.
pub fn verdict(words: &[Word], place: usize) -> Result<Verdict> {
    match words.get(place) {
        Some(Word::Verdict(verdict)) => Ok(*verdict),
        _ => bail!("no verdict"),
    }
}

/// The yes or no at a place.
pub fn answer(words: &[Word], place: usize) -> Result<bool> {
    match words.get(place) {
        Some(Word::Answer(answer)) => Ok(*answer),
        _ => bail!("neither yes nor no"),
    }
}

/// The number at a place.
pub fn number(words: &[Word], place: usize) -> Result<u32> {
    match words.get(place) {
        Some(Word::Number(number)) => Ok(*number),
        _ => bail!("no number"),
    }
}

/// The transaction at a place.
pub fn txn(words: &[Word], place: usize) -> Result<Txn> {
    Ok(Txn(number(words, place)?))
}

/// The item at a place.
pub fn item(words: &[Word], place: usize) -> Result<Item> {
    Ok(Item(u16::try_from(number(words, place)?)?))
}

/// The site at a place.
pub fn site(words: &[Word], place: usize) -> Result<Site>
    ensures { IfOk result (λ s. (1 ≤ s.0) × (s.0 ≤ 8)) }
{
    let number = u8::try_from(number(words, place)?)?;
    if number < 1 || number > 8 {
        bail!("no site");
    }
    Ok(Site(number))
}
