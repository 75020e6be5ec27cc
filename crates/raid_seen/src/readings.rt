//! What each transaction has read.

ghost use Rattle.std.specs.Prelude.{◌≡◌, ◌<◌, [], Some, vec_len, OnOk, if◌then◌else◌};
ghost use Rattle.raid_base.specs.declared.names.Txn.{Txn};
ghost use Rattle.raid_base.specs.Names.{is_txn};
ghost use Rattle.raid_program.specs.Run.{put};
ghost use Rattle.raid_seen.specs.Tables.{answers_of, latest_of, turn_answers, turn_latest};

use crate::answers::Answers;
use crate::values::Values;
use raid_base::{Entry, Item, NoMemory, Site, Txn};
use std::alloc::Global;
use std::marker::Model;

/// A Read, as it stands in the history.
#[derive(Clone, Copy, Debug)]
pub struct LastRead {
    pub item: Item,
    /// The site that was to serve it.
    pub site: Site,
    /// The number of its entry.
    pub number: u32,
}

/// What a transaction has read: for each item the value that it had at the transaction's last Read of it; and its last Read.
#[derive(Drop, Debug)]
pub struct Reading {
    pub answers: Answers,
    pub latest: Option<LastRead>,
}

/// What each transaction has read, by its number; nothing past the end. Contracts see the list of the rows.
#[derive(Drop, Debug)]
pub struct Readings {
    rows: Vec<Reading>,
    alloc: Global,
}

impl Model for Readings {
    ghost use Rattle.std.specs.Prelude.{List};
    ghost use Rattle.raid_seen.specs.declared.readings.Reading.{Reading};

    ghost Value = { List Reading };

    ghost view = { λ r. r.rows.items };
}

/// Makes a place, where nothing was read if it is new.
fn grow(rows: &mut Vec<Reading>, alloc: Global, place: usize) -> Result<(), NoMemory>
    ensures ok { OnOk result (place < vec_len rows.new) }
    ensures answers { (t : Txn) → answers_of rows.new.items t ≡ answers_of rows.old.items t }
    ensures latest { (t : Txn) → latest_of rows.new.items t ≡ latest_of rows.old.items t }
{
    while rows.len() <= place {
        rows.push(Reading {
            answers: Answers::new(alloc),
            latest: None,
        })?;
    }
    Ok(())
}

/// Notes a Read and its value.
fn note(row: &mut Reading, read: LastRead, value: i64) -> Result<(), NoMemory>
    ensures answers { OnOk result (row.new.answers ≡ put row.old.answers read.item value) }
    ensures latest { row.new.latest ≡ Some read }
{
    row.latest = Some(read);
    row.answers.put(read.item, value)
}

impl Readings {
    /// Nobody has read.
    pub fn new(alloc: Global) -> Readings
        ensures { result ≡ [] }
    {
        Readings {
            rows: Vec::new(alloc),
            alloc,
        }
    }

    /// The values that the transaction has read.
    pub fn answers(&self, txn: Txn) -> &[(Item, i64)]
        ensures { result.now ≡ answers_of self.now txn }
    {
        let place = txn.0 as usize;
        if place < self.rows.len() {
            self.rows[place].answers.as_slice()
        } else {
            &[]
        }
    }

    /// The transaction's last Read.
    pub fn latest(&self, txn: Txn) -> Option<LastRead>
        ensures { result ≡ latest_of self.now txn }
    {
        let place = txn.0 as usize;
        if place < self.rows.len() {
            self.rows[place].latest
        } else {
            None
        }
    }

    /// The transaction reads the value.
    fn note(&mut self, txn: Txn, read: LastRead, value: i64) -> Result<(), NoMemory>
        ensures answers { OnOk result ((t : Txn) → answers_of self.new t ≡ (if is_txn t txn then put (answers_of self.old t) read.item value else answers_of self.old t)) }
        ensures latest { OnOk result ((t : Txn) → latest_of self.new t ≡ (if is_txn t txn then Some read else latest_of self.old t)) }
    {
        let place = txn.0 as usize;
        grow(&mut self.rows, self.alloc, place)?;
        note(&mut self.rows[place], read, value)
    }

    /// The entry, which has this number, reads a value, where it is a Read. After want of memory the readings are worth nothing.
    pub fn turn(&mut self, values: &Values, number: u32, entry: &Entry) -> Result<(), NoMemory>
        ensures answers { OnOk result ((t : Txn) → answers_of self.new t ≡ turn_answers values.now t (answers_of self.old t) entry.now) }
        ensures latest { OnOk result ((t : Txn) → latest_of self.new t ≡ turn_latest number t (latest_of self.old t) entry.now) }
    {
        match entry {
            Entry::Read { txn, item, site } => {
                let read = LastRead {
                    item: *item,
                    site: *site,
                    number,
                };
                self.note(*txn, read, values.get(*item))
            }
            _ => Ok(()),
        }
    }
}
