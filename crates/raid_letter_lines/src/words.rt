//! The words of a line.

use anyhow::{Result, bail};
use raid_base::{Cause, Item, Pairs, Site, Txn, Vector};
use raid_session::after_up;
use std::alloc::Global;

/// The words of a line that are left.
#[derive(Drop)]
pub struct Words<'a> {
    rest: &'a str,
}

impl<'a> Words<'a> {
    /// The words of a line, with single spaces between them.
    pub fn new(line: &'a str) -> Words<'a> {
        Words { rest: line }
    }

    /// The next word; the empty one where there is none.
    pub fn word(&mut self) -> &'a str {
        match self.rest.split_once(' ') {
            Some((word, rest)) => {
                self.rest = rest;
                word
            }
            None => {
                let word = self.rest;
                self.rest = "";
                word
            }
        }
    }

    /// Whether there is no word left.
    pub fn is_empty(&self) -> bool {
        self.rest.is_empty()
    }

    /// The next word, a number.
    pub fn number(&mut self) -> Result<u32> {
        Ok(self.word().parse::<u32>()?)
    }

    /// The next word, a server's number.
    pub fn server(&mut self) -> Result<u16> {
        Ok(self.word().parse::<u16>()?)
    }

    /// The next word, a transaction.
    pub fn txn(&mut self) -> Result<Txn> {
        Ok(Txn(self.number()?))
    }

    /// The next word, an item.
    pub fn item(&mut self) -> Result<Item> {
        Ok(Item(self.word().parse::<u16>()?))
    }

    /// The next word, a site, whether there is such a one or not.
    pub fn site(&mut self) -> Result<Site> {
        Ok(Site(self.word().parse::<u8>()?))
    }

    /// The next word, a value.
    pub fn value(&mut self) -> Result<i64> {
        Ok(self.word().parse::<i64>()?)
    }

    /// The next word, yes or no.
    pub fn answer(&mut self) -> Result<bool> {
        match self.word() {
            "yes" => Ok(true),
            "no" => Ok(false),
            _ => bail!("neither yes nor no"),
        }
    }

    /// The next word, how a program ended by itself.
    pub fn cause(&mut self) -> Result<Cause> {
        match self.word() {
            "own" => Ok(Cause::Own),
            "overflow" => Ok(Cause::Overflow),
            _ => bail!("no end of a program"),
        }
    }

    /// The next word, pairs of items and values.
    pub fn pairs(&mut self, alloc: Global) -> Result<Pairs> {
        let word = self.word();
        let mut pairs = Pairs::new(alloc);
        if word == "-" {
            return Ok(pairs);
        }
        for pair in word.split(',') {
            let Some((item, value)) = pair.split_once('=') else {
                bail!("no pair");
            };
            pairs.push((Item(item.parse::<u16>()?), value.parse::<i64>()?))?;
        }
        Ok(pairs)
    }

    /// The next word, a vector of at most eight sessions.
    pub fn vector(&mut self) -> Result<Vector> {
        let word = self.word();
        if word == "-" {
            return Ok(all_down(0));
        }
        let mut vector = all_down(u8::try_from(word.split(',').count())?);
        let mut site = Site(0);
        for session in word.split(',') {
            site = Site(site.0.saturating_add(1));
            vector = with_session(vector, site, session.parse::<u32>()?);
        }
        Ok(vector)
    }
}

/// The vector of so many sites, at most eight, all of them down.
fn all_down(sites: u8) -> Vector {
    Vector {
        count: sites.min(8),
        sessions: [0; 8],
    }
}

/// The vector with the site up in the session, where it has the site.
fn with_session(vector: Vector, site: Site, session: u32) -> Vector {
    if 1 <= site.0 && site.0 <= vector.count {
        after_up(vector, site, session)
    } else {
        vector
    }
}
