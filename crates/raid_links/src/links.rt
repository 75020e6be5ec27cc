ghost use Rattle.std.specs.Prelude.{◌≡◌, ◌==◌, ◌<◌, true, false, not, List, [], ◌∷◌, ◌++◌, is_none, length, replicate, drop, slice_get, slice_index_or, IfOk, IfSome, OnOk, OnErr};
ghost use Rattle.std.specs.List.{list_all};
ghost use Rattle.raid_links.specs.First.{IsFirst};
ghost use Rattle.raid_steps.specs.World.{link, set_link};

use crate::row::Row;
use raid_base::NoMemory;
use raid_message::{Letter, Pick};
use std::alloc::Global;
use std::marker::Model;

/// The letters on their way between servers, which are numbered from 0. Contracts see them by addressee, then sender, front first.
#[derive(Drop, Debug)]
pub struct Links {
    rows: Vec<Row>,
}

impl Model for Links {
    ghost use Rattle.std.specs.Prelude.{List};
    ghost use Rattle.raid_message.specs.declared.letter.Letter.{Letter};

    ghost Value = { List (List (List Letter)) };

    ghost view = { λ l. l.rows.items };
}

/// Empty links to so many servers from each of them.
fn rows(alloc: Global, servers: usize) -> Result<Vec<Row>, NoMemory>
    ensures { IfOk result (λ rs. rs.items ≡ replicate servers (replicate servers [])) }
{
    let mut rows = Vec::new(alloc);
    for _ in 0..servers {
        rows.push(Row::new(alloc, servers)?)?;
    }
    Ok(rows)
}

/// The place of the first row with a letter, and that of its first link with one.
fn first_full(rows: &[Row]) -> Option<(usize, usize)>
    ensures first { IfSome result (λ k. IsFirst rows.now k) }
    ensures some { IfSome result (λ k. (k.0 < length rows.now) × (k.1 < length (slice_index_or rows.now k.0 [])) × ((length (slice_index_or (slice_index_or rows.now k.0 []) k.1 []) == 0) ≡ false)) }
    ensures none { is_none result ≡ list_all (λ row. list_all (λ queue. length queue == 0) row) rows.now }
{
    for (server, row) in rows.iter().enumerate() {
        if let Some(from) = row.first() {
            return Some((server, from));
        }
    }
    None
}

impl Links {
    /// Empty links between so many servers.
    pub fn new(alloc: Global, servers: usize) -> Result<Links, NoMemory>
        ensures { IfOk result (λ l. l ≡ replicate servers (replicate servers [])) }
    {
        let rows = rows(alloc, servers)?;
        Ok(Links { rows })
    }

    /// Whether no letter waits on the link to a server from another.
    pub fn is_empty(&self, server: u16, from: u16) -> bool
        ensures { result ≡ (length (link self.now server from) == 0) }
    {
        server as usize >= self.rows.len() || self.rows[server as usize].is_empty(from as usize)
    }

    /// Puts a letter at the end of the link to a server from another. After want of memory the links are as they were.
    pub fn push(&mut self, server: u16, from: u16, letter: Letter) -> Result<(), NoMemory>
        requires server { server < length self.old }
        requires from { from < length (slice_index_or self.old server []) }
        ensures ok { OnOk result (self.new ≡ set_link self.old server from (link self.old server from ++ letter ∷ [])) }
        ensures err { OnErr result (self.new ≡ self.old) }
    {
        self.rows[server as usize].push(from as usize, letter)
    }

    /// Takes the front letter of the link to a server from another; None exactly where there is none, and then nothing changes.
    pub fn pop(&mut self, server: u16, from: u16) -> Option<Letter>
        ensures front { result ≡ slice_get (link self.old server from) 0 }
        ensures rest { self.new ≡ set_link self.old server from (drop 1 (link self.old server from)) }
    {
        if server as usize >= self.rows.len() {
            return None;
        }
        self.rows[server as usize].pop(from as usize)
    }

    /// The least server, and for it the least sender, whose link holds a letter; None exactly where all links are empty.
    pub fn first(&self) -> Option<(usize, usize)>
        ensures first { IfSome result (λ k. IsFirst self.now k) }
        ensures some { IfSome result (λ k. (k.0 < length self.now) × (k.1 < length (slice_index_or self.now k.0 [])) × ((length (link self.now k.0 k.1) == 0) ≡ false)) }
        ensures none { is_none result ≡ list_all (λ row. list_all (λ queue. length queue == 0) row) self.now }
    {
        first_full(&self.rows)
    }
}
