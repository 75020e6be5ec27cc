ghost use Rattle.std.specs.Prelude.{◌≡◌, ◌==◌, ◌<◌, false, not, [], ◌∷◌, ◌++◌, length, filter, slice_get, position, Some, OnOk, OnErr};
ghost use Rattle.raid_base.specs.Names.{is_txn};
ghost use Rattle.raid_base.specs.declared.request.Request.{Request};
ghost use Rattle.raid_waits.specs.Waiting.{Test, is_among, request_of, closes_by};

use crate::search::{self, Mark};
use raid_base::{NoMemory, Pairs, Request, Txn};
use raid_control::Blocks;
use std::alloc::Global;
use std::marker::Model;

/// The transactions that wait to commit, each once with its request, in the order in which they came to wait. Contracts see the list of
/// them.
#[derive(Drop, Debug)]
pub struct Waits {
    held: Vec<(Txn, Request)>,
    // One mark for each request, so that a search takes no memory.
    marks: Vec<Mark>,
}

impl Model for Waits {
    ghost use Rattle.std.specs.Prelude.{◌≡◌, List, length, map};
    ghost use Rattle.raid_base.specs.declared.names.Txn.{Txn};
    ghost use Rattle.raid_base.specs.declared.request.Request.{Request};
    ghost use Rattle.raid_rules.specs.Committed.{AllOnce};

    ghost Value = { List (Txn × Request) };

    ghost view = { λ w. w.held.items };

    ghost invariant = { λ w. (length w.marks.items ≡ length w.held.items) × AllOnce (map (λ r. r.0) w.held.items) };
}

/// Where the transaction's request stands.
fn place_of(held: &[(Txn, Request)], txn: Txn) -> Option<usize>
    ensures { result ≡ position (λ r. is_txn txn r.0) held.now }
{
    held.iter().position(|(other, _)| *other == txn)
}

impl Waits {
    /// Nobody waits.
    pub fn new(alloc: Global) -> Waits
        ensures { result ≡ [] }
    {
        Waits {
            held: Vec::new(alloc),
            marks: Vec::new(alloc),
        }
    }

    /// Adds a transaction with its request, behind those that wait. After want of memory all is as it was.
    pub fn push(&mut self, txn: Txn, request: Request) -> Result<(), NoMemory>
        requires { is_among self.old txn ≡ false }
        ensures ok { OnOk result (self.new ≡ self.old ++ (txn, request) ∷ []) }
        ensures err { OnErr result (self.new ≡ self.old) }
    {
        self.held.reserve(1)?;
        self.marks.push(Mark::Unseen)?;
        self.held.push_reserved((txn, request));
        Ok(())
    }

    /// How many wait.
    pub fn len(&self) -> usize
        ensures { result ≡ length self.now }
    {
        self.held.len()
    }

    /// Whether nobody waits.
    pub fn is_empty(&self) -> bool
        ensures { result ≡ (length self.now == 0) }
    {
        self.held.is_empty()
    }

    /// The transaction at a place, counted from 0, and its request.
    pub fn get(&self, k: usize) -> (Txn, &Request)
        requires { k < length self.now }
        ensures { slice_get self.now k ≡ Some (result.0, result.1.now) }
    {
        let (txn, request) = &self.held[k];
        (*txn, request)
    }

    /// Whether the transaction waits.
    pub fn is_waiting(&self, txn: Txn) -> bool
        ensures { result ≡ is_among self.now txn }
    {
        self.held.iter().any(|(other, _)| *other == txn)
    }

    /// Takes a transaction out, and gives its request; None exactly where it doesn't wait, and then nothing changes. Takes no memory.
    pub fn remove(&mut self, txn: Txn) -> Option<Request>
        ensures request { result ≡ request_of self.old txn }
        ensures left { self.new ≡ filter (λ r. not (is_txn txn r.0)) self.old }
    {
        let place = place_of(&self.held, txn)?;
        self.marks.pop();
        let (_, request) = self.held.remove(place);
        Some(request)
    }

    /// Whether the transaction, were it to wait with these writes, would wait for itself: it waits for each that keeps it from them, and
    /// so do those that wait. Takes no memory, and leaves the requests as they were.
    pub fn closes_cycle<B: Blocks>(&mut self, txn: Txn, writes: &Pairs, blocks: &B) -> bool
        requires { is_among self.old txn ≡ false }
        ensures closes { (test : Test) (request : Request) → B.says blocks.now test → request.writes ≡ writes.now → result ≡ closes_by test self.old txn request }
        ensures same { self.new ≡ self.old }
    {
        search::closes(&self.held, &mut self.marks, txn, writes, blocks)
    }
}
