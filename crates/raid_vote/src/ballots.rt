ghost use Rattle.std.specs.Prelude.{◌≡◌, ◌==◌, ◌≤◌, ◌<◌, nat_le, false, [], length, IfOk};
ghost use Rattle.raid_steps.specs.Programs.{with_vote};
ghost use Rattle.raid_vote.specs.Ballots as words;

use crate::changes::{
    Ballot, awaited_in, close_in, is_among, is_any_ready_in, join_in, leave_in, vote_in,
};
use raid_base::{NoMemory, Site, Sites, Txn};
use std::alloc::Global;
use std::marker::Model;

/// The open ballots of a home: for each of its transactions in preparation the sites whose votes are awaited.
///
/// All room is taken when they are made. Contracts see the ballots in the order in which they were started, and for how many
/// there is room.
#[derive(Drop, Debug)]
pub struct Ballots {
    ballots: Vec<Ballot>,
    room: usize,
}

impl Model for Ballots {
    ghost use Rattle.std.specs.Prelude.{◌≤◌, vec_len, vec_capacity};
    ghost use Rattle.raid_vote.specs.Ballots.{Held};

    ghost Value = { Held };

    ghost view = { λ b. record { ballots = b.ballots.items; room = b.room } };

    ghost invariant = { λ b. (vec_len b.ballots ≤ b.room) × (b.room ≤ vec_capacity b.ballots) };
}

impl Ballots {
    /// No open ballot, with room for as many as may run together.
    pub fn new(alloc: Global, together: u8) -> Result<Ballots, NoMemory>
        ensures { IfOk result (λ b. b ≡ record { ballots = []; room = together }) }
    {
        let room = together as usize;
        let ballots = Vec::with_capacity(alloc, room)?;
        Ok(Ballots { ballots, room })
    }

    /// Whether as many ballots are open as there is room for.
    pub fn is_full(&self) -> bool
        ensures { result ≡ nat_le self.now.room (length self.now.ballots) }
    {
        self.room <= self.ballots.len()
    }

    /// Opens a ballot of the transaction, which awaits the votes of the sites.
    pub fn start(&mut self, txn: Txn, sites: Sites)
        requires room { length self.old.ballots < self.old.room }
        requires other { words.is_open self.old txn ≡ false }
        ensures { self.new ≡ words.started txn sites self.old }
    {
        self.ballots.push_reserved(Ballot {
            txn,
            awaited: sites,
        });
    }

    /// Counts the site's vote for the transaction, which is then no longer awaited. Changes nothing where the transaction has no
    /// open ballot.
    pub fn vote(&mut self, txn: Txn, site: Site)
        requires least { 1 ≤ site.0 }
        requires most { site.0 ≤ 8 }
        ensures { self.new ≡ words.change txn (words.without site) self.old }
    {
        vote_in(&mut self.ballots, txn, site);
    }

    /// The site is down: no open ballot awaits its vote any longer.
    pub fn down(&mut self, site: Site)
        requires least { 1 ≤ site.0 }
        requires most { site.0 ≤ 8 }
        ensures { self.new ≡ words.change_all (words.without site) self.old }
    {
        leave_in(&mut self.ballots, site);
    }

    /// The site is up again and has to vote on the transaction: its vote is awaited too. Changes nothing where the transaction
    /// has no open ballot.
    pub fn up(&mut self, txn: Txn, site: Site)
        requires least { 1 ≤ site.0 }
        requires most { site.0 ≤ 8 }
        ensures { self.new ≡ words.change txn (with_vote site) self.old }
    {
        join_in(&mut self.ballots, txn, site);
    }

    /// Whether the transaction has an open ballot.
    pub fn is_open(&self, txn: Txn) -> bool
        ensures { result ≡ words.is_open self.now txn }
    {
        is_among(self.ballots.as_slice(), txn)
    }

    /// The sites whose votes the transaction awaits, none where it has no open ballot.
    pub fn awaited(&self, txn: Txn) -> Sites
        ensures { result ≡ words.awaited self.now txn }
    {
        awaited_in(self.ballots.as_slice(), txn)
    }

    /// Whether the transaction awaits no vote, as it does where it has no open ballot.
    pub fn is_ready(&self, txn: Txn) -> bool
        ensures { result ≡ (length (words.awaited self.now txn) == 0) }
    {
        self.awaited(txn).is_empty()
    }

    /// Whether any open ballot awaits no vote, told in one pass over the ballots. Where none does, no transaction with an open
    /// ballot is ready.
    pub fn is_any_ready(&self) -> bool
        ensures { result ≡ words.is_any_ready self.now }
    {
        is_any_ready_in(self.ballots.as_slice())
    }

    /// Closes the transaction's ballot. Changes nothing where it has none open.
    pub fn close(&mut self, txn: Txn)
        ensures { self.new ≡ words.close txn self.old }
    {
        close_in(&mut self.ballots, txn);
    }

    /// Closes all ballots.
    pub fn clear(&mut self)
        ensures { self.new ≡ record { ballots = []; room = self.old.room } }
    {
        self.ballots.clear();
    }
}
