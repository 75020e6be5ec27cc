//! What is done with a list of ballots.

ghost use Rattle.std.specs.Prelude.{◌≡◌, ◌≤◌, not, filter, map, find, vec_capacity, vec_len, []};
ghost use Rattle.std.specs.List.{list_any};
ghost use Rattle.std.specs.Option.{option_map_or};
ghost use Rattle.raid_base.specs.Names.{is_txn};
ghost use Rattle.raid_steps.specs.Programs.{with_vote};
ghost use Rattle.raid_vote.specs.Ballots as words;

use raid_base::{Site, Sites, Txn};
use raid_session::without;

/// An open ballot: a transaction in preparation, and the sites whose votes it awaits.
#[derive(Clone, Copy, Debug)]
pub struct Ballot {
    pub txn: Txn,
    pub awaited: Sites,
}

/// The ballot without the site's vote, where it is one of the transaction.
fn voted(ballot: Ballot, txn: Txn, site: Site) -> Ballot
    requires least { 1 ≤ site.0 }
    requires most { site.0 ≤ 8 }
    ensures { result ≡ words.changed txn (words.without site) ballot }
{
    if ballot.txn == txn {
        left(ballot, site)
    } else {
        ballot
    }
}

/// The ballot with the site's vote awaited too, where it is one of the transaction.
fn joined(ballot: Ballot, txn: Txn, site: Site) -> Ballot
    requires least { 1 ≤ site.0 }
    requires most { site.0 ≤ 8 }
    ensures { result ≡ words.changed txn (with_vote site) ballot }
{
    if ballot.txn == txn {
        Ballot {
            txn,
            awaited: ballot.awaited.with(site),
        }
    } else {
        ballot
    }
}

/// The ballot without the site's vote.
fn left(ballot: Ballot, site: Site) -> Ballot
    requires least { 1 ≤ site.0 }
    requires most { site.0 ≤ 8 }
    ensures { result ≡ words.awaiting (words.without site) ballot }
{
    Ballot {
        txn: ballot.txn,
        awaited: without(ballot.awaited, site),
    }
}

/// Takes the site's vote from those that the transaction awaits.
pub fn vote_in(ballots: &mut [Ballot], txn: Txn, site: Site)
    requires least { 1 ≤ site.0 }
    requires most { site.0 ≤ 8 }
    ensures { ballots.new ≡ map (words.changed txn (words.without site)) ballots.old }
{
    for ballot in ballots.iter_mut() {
        *ballot = voted(*ballot, txn, site);
    }
}

/// Adds the site's vote to those that the transaction awaits.
pub fn join_in(ballots: &mut [Ballot], txn: Txn, site: Site)
    requires least { 1 ≤ site.0 }
    requires most { site.0 ≤ 8 }
    ensures { ballots.new ≡ map (words.changed txn (with_vote site)) ballots.old }
{
    for ballot in ballots.iter_mut() {
        *ballot = joined(*ballot, txn, site);
    }
}

/// Takes the site's vote from those that any transaction awaits.
pub fn leave_in(ballots: &mut [Ballot], site: Site)
    requires least { 1 ≤ site.0 }
    requires most { site.0 ≤ 8 }
    ensures { ballots.new ≡ map (words.awaiting (words.without site)) ballots.old }
{
    for ballot in ballots.iter_mut() {
        *ballot = left(*ballot, site);
    }
}

/// Takes the transaction's ballot out.
pub fn close_in(ballots: &mut Vec<Ballot>, txn: Txn)
    ensures is { ballots.new.items ≡ filter (λ b. not (words.is_of txn b)) ballots.old.items }
    ensures len { vec_len ballots.new ≤ vec_len ballots.old }
    ensures room { vec_capacity ballots.new ≡ vec_capacity ballots.old }
{
    ballots.retain(|ballot| ballot.txn != txn);
}

/// Whether the transaction has a ballot.
pub fn is_among(ballots: &[Ballot], txn: Txn) -> bool
    ensures { result ≡ list_any (words.is_of txn) ballots.now }
{
    ballots.iter().any(|ballot| ballot.txn == txn)
}

/// The sites whose votes the transaction awaits, none where it has no ballot.
pub fn awaited_in(ballots: &[Ballot], txn: Txn) -> Sites
    ensures { result ≡ option_map_or (λ b. b.awaited) (find (words.is_of txn) ballots.now) [] }
{
    for ballot in ballots {
        if ballot.txn == txn {
            return ballot.awaited;
        }
    }
    Sites::none()
}

/// Whether any ballot awaits no vote.
pub fn is_any_ready_in(ballots: &[Ballot]) -> bool
    ensures { result ≡ list_any words.is_ready ballots.now }
{
    ballots.iter().any(|ballot| ballot.awaited.is_empty())
}
