use crate::{Ballots, answer};
use raid_base::{Answer, NoMemory, Site, Sites, Txn};

/// The sites 1 and 3, and the sites 2 and 3.
const ODD: Sites = Sites(5);

const LAST: Sites = Sites(6);

/// The sites 1, 2 and 3, and site 3 alone.
const ALL: Sites = Sites(7);

const THREE: Sites = Sites(4);

#[test]
fn the_last_vote_makes_a_commit_ready(rt: HostRuntime) -> Result<(), NoMemory> {
    let mut ballots = Ballots::new(rt.alloc(), 2)?;
    ballots.start(Txn(1), ODD);
    assert!(rt; ballots.is_open(Txn(1)));
    assert!(rt; !ballots.is_ready(Txn(1)));
    ballots.vote(Txn(1), Site(1));
    assert_eq!(rt; ballots.awaited(Txn(1)), THREE);
    ballots.vote(Txn(1), Site(1));
    assert!(rt; !ballots.is_ready(Txn(1)));
    ballots.vote(Txn(1), Site(3));
    assert!(rt; ballots.is_ready(Txn(1)));
    assert!(rt; ballots.is_open(Txn(1)));
    Ok(())
}

#[test]
fn a_vote_counts_for_its_transaction_alone(rt: HostRuntime) -> Result<(), NoMemory> {
    let mut ballots = Ballots::new(rt.alloc(), 2)?;
    assert!(rt; !ballots.is_full());
    ballots.start(Txn(1), ODD);
    ballots.start(Txn(2), LAST);
    assert!(rt; ballots.is_full());
    ballots.vote(Txn(2), Site(3));
    assert_eq!(rt; ballots.awaited(Txn(1)), ODD);
    assert_eq!(rt; ballots.awaited(Txn(2)), Sites(2));
    ballots.vote(Txn(3), Site(3));
    ballots.up(Txn(3), Site(2));
    ballots.close(Txn(3));
    assert_eq!(rt; ballots.awaited(Txn(1)), ODD);
    assert_eq!(rt; ballots.awaited(Txn(3)), Sites::none());
    assert!(rt; !ballots.is_open(Txn(3)));
    Ok(())
}

#[test]
fn a_site_that_is_down_is_awaited_by_nobody(rt: HostRuntime) -> Result<(), NoMemory> {
    let mut ballots = Ballots::new(rt.alloc(), 2)?;
    ballots.start(Txn(1), ODD);
    ballots.start(Txn(2), THREE);
    ballots.down(Site(3));
    assert_eq!(rt; ballots.awaited(Txn(1)), Sites(1));
    assert!(rt; ballots.is_ready(Txn(2)));
    ballots.up(Txn(1), Site(3));
    ballots.up(Txn(1), Site(2));
    ballots.up(Txn(1), Site(1));
    assert_eq!(rt; ballots.awaited(Txn(1)), ALL);
    assert!(rt; ballots.is_ready(Txn(2)));
    Ok(())
}

#[test]
fn one_ballot_is_closed_or_all_are(rt: HostRuntime) -> Result<(), NoMemory> {
    let mut ballots = Ballots::new(rt.alloc(), 3)?;
    ballots.start(Txn(1), ODD);
    ballots.start(Txn(2), LAST);
    ballots.start(Txn(3), ALL);
    ballots.close(Txn(2));
    assert_eq!(rt;
        (
            ballots.is_open(Txn(1)),
            ballots.is_open(Txn(2)),
            ballots.is_open(Txn(3))
        ),
        (true, false, true)
    );
    assert!(rt; !ballots.is_full());
    ballots.clear();
    assert_eq!(rt;
        (ballots.is_open(Txn(1)), ballots.is_open(Txn(3))),
        (false, false)
    );
    Ok(())
}

#[test]
fn a_site_says_no_where_sessions_differ(rt: HostRuntime) {
    assert_eq!(rt; answer(1, 1), Answer::Yes);
    assert_eq!(rt; answer(1, 2), Answer::No { named: 1, own: 2 });
    assert_eq!(rt; answer(3, 2), Answer::No { named: 3, own: 2 });
}
