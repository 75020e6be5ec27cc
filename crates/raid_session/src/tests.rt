//! Sites are written as the digits of their numbers, and vectors as those of their sessions.

ghost use Rattle.std.specs.Prelude.{◌≡◌, length};

use crate::{after_down, after_up, agrees, difference, union, up_sites, without};
use raid_base::{Site, Sites, Vector};

/// The sites with these numbers.
fn sites(numbers: &[u8]) -> Sites {
    let mut sites = Sites::none();
    for number in numbers {
        sites = sites.with(Site((*number).clamp(1, 8)));
    }
    sites
}

/// The vector of three sites.
fn vector(sessions: [u32; 3]) -> Vector
    ensures { length result ≡ 3 }
{
    Vector {
        count: 3,
        sessions: [sessions[0], sessions[1], sessions[2], 0, 0, 0, 0, 0],
    }
}

#[test]
fn a_site_goes_down_and_comes_up_in_a_new_session(rt: HostRuntime) {
    let opening = vector([1, 1, 1]);
    let down = after_down(opening, Site(2));
    assert_eq!(rt; down, vector([1, 0, 1]));
    assert_eq!(rt; up_sites(down), sites(&[1, 3]));
    let up = after_up(down, Site(2), 2);
    assert_eq!(rt; up, vector([1, 2, 1]));
    assert_eq!(rt; up_sites(up), sites(&[1, 2, 3]));
    assert_eq!(rt; up_sites(vector([0, 0, 0])), Sites::none());
}

#[test]
fn only_up_holders_have_to_agree(rt: HostRuntime) {
    let request = vector([1, 1, 1]);
    let present = vector([1, 2, 0]);
    for (holders, agree) in [
        (sites(&[]), true),
        (sites(&[1]), true),
        (sites(&[2]), false),
        (sites(&[3]), true),
        (sites(&[1, 3]), true),
        (sites(&[1, 2, 3]), false),
    ] {
        assert_eq!(rt; agrees(request, present, holders), agree);
    }
    assert!(rt; !agrees(present, request, sites(&[3])));
}

#[test]
fn sets_lose_and_gain_sites(rt: HostRuntime) {
    let (low, odd) = (sites(&[1, 2, 3]), sites(&[1, 3, 5, 7]));
    assert_eq!(rt; without(low, Site(2)), sites(&[1, 3]));
    assert_eq!(rt; without(low, Site(8)), low);
    assert_eq!(rt; union(low, odd), sites(&[1, 2, 3, 5, 7]));
    assert_eq!(rt; difference(low, odd), sites(&[2]));
    assert_eq!(rt; difference(odd, low), sites(&[5, 7]));
}
