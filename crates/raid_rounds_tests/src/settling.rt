ghost use Rattle.std.specs.Prelude.{◌≡◌, ◌≢◌, ℕ, ◌+◌, ◌<◌, ◌≤◌, ◌↔◌, length, IsTrue, slice_index_or, slice_set};
ghost use Rattle.raid_link.specs.Link.{IsLink};
ghost use Rattle.raid_rounds_tests.specs.Ring.{next, PairSettled, Settled, Whole};
ghost use Rattle.raid_rounds_tests.specs.declared.relay.Relay.{Relay};

use crate::relay::Relay;
use raid_link::settle;

/// Settles the link from one relay to another.
fn settle_two(one: &mut Relay, other: &mut Relay) -> bool
    requires { IsLink one.old.out other.old.input }
    ensures { PairSettled one.old other.old result one.new other.new }
{
    settle(&mut one.out, &mut other.input)
}

/// Settles the link from one member to another.
fn settle_pair(members: &mut [Relay], from: usize, to: usize) -> bool
    requires places { (from < length members.old) × (to < length members.old) × (from ≢ to) }
    requires link { (d : Relay) → IsLink (slice_index_or members.old from d).out (slice_index_or members.old to d).input }
    ensures { (y : Relay) × (z : Relay) × (members.new ≡ slice_set (slice_set members.old from y) to z) × ((d : Relay) → PairSettled (slice_index_or members.old from d) (slice_index_or members.old to d) result y z) }
{
    if from < to {
        let (front, back) = members.split_at_mut(to);
        settle_two(&mut front[from], &mut back[0])
    } else {
        let (front, back) = members.split_at_mut(from);
        settle_two(&mut back[0], &mut front[to])
    }
}

/// The place after place k of a ring of so many.
fn next_place(count: usize, k: usize) -> usize
    requires { k < count }
    ensures { result ≡ next count k }
{
    if k + 1 == count { 0 } else { k + 1 }
}

/// Settles each link of the ring. True exactly where one of them holds a letter.
pub fn settle_ring(members: &mut [Relay]) -> bool
    requires { Whole members.old }
    ensures { Settled members.old result members.new }
{
    let count = members.len();
    let mut some = false;
    for k in 0..count {
        let more = settle_pair(members, k, next_place(count, k));
        some = some | more;
    }
    some
}
