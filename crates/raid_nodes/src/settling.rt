//! The links between all nodes, settled one after another.
ghost use Rattle.std.specs.Prelude.{◌≡◌, ◌<◌, length};
ghost use Rattle.raid_link.specs.Link.{IsLink};
ghost use Rattle.raid_link.specs.declared.ends.Sender.{Sender};
ghost use Rattle.raid_link.specs.declared.ends.Receiver.{Receiver};
ghost use Rattle.raid_nodes.specs.Settled.{sender_of, receiver_of, with_sender, with_receiver, EndsSettled, PairSettled, SettledSo, Settled, WholeNodes};

use crate::node::ServerNode;
use raid_link::settle;

/// Settles a node's link to itself.
fn settle_own(node: &mut ServerNode, k: usize) -> bool
    requires out { k < length node.old.outs.items }
    requires input { k < length node.old.inputs.items }
    requires link { (e : Sender) (f : Receiver) → IsLink (sender_of node.old k e) (receiver_of node.old k f) }
    ensures { (t : Sender) × (q : Receiver) × (node.new ≡ with_receiver (with_sender node.old k t) k q) × ((e : Sender) (f : Receiver) → EndsSettled (sender_of node.old k e) (receiver_of node.old k f) result t q) }
{
    settle(&mut node.outs[k], &mut node.inputs[k])
}

/// Settles the link from the one node, which is member `from`, to the other, which is member `to`.
fn settle_two(one: &mut ServerNode, other: &mut ServerNode, from: usize, to: usize) -> bool
    requires out { to < length one.old.outs.items }
    requires input { from < length other.old.inputs.items }
    requires link { (e : Sender) (f : Receiver) → IsLink (sender_of one.old to e) (receiver_of other.old from f) }
    ensures { (t : Sender) × (q : Receiver) × (one.new ≡ with_sender one.old to t) × (other.new ≡ with_receiver other.old from q) × ((e : Sender) (f : Receiver) → EndsSettled (sender_of one.old to e) (receiver_of other.old from f) result t q) }
{
    settle(&mut one.outs[to], &mut other.inputs[from])
}

/// Settles the link from one member to another, or to itself.
fn settle_pair(members: &mut [ServerNode], from: usize, to: usize) -> bool
    requires whole { WholeNodes members.old }
    requires from { from < length members.old }
    requires to { to < length members.old }
    ensures { PairSettled from to members.old result members.new }
{
    if from == to {
        return settle_own(&mut members[from], from);
    }
    if from < to {
        let (front, back) = members.split_at_mut(to);
        settle_two(&mut front[from], &mut back[0], from, to)
    } else {
        let (front, back) = members.split_at_mut(from);
        settle_two(&mut back[0], &mut front[to], from, to)
    }
}

/// Settles the links from one member. True exactly where one of them holds a letter.
fn settle_from(members: &mut [ServerNode], from: usize) -> bool
    requires whole { WholeNodes members.old }
    requires from { from < length members.old }
    ensures { SettledSo (λ i j. i ≡ from) members.old result members.new }
{
    let count = members.len();
    let mut some = false;
    for to in 0..count {
        let more = settle_pair(members, from, to);
        some = some | more;
    }
    some
}

/// Settles the links from all members to all. True exactly where one of them holds a letter. It takes no memory.
pub fn settle_links(members: &mut [ServerNode]) -> bool
    requires { WholeNodes members.old }
    ensures { Settled members.old result members.new }
{
    let count = members.len();
    let mut some = false;
    for from in 0..count {
        let more = settle_from(members, from);
        some = some | more;
    }
    some
}
