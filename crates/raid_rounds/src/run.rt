ghost use Rattle.std.specs.Prelude.{◌≡◌, ℕ, ◌+◌, ◌*◌, ◌<◌, ◌≤◌, ◌⊎◌, IfOk, OnOk, OnErr, IsOk, IsErr, All, Bool, true, false, length};
ghost use Rattle.std.specs.Thread.{IsSync};
ghost use Rattle.raid_link.specs.Laws.{SomeOf};
ghost use Rattle.raid_rounds.specs.Rounds.{Turned, Round, Within};
ghost use Rattle.raid_rounds.specs.Ends.{Ended};

use raid_base::NoMemory;
use raid_link::{Gate, Node};
use std::alloc::Global;
use std::thread::{Threads, join_mut};

/// How rounds end.
#[derive(Clone, Copy, Debug, PartialEq, Eq)]
pub enum Rounds {
    /// Every link is empty.
    Idle,
    /// All the rounds that there might be were made, each of them with a step, and a letter is left.
    Spent,
}

/// Lets each member take one turn, all at once, each in a thread of its own: the list is halved until one member is left.
#[cycle(turns)]
fn turn_each<R: Threads + Sync, N: Node, G: Gate>(
    rt: &R,
    alloc: Global,
    plan: &N::Plan,
    gate: &G,
    letters: u32,
    members: &mut [N],
) -> Result<(), NoMemory>
    requires { (1 ≤ letters) × All (λ m. N.own m plan.now × (N.taken m + letters ≤ 1000000000)) members.old }
    ensures { OnOk result ((n : ℕ) × Turned (Within (λ x k y. N.turns x plan.now k y) letters) members.old n members.new) }
{
    if members.len() == 0 {
        return Ok(());
    }
    if members.len() == 1 {
        members[0].turn(alloc, plan, gate, letters)?;
        return Ok(());
    }
    let half = members.len() / 2;
    let (left, right) = members.split_at_mut(half);
    let (first, second) = turn_both(rt, alloc, plan, gate, letters, left, right);
    both(first, second)
}

/// Lets the members of both parts take their turns at once, those of the first part in a new thread. It is a function of
/// its own with nothing after the join, so that what the closures left behind is known.
#[cycle(turns)]
fn turn_both<R: Threads + Sync, N: Node, G: Gate>(
    rt: &R,
    alloc: Global,
    plan: &N::Plan,
    gate: &G,
    letters: u32,
    left: &mut [N],
    right: &mut [N],
) -> (Result<(), NoMemory>, Result<(), NoMemory>)
    requires left { (1 ≤ letters) × All (λ m. N.own m plan.now × (N.taken m + letters ≤ 1000000000)) left.old }
    requires right { (1 ≤ letters) × All (λ m. N.own m plan.now × (N.taken m + letters ≤ 1000000000)) right.old }
    ensures left { OnOk result.0 ((n : ℕ) × Turned (Within (λ x k y. N.turns x plan.now k y) letters) left.old n left.new) }
    ensures right { OnOk result.1 ((n : ℕ) × Turned (Within (λ x k y. N.turns x plan.now k y) letters) right.old n right.new) }
{
    join_mut(
        rt,
        &mut || -> Result<(), NoMemory>
            requires { IsSync R.row × (1 ≤ letters) × All (λ m. N.own m plan.now × (N.taken m + letters ≤ 1000000000)) left.now }
            ensures { OnOk result ((n : ℕ) × Turned (Within (λ x k y. N.turns x plan.entry.now k y) letters) left.entry.now n left.exit.now) }
        { turn_each(rt, alloc, plan, gate, letters, left) },
        &mut || -> Result<(), NoMemory>
            requires { IsSync R.row × (1 ≤ letters) × All (λ m. N.own m plan.now × (N.taken m + letters ≤ 1000000000)) right.now }
            ensures { OnOk result ((n : ℕ) × Turned (Within (λ x k y. N.turns x plan.entry.now k y) letters) right.entry.now n right.exit.now) }
        { turn_each(rt, alloc, plan, gate, letters, right) },
    )
}

/// Ok where both are.
fn both(first: Result<(), NoMemory>, second: Result<(), NoMemory>) -> Result<(), NoMemory>
    ensures ok { OnOk result (IsOk first × IsOk second) }
    ensures err { OnErr result (IsErr first ⊎ IsErr second) }
{
    first?;
    second
}

/// One round: each member takes a turn, and then all links settle. True exactly where a letter is left.
fn round<R: Threads + Sync, N: Node, G: Gate>(
    rt: &R,
    alloc: Global,
    plan: &N::Plan,
    gate: &G,
    letters: u32,
    members: &mut [N],
) -> Result<bool, NoMemory>
    requires whole { N.whole members.old }
    requires each { (1 ≤ letters) × All (λ m. N.own m plan.now × (N.taken m + letters ≤ 1000000000)) members.old }
    requires known { SomeOf N.has_known members.old }
    ensures { IfOk result (λ more. Round (Within (λ x k y. N.turns x plan.now k y) letters) N.settles members.old more members.new) }
{
    turn_each(rt, alloc, plan, gate, letters, members)?;
    Ok(N::settle_all(members))
}

/// How many letters beyond 64 the turns of one round may have, and those of all rounds together.
const LONG: u32 = 1_000_000;

const SPARE: u32 = 360_000_000;

/// Settles all links once, and then makes rounds until every link is empty, or `most` of them were made.
///
/// It asks that no member comes to more than 1,000,000,000 letters. The members are afterwards still nodes of one
/// world whose plan is their own, so rounds can go on from there. After want of memory nothing is said of them.
pub fn run_rounds<R: Threads + Sync, N: Node, G: Gate>(
    rt: &R,
    alloc: Global,
    members: &mut [N],
    plan: &N::Plan,
    gate: &G,
    most: u64,
) -> Result<Rounds, NoMemory>
    requires whole { N.whole members.old }
    requires own { All (λ m. N.own m plan.now) members.old }
    requires room { All (λ m. N.taken m + 64 * most ≤ 640000000) members.old }
    ensures reached { IfOk result (λ r. Ended (λ x k y. N.turns x plan.now k y) N.settles most members.old r members.new) }
    ensures idle { IfOk result (λ r. r ≡ Rounds.Idle → N.some_left members.new → ⊥) }
    ensures spent { IfOk result (λ r. r ≡ Rounds.Spent → N.some_left members.new) }
    ensures whole { OnOk result (N.whole members.new) }
    ensures own { OnOk result (All (λ m. N.own m plan.now) members.new) }
{
    if !N::settle_all(members) {
        return Ok(Rounds::Idle);
    }
    let mut spare = SPARE;
    for _made in 0..most {
        let more = spare.min(LONG);
        spare -= more;
        if !round(rt, alloc, plan, gate, 64 + more, members)? {
            return Ok(Rounds::Idle);
        }
    }
    Ok(Rounds::Spent)
}
