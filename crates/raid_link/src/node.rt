ghost use Rattle.std.specs.Prelude.{◌≡◌, ℕ, ◌+◌, ◌≤◌, List, IfOk, Bool};
ghost use Rattle.raid_link.specs.Laws.{NodeLaws};

use crate::gate::Gate;
use raid_base::NoMemory;
use std::alloc::Global;

/// A server with its ends of links, as rounds on threads see it: it takes letters in turns, and the links of all are
/// settled between the turns.
///
/// What a turn and a settling do is said by two relations of the implementor's own; what rounds need to know of them
/// is one record of laws, which the implementor proves.
pub trait Node: Send {
    /// What the servers of one world all know, and none changes.
    type Plan: Sync;

    // What a turn does: the node before, the plan, how many letters it took, the node after.
    ghost turns: { Self → Self.Plan → ℕ → Self → Type 0 };

    // What settling the links of all members does: the members before, the answer, the members after.
    ghost settles: { List Self → Bool → List Self → Type 0 };

    // The members are all nodes of one world, each link with both its ends among them.
    ghost whole: { List Self → Type 0 };

    // The plan is the node's own.
    ghost own: { Self → Self.Plan → Type 0 };

    // Some link of the members holds a letter.
    ghost some_left: { List Self → Type 0 };

    // The node has a known letter on one of its links.
    ghost has_known: { Self → Type 0 };

    // How many letters the node has taken.
    ghost taken: { Self → ℕ };

    /// How many letters it has taken.
    fn steps(&self) -> u64
        ensures { result ≡ taken self.now };

    /// Takes at most so many letters, one step each, and calls the gate before each step; answers how many it took. After
    /// want of memory nothing is said of the node.
    fn turn<G: Gate>(
        &mut self,
        alloc: Global,
        plan: &Self::Plan,
        gate: &G,
        most: u32,
    ) -> Result<u32, NoMemory>
        requires own { own self.old plan.now }
        requires some { 1 ≤ most }
        requires room { taken self.old + most ≤ 1000000000 }
        ensures turns { IfOk result (λ n. turns self.old plan.now n self.new) }
        ensures few { IfOk result (λ n. n ≤ most) };

    /// Settles every link of the members. True exactly where one of them holds a letter. It takes no memory.
    fn settle_all(members: &mut [Self]) -> bool
    where
        Self: Sized,
        requires { whole members.old }
        ensures { settles members.old result members.new };

    // What rounds rest on: `NodeLaws` has a line for each law.
    ghost fits: { (p : Self.Plan) → NodeLaws (λ x k y. turns x p k y) settles whole (λ x. own x p) some_left has_known taken };
}
