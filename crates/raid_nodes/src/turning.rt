//! A server's turn, and the settling of all links: what rounds ask of a node.
ghost use Rattle.std.specs.Prelude.{◌≡◌};

use crate::node::ServerNode;
use crate::settling::settle_links;
use raid_base::NoMemory;
use raid_control::Controller;
use raid_link::{Gate, Node};
use raid_workload::Workload;
use std::alloc::Global;
use std::thread::yield_now;

/// How often a turn looks for a letter in vain, one time after the other, before it ends; and how often it looks at all.
const PATIENCE: u32 = 100_000;

const LOOKS: u64 = 1_000_000_000_000;

impl Node for ServerNode {
    type Plan = Workload;

    ghost use Rattle.std.specs.Prelude.{length};
    ghost use Rattle.raid_nodes.specs.Nodes.{Goes};
    ghost use Rattle.raid_nodes.specs.Said.{says_by};
    ghost use Rattle.raid_nodes.specs.Turns.{TurnMade, SomeKnown};
    ghost use Rattle.raid_nodes.specs.Settled.{Settled, SomeLeft, WholeNodes};
    ghost use Rattle.raid_nodes.specs.Fits.{nodes_fit, goes_fetched};

    ghost turns = { λ x w n y. TurnMade w x n y × (Goes (says_by (λ b view. (Controller-box b).stands b.value view) (λ b. (Controller-box b).kind_of b.value) (λ b. (Controller-box b).structure_of b.value) x) w x → Goes (says_by (λ b view. (Controller-box b).stands b.value view) (λ b. (Controller-box b).kind_of b.value) (λ b. (Controller-box b).structure_of b.value) y) w y) };

    ghost settles = { Settled };

    ghost whole = { WholeNodes };

    ghost own = { λ x w. Goes (says_by (λ b view. (Controller-box b).stands b.value view) (λ b. (Controller-box b).kind_of b.value) (λ b. (Controller-box b).structure_of b.value) x) w x };

    ghost some_left = { SomeLeft };

    ghost has_known = { SomeKnown };

    ghost taken = { λ x. length x.journal };

    ghost fits = { λ w. nodes_fit w _ (λ x y. goes_fetched _ w x y) };

    fn steps(&self) -> u64 {
        self.journal.len() as u64
    }

    fn turn<G: Gate>(
        &mut self,
        alloc: Global,
        plan: &Workload,
        gate: &G,
        most: u32,
    ) -> Result<u32, NoMemory> {
        let mut taken = 0;
        let mut vain = 0;
        for _look in 0..LOOKS {
            if taken == most || vain == PATIENCE {
                return Ok(taken);
            }
            let Some((from, letter)) = self.fetch() else {
                if self.rests() {
                    return Ok(taken);
                }
                yield_now();
                vain += 1;
                continue;
            };
            gate.at(self.number, self.journal.len() as u64);
            self.hear(alloc, plan, from, &letter)?;
            taken += 1;
            vain = 0;
        }
        Ok(taken)
    }

    fn settle_all(members: &mut [ServerNode]) -> bool {
        settle_links(members)
    }
}
