ghost use Rattle.std.specs.Prelude.{◌≡◌, ◌<◌, ◌≤◌, [], IfSome, IfNone, OnOk, length};
ghost use Rattle.raid_link.specs.Link.{known};
ghost use Rattle.raid_rounds_tests.specs.Ring.{After, Settled, SomeLeft, TurnMade, Whole};

use crate::settling::settle_ring;
use raid_base::NoMemory;
use raid_link::{Gate, Node, OnTheWay, Receiver, Sender};
use raid_message::{Letter, Message};
use std::alloc::Global;
use std::sync::Arc;
use std::thread::yield_now;

/// What the relays of one ring know of it.
pub struct Ring {
    /// How many there are; they are numbered from 0.
    pub members: u16,
    /// How many letters a turn takes at most, at least one.
    pub turn: u32,
}

/// A node that passes each letter on to the next of its ring, until the letter has no hop left.
#[derive(Drop)]
pub struct Relay {
    pub number: u16,
    /// How many letters it has taken.
    pub heard: u64,
    /// The link to the next relay.
    pub out: Sender,
    /// The link from the relay before.
    pub input: Receiver,
    /// What the relays tell one another of letters on their way.
    pub way: Arc<OnTheWay>,
}

/// A letter with so many hops left.
pub fn letter(hops: u32) -> Letter {
    Letter {
        clock: 0,
        from: 0,
        to: 0,
        message: Message::Ends { count: hops },
    }
}

/// Takes one letter in, and passes it on where it has a hop left.
fn hear(relay: &mut Relay, taken: Letter) -> Result<(), NoMemory>
    requires { relay.old.heard < 1000000000 }
    ensures { OnOk result (After relay.old 1 relay.new) }
{
    relay.heard += 1;
    match taken.message {
        Message::Ends { count } if count > 0 => relay.out.send(letter(count - 1)),
        _ => {
            relay.way.sub(1);
            Ok(())
        }
    }
}

/// How often a turn looks in vain, one time after the other, before it ends; and how often it looks at all.
const PATIENCE: u32 = 1000;

const LOOKS: u64 = 1_000_000_000_000;

impl Relay {
    /// The next letter, if one has come. Where none has, letters that wait go on their way, as far as there is room by now.
    fn fetch(&mut self) -> Option<Letter>
        ensures some { IfSome result (λ l. After self.old 0 self.new) }
        ensures none { IfNone result (After self.old 0 self.new × (known self.old.input ≡ []) × (known self.new.input ≡ [])) }
    {
        let letter = self.input.take();
        if letter.is_none() {
            self.out.flush();
        }
        letter
    }
}

impl Node for Relay {
    type Plan = Ring;

    ghost turns = { λ x p n y. TurnMade x n y };

    ghost settles = { Settled };

    ghost whole = { Whole };

    ghost own = { λ x p. (x.number < p.members) × (1 ≤ p.turn) };

    ghost some_left = { SomeLeft };

    ghost has_known = { λ x. 0 < length (known x.input) };

    ghost taken = { λ x. x.heard };

    ghost use Rattle.raid_rounds_tests.specs.Fits.{ring_fits};

    ghost fits = { λ p. ring_fits p.members p.turn };

    fn steps(&self) -> u64 {
        self.heard
    }

    fn turn<G: Gate>(
        &mut self,
        _alloc: Global,
        plan: &Ring,
        gate: &G,
        most: u32,
    ) -> Result<u32, NoMemory> {
        let most = most.min(plan.turn);
        let mut taken = 0;
        let mut vain = 0;
        for _look in 0..LOOKS {
            if taken == most || vain == PATIENCE {
                return Ok(taken);
            }
            match self.fetch() {
                Some(letter) => {
                    gate.at(self.number, self.heard);
                    hear(self, letter)?;
                    taken += 1;
                    vain = 0;
                }
                None => {
                    if self.way.is_none() {
                        return Ok(taken);
                    }
                    yield_now();
                    vain += 1;
                }
            }
        }
        Ok(taken)
    }

    fn settle_all(members: &mut [Relay]) -> bool {
        settle_ring(members)
    }
}
