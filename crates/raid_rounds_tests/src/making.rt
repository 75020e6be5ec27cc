ghost use Rattle.std.specs.Prelude.{◌≡◌, ◌<◌, ◌≤◌, All, IfOk};
ghost use Rattle.raid_rounds_tests.specs.Ring.{Whole};

use crate::relay::{Relay, letter};
use raid_base::NoMemory;
use raid_link::{OnTheWay, Receiver, Sender, link};
use std::alloc::Global;
use std::sync::Arc;

/// A relay that has taken no letter.
fn fresh(number: u16, out: Sender, input: Receiver, way: Arc<OnTheWay>) -> Relay
    ensures { result ≡ record { number = number; heard = 0; out = out; input = input; way = way } }
{
    Relay {
        number,
        heard: 0,
        out,
        input,
        way,
    }
}

/// A ring of three relays with links of so many places, each of which has sent the next a letter of so many hops.
pub fn ring_of_three(alloc: Global, places: u32, hops: [u32; 3]) -> Result<[Relay; 3], NoMemory>
    requires { (1 ≤ places) × (places ≤ 1024) }
    ensures whole { IfOk result (λ xs. Whole xs) }
    ensures at_first { IfOk result (λ xs. All (λ x. (x.number < 3) × (x.heard ≡ 0)) xs) }
{
    let (mut first, to_second) = link(alloc, places)?;
    let (mut second, to_third) = link(alloc, places)?;
    let (mut third, to_first) = link(alloc, places)?;
    first.send(letter(hops[0]))?;
    second.send(letter(hops[1]))?;
    third.send(letter(hops[2]))?;
    let way = Arc::new(alloc, OnTheWay::new(3))?;
    let other = Arc::try_clone(&way)?;
    let another = Arc::try_clone(&way)?;
    Ok([
        fresh(0, first, to_first, way),
        fresh(1, second, to_second, other),
        fresh(2, third, to_third, another),
    ])
}
