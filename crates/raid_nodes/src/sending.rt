//! What a step sends goes into the server's ends of its links.
ghost use Rattle.std.specs.Prelude.{◌≡◌, ◌<◌, map, length, All, OnOk};
ghost use Rattle.raid_causes.specs.Histories.{letter_of};
ghost use Rattle.raid_nodes.specs.Nodes.{AreSent};

use raid_base::NoMemory;
use raid_link::Sender;
use raid_message::{Letter, Outs};
use raid_world::copying::copy_message;
use std::alloc::Global;

/// Sends what a server has sent in its step with this clock, in the session that it has now, each message to its addressee, in order.
pub fn send_all(
    alloc: Global,
    senders: &mut [Sender],
    session: u32,
    clock: u64,
    outs: &Outs,
) -> Result<(), NoMemory>
    requires to { All (λ out. out.0 < length senders.old) outs.now }
    ensures { OnOk result (AreSent (map (letter_of session clock) outs.now) senders.old senders.new) }
{
    for (to, meant, message) in outs.as_slice() {
        let message = copy_message(alloc, message)?;
        let letter = Letter {
            clock,
            from: session,
            to: *meant,
            message,
        };
        senders[*to as usize].send(letter)?;
    }
    Ok(())
}
