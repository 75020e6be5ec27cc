//! What a step sends goes onto the links.
ghost use Rattle.std.specs.Prelude.{◌≡◌, ◌<◌, length, fold, All, OnOk};
ghost use Rattle.raid_steps.specs.World.{post};
ghost use Rattle.raid_world.specs.Stands.{AreLinks};

use crate::copying::copy_message;
use raid_base::NoMemory;
use raid_links::Links;
use raid_message::{Letter, Outs};
use std::alloc::Global;

/// Puts what a server has sent in its step with this clock, in the session that it has now, at the ends of its links, in order.
pub fn post_all(
    alloc: Global,
    links: &mut Links,
    server: u16,
    session: u32,
    clock: u64,
    outs: &Outs,
) -> Result<(), NoMemory>
    requires links { AreLinks (length links.old) links.old }
    requires from { server < length links.old }
    requires to { All (λ out. out.0 < length links.old) outs.now }
    ensures posted { OnOk result (links.new ≡ fold (post server session clock) links.old outs.now) }
    ensures links { AreLinks (length links.old) links.new }
{
    for (to, meant, message) in outs.as_slice() {
        let message = copy_message(alloc, message)?;
        let letter = Letter {
            clock,
            from: session,
            to: *meant,
            message,
        };
        links.push(*to, server, letter)?;
    }
    Ok(())
}
