//! How a server takes letters out of its links.
ghost use Rattle.std.specs.Prelude.{◌≡◌, ◌<◌, ◌≤◌, ◌+◌, ◌∷◌, [], length, IfSome, IfNone};
ghost use Rattle.raid_nodes.specs.Nodes.{AreSent};
ghost use Rattle.raid_nodes.specs.Turns.{Fetched, Found, Missed, Still};

use crate::node::ServerNode;
use raid_link::Sender;
use raid_message::Letter;

/// How many letters are fetched, one after another, before those that wait for room are moved on.
const BETWEEN: u32 = 64;

/// Moves the letters that wait into the rings, as far as there is room by now.
fn flush_all(senders: &mut [Sender])
    ensures { AreSent [] senders.old senders.new }
{
    for sender in senders.iter_mut() {
        sender.flush();
    }
}

impl ServerNode {
    /// The next letter on the link from the server with this number, if one has come. One that was known at the last settling has.
    fn take_from(&mut self, from: usize) -> Option<Letter>
        requires { from < length self.old.inputs.items }
        ensures some { IfSome result (λ letter. Fetched self.old ((from, letter) ∷ []) self.new) }
        ensures none { IfNone result (Missed self.old from (from + 1) self.new) }
    {
        self.inputs[from].take()
    }

    /// The next letter of one of these servers, from the one to below the other, with its number.
    fn take_among(&mut self, first: usize, end: usize) -> Option<(u16, Letter)>
        requires end { end ≤ length self.old.inputs.items }
        requires few { length self.old.inputs.items ≤ 65536 }
        ensures some { IfSome result (λ taken. Found self.old taken self.new) }
        ensures none { IfNone result (Missed self.old first end self.new) }
    {
        for from in first..end {
            if let Some(letter) = self.take_from(from) {
                return Some((from as u16, letter));
            }
        }
        None
    }

    /// The next letter of any server, with the server's number: first of the one that gave the last, and then of those after it.
    fn take_any(&mut self) -> Option<(u16, Letter)>
        requires few { length self.old.inputs.items ≤ 65536 }
        ensures some { IfSome result (λ taken. Found self.old taken self.new) }
        ensures none { IfNone result (Missed self.old 0 (length self.old.inputs.items) self.new) }
    {
        let end = self.inputs.len();
        let first = end.min(self.at as usize);
        if let Some(taken) = self.take_among(first, end) {
            return Some(taken);
        }
        self.take_among(0, first)
    }

    /// Moves letters that wait for room on their way, as far as there is room by now.
    fn move_on(&mut self)
        ensures { Still self.old self.new }
    {
        flush_all(&mut self.outs);
        self.since = 0;
    }

    /// Does so where many letters were fetched since it did, and then looks at another link first.
    fn move_on_at_times(&mut self)
        ensures { Still self.old self.new }
    {
        if self.since >= BETWEEN {
            self.at = self.at.wrapping_add(1);
            self.move_on();
        }
    }

    /// The next letter that has come, with its sender's number. Where none has, letters that wait go on their way.
    pub fn fetch(&mut self) -> Option<(u16, Letter)>
        requires few { length self.old.inputs.items ≤ 65536 }
        ensures some { IfSome result (λ taken. Found self.old taken self.new) }
        ensures none { IfNone result (Missed self.old 0 (length self.old.inputs.items) self.new) }
    {
        self.move_on_at_times();
        match self.take_any() {
            Some((from, letter)) => {
                self.at = from;
                self.since = self.since.saturating_add(1);
                Some((from, letter))
            }
            None => {
                self.move_on();
                None
            }
        }
    }

    /// Gives back the tokens that are left. Whether no letter is on its way then, as far as the nodes have told one another.
    pub fn rests(&mut self) -> bool
        ensures { Still self.old self.new }
    {
        self.way.sub(self.tokens);
        self.tokens = 0;
        self.way.is_none()
    }
}
