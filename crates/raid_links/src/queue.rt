ghost use Rattle.std.specs.Prelude.{◌≡◌, ◌==◌, List, [], ◌∷◌, ◌++◌, length, drop, slice_get, OnOk, OnErr};

use raid_base::NoMemory;
use raid_message::Letter;
use std::alloc::Global;
use std::collections::VecDeque;
use std::marker::Model;

/// The letters on one link, front first. Contracts see their list.
#[derive(Drop, Debug)]
pub struct Queue {
    letters: VecDeque<Letter>,
}

impl Model for Queue {
    ghost use Rattle.std.specs.Prelude.{List};
    ghost use Rattle.raid_message.specs.declared.letter.Letter.{Letter};

    ghost Value = { List Letter };

    ghost view = { λ q. q.letters.items };
}

impl Queue {
    /// The empty link.
    pub fn new(alloc: Global) -> Queue
        ensures { result ≡ [] }
    {
        Queue {
            letters: VecDeque::new(alloc),
        }
    }

    /// Whether no letter is on it.
    pub fn is_empty(&self) -> bool
        ensures { result ≡ (length self.now == 0) }
    {
        self.letters.is_empty()
    }

    /// Puts a letter at the end. After want of memory the link is as it was.
    pub fn push(&mut self, letter: Letter) -> Result<(), NoMemory>
        ensures ok { OnOk result (self.new ≡ self.old ++ letter ∷ []) }
        ensures err { OnErr result (self.new ≡ self.old) }
    {
        self.letters.push_back(letter)?;
        Ok(())
    }

    /// Takes the front letter; None exactly where there is none.
    pub fn pop(&mut self) -> Option<Letter>
        ensures front { result ≡ slice_get self.old 0 }
        ensures rest { self.new ≡ drop 1 self.old }
    {
        self.letters.pop_front()
    }
}
