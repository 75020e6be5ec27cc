ghost use Rattle.std.specs.Prelude.{◌≡◌, ◌<◌, [], ◌∷◌, ◌++◌, length, Some, slice_get, OnOk, OnErr, map};
ghost use Rattle.std.specs.String.{string_bytes};

use raid_base::NoMemory;
use std::alloc::Global;
use std::marker::Model;

/// The words of a command line, without the program's own name. Contracts see each word as its bytes.
#[derive(Drop, Debug)]
pub struct Words {
    held: Vec<String>,
}

impl Model for Words {
    ghost use Rattle.std.specs.Prelude.{List, ℕ, map};
    ghost use Rattle.std.specs.String.{string_bytes};

    ghost Value = { List (List ℕ) };

    ghost view = { λ w. map string_bytes w.held.items };
}

impl Words {
    /// No words.
    pub fn new(alloc: Global) -> Words
        ensures { result ≡ [] }
    {
        Words {
            held: Vec::new(alloc),
        }
    }

    /// Adds a word at the end. After want of memory the words are as they were.
    pub fn push(&mut self, word: String) -> Result<(), NoMemory>
        ensures ok { OnOk result (self.new ≡ self.old ++ string_bytes word ∷ []) }
        ensures err { OnErr result (self.new ≡ self.old) }
    {
        self.held.push(word)?;
        Ok(())
    }

    /// How many words there are.
    pub fn len(&self) -> usize
        ensures { result ≡ length self.now }
    {
        self.held.len()
    }

    /// The word at a place, counted from 0, lent as its bytes.
    pub fn get(&self, k: usize) -> &[u8]
        requires { k < length self.now }
        ensures { slice_get self.now k ≡ Some result.now }
    {
        self.held[k].as_bytes()
    }

    /// All words, lent in order.
    pub(crate) fn as_slice(&self) -> &[String]
        ensures { map string_bytes result.now ≡ self.now }
    {
        self.held.as_slice()
    }
}
