//! Names by their places, and their places by name.

ghost use Rattle.std.specs.Prelude.{◌≡◌, ◌++◌, ◌∷◌, ℕ, [], List, map, None, length, ◌<◌, OnOk, IfSome};
ghost use Rattle.raid_pieces.specs.Names.{place_of};

use indexmap::IndexSet;
use std::alloc::{AllocFailed, Global};
use std::marker::Model;

/// Names, no two of them equal, in the order in which they were pushed. They are lent, not copied.
#[derive(Drop)]
pub struct Names<'a> {
    set: IndexSet<&'a [u8]>,
}

impl<'a> Model for Names<'a> {
    ghost use Rattle.std.specs.Prelude.{List, ℕ, map};

    ghost Value = { List (List ℕ) };

    ghost view = { λ n. map (λ k. k.now) n.set.keys };
}

impl<'a> Names<'a> {
    /// No name.
    pub fn new(alloc: Global) -> Self
        ensures { result ≡ [] }
    {
        Names {
            set: IndexSet::new(alloc),
        }
    }

    /// The place of a name, counted from 0; None where it isn't among the names.
    pub fn place_of(&self, name: &'a [u8]) -> Option<usize>
        ensures place { result ≡ place_of self.now name.now }
        ensures within { IfSome result (λ k. k < length self.now) }
    {
        self.set.get_index_of(&name)
    }

    /// Adds a name that isn't among the names.
    pub fn push(&mut self, name: &'a [u8]) -> Result<(), AllocFailed<&'a [u8]>>
        requires { place_of self.old name.now ≡ None }
        ensures { OnOk result (self.new ≡ self.old ++ name.now ∷ []) }
    {
        self.set.insert(name)?;
        Ok(())
    }
}
