ghost use Rattle.std.specs.Prelude.{◌≡◌, ◌<◌, ◌++◌, ◌∷◌, [], None, length, OnOk, IfSome};
ghost use Rattle.raid_text.specs.Names.{place_of};

use indexmap::IndexSet;
use raid_base::NoMemory;
use std::alloc::Global;
use std::marker::Model;

/// The names of the items so far, in order; the text lends them. There are at most 1,024.
#[derive(Drop)]
pub struct Names<'a> {
    set: IndexSet<&'a [u8]>,
}

impl<'a> Model for Names<'a> {
    ghost use Rattle.std.specs.Prelude.{List, ℕ, map, length, ◌≤◌};

    ghost Value = { List (List ℕ) };

    ghost view = { λ n. map (λ k. k.now) n.set.keys };

    ghost invariant = { λ n. length n.set.keys ≤ 1024 };
}

impl<'a> Names<'a> {
    /// No names.
    pub fn new(alloc: Global) -> Self
        ensures { result ≡ [] }
    {
        Names {
            set: IndexSet::new(alloc),
        }
    }

    /// The place of a name, counted from 0.
    pub fn place_of(&self, name: &'a [u8]) -> Option<usize>
        ensures place { result ≡ place_of self.now name.now }
        ensures few { IfSome result (λ place. place < 1024) }
    {
        self.set.get_index_of(&name)
    }

    /// Adds a name that isn't among them at the end.
    pub fn push(&mut self, name: &'a [u8]) -> Result<(), NoMemory>
        requires few { length self.old < 1024 }
        requires new { place_of self.old name.now ≡ None }
        ensures { OnOk result (self.new ≡ self.old ++ name.now ∷ []) }
    {
        self.set.insert(name)?;
        Ok(())
    }
}
