//! Lists of generators.
ghost use Rattle.std.specs.Prelude.{◌≡◌, ◌<◌, [], ◌∷◌, ◌++◌, length, slice_index, OnOk, OnErr};

use smallvec::SmallVec;
use std::alloc::{AllocError, Global};
use std::marker::Model;

/// A list of generators, seen as that list. Up to four of them need no allocation.
#[derive(Drop)]
pub struct Generators {
    items: SmallVec<u32, 4>,
}

impl Model for Generators {
    ghost use Rattle.std.specs.Prelude.{ℕ, List};

    ghost Value = { List ℕ };

    ghost view = { λ g. g.items.items };
}

impl Generators {
    /// The empty list. It takes no memory.
    pub fn new(alloc: Global) -> Self
        ensures { result ≡ [] }
    {
        Generators {
            items: SmallVec::new(alloc),
        }
    }

    /// How many there are.
    pub fn len(&self) -> usize
        ensures { result ≡ length self.now }
    {
        self.items.len()
    }

    /// The one at a place below `len`.
    pub fn at(&self, place: usize) -> u32
        requires { place < length self.now }
        ensures { result ≡ slice_index self.now place }
    {
        self.items[place]
    }

    /// One more at the end.
    pub fn push(&mut self, generator: u32) -> Result<(), AllocError>
        ensures ok { OnOk result (self.new ≡ self.old ++ generator ∷ []) }
        ensures err { OnErr result (self.new ≡ self.old) }
    {
        self.items.push(generator)?;
        Ok(())
    }
}
