//! Lists of terms that grow.
ghost use Rattle.std.specs.Prelude.{◌≡◌, ◌≢◌, ℕ, ◌<◌, ◌++◌, ◌∷◌, [], length, slice_index_or, IfOk, OnOk};

use std::alloc::{AllocError, Global};
use std::marker::Model;

/// Lists of terms, each a generator and a number; seen as these lists.
#[derive(Drop)]
pub struct Gathered {
    lists: Vec<Vec<(u32, u16)>>,
}

impl Model for Gathered {
    ghost use Rattle.std.specs.Prelude.{List, ℕ, map};

    ghost Value = { List (List (ℕ × ℕ)) };

    ghost view = { λ g. map (λ l. l.items) g.lists.items };
}

impl Gathered {
    /// So many lists without terms.
    pub fn none(alloc: Global, count: u32) -> Result<Gathered, AllocError>
        ensures count { IfOk result (λ g. length g ≡ count) }
        ensures empty { IfOk result (λ g. (n : ℕ) → slice_index_or g n [] ≡ []) }
    {
        let mut lists = Vec::with_capacity(alloc, count as usize)?;
        for _ in 0..count {
            lists.push(Vec::new(alloc))?;
        }
        Ok(Gathered { lists })
    }

    /// How many lists there are.
    pub fn len(&self) -> usize
        ensures { result ≡ length self.now }
    {
        self.lists.len()
    }

    /// One more term of a list.
    pub fn push(&mut self, list: u32, generator: u32, number: u16) -> Result<(), AllocError>
        requires { list < length self.old }
        ensures count { OnOk result (length self.new ≡ length self.old) }
        ensures here { OnOk result (slice_index_or self.new list []
            ≡ slice_index_or self.old list [] ++ (generator, number) ∷ []) }
        ensures others { OnOk result ((n : ℕ) → n ≢ list
            → slice_index_or self.new n [] ≡ slice_index_or self.old n []) }
    {
        self.lists[list as usize].push((generator, number))?;
        Ok(())
    }

    /// The terms of a list.
    pub fn list(&self, list: usize) -> &[(u32, u16)]
        requires { list < length self.now }
        ensures { result.now ≡ slice_index_or self.now list [] }
    {
        self.lists[list].as_slice()
    }
}
