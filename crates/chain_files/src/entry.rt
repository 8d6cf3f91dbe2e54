//! What a chain file says of a boundary.
ghost use Rattle.std.specs.Prelude.{◌≡◌, ◌∷◌, [], ◌++◌, true, OnOk, OnErr};
ghost use Rattle.chain_files.specs.Content.{not_given};

use std::alloc::{AllocError, Global};
use std::marker::Model;

/// Whether the boundary of a generator stands in the file, and its terms.
#[derive(Drop)]
pub(crate) struct Entry {
    given: bool,
    terms: Vec<(u32, u16)>,
}

impl Model for Entry {
    ghost use Rattle.chain_files.specs.Content.{Boundary};

    ghost Value = { Boundary };

    ghost view = { λ e. record { given = e.given; terms = e.terms.items } };
}

impl Entry {
    /// The file says nothing of the boundary.
    pub(crate) fn not_given(alloc: Global) -> Entry
        ensures { result ≡ not_given }
    {
        Entry {
            given: false,
            terms: Vec::new(alloc),
        }
    }

    /// Whether the boundary stands in the file.
    pub(crate) fn is_given(&self) -> bool
        ensures { result ≡ self.now.given }
    {
        self.given
    }

    /// The boundary stands in the file, without terms so far.
    pub(crate) fn given(alloc: Global) -> Entry
        ensures { result ≡ record { given = true; terms = [] } }
    {
        Entry {
            given: true,
            terms: Vec::new(alloc),
        }
    }

    /// One more term: a generator and its coefficient.
    pub(crate) fn push(&mut self, generator: u32, number: u16) -> Result<(), AllocError>
        ensures { OnOk result (self.new ≡ record
            { given = self.old.given; terms = self.old.terms ++ (generator, number) ∷ [] }) }
    {
        self.terms.push((generator, number))?;
        Ok(())
    }

    /// The terms.
    pub(crate) fn terms(&self) -> &[(u32, u16)]
        ensures { result.now ≡ self.now.terms }
    {
        self.terms.as_slice()
    }
}
