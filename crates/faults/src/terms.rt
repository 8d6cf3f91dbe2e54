//! Chains as they are printed, which contracts see as lists of terms.
ghost use Rattle.std.specs.Prelude.{◌≡◌};

use elem_cubes::Cell;
use std::marker::Model;

/// The terms of a chain: generators with coefficients, in the order in which they are printed.
#[derive(Debug, Drop)]
pub struct Terms<G> {
    terms: Vec<(G, u16)>,
}

/// A chain of cells.
pub type CellChain = Terms<Cell>;

/// A chain of generators of one degree of a chain file, which are numbered from 1.
pub type GeneratorChain = Terms<u32>;

impl<G> Model for Terms<G> {
    ghost use Rattle.std.specs.Prelude.{List, ℕ};

    ghost Value = { List (G × ℕ) };

    ghost view = { λ t. t.terms.items };
}

impl<G> Terms<G> {
    /// These terms.
    pub fn of(terms: Vec<(G, u16)>) -> Terms<G>
        ensures { result ≡ terms.items }
    {
        Terms { terms }
    }

    /// The terms in order.
    pub fn as_slice(&self) -> &[(G, u16)]
        ensures { result.now ≡ self.now }
    {
        self.terms.as_slice()
    }

    /// Gives the terms back.
    pub fn into_vec(self) -> Vec<(G, u16)>
        ensures { result.items ≡ self }
    {
        self.terms
    }
}
