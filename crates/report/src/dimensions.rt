//! Dimensions and ranks by degree, which contracts see as a list of numbers.
ghost use Rattle.std.specs.Prelude.{◌≡◌};

use std::marker::Model;

/// Dimensions over the chosen field, by degree from 0: of homology groups, or of the images of a
/// map, which are its ranks.
#[derive(Debug, Drop)]
pub struct Dimensions {
    by_degree: Vec<u32>,
}

impl Model for Dimensions {
    ghost use Rattle.std.specs.Prelude.{List, ℕ};

    ghost Value = { List ℕ };

    ghost view = { λ d. d.by_degree.items };
}

impl Dimensions {
    /// These numbers as dimensions.
    pub fn of(by_degree: Vec<u32>) -> Dimensions
        ensures { result ≡ by_degree.items }
    {
        Dimensions { by_degree }
    }

    /// The numbers, by degree from 0.
    pub fn as_slice(&self) -> &[u32]
        ensures { result.now ≡ self.now }
    {
        self.by_degree.as_slice()
    }

    /// Gives the numbers back.
    pub fn into_vec(self) -> Vec<u32>
        ensures { result.items ≡ self }
    {
        self.by_degree
    }
}
