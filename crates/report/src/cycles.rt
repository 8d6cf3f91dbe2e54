//! Cycles by degree, which contracts see as a list of lists of chains.
ghost use Rattle.std.specs.Prelude.{◌≡◌, [], map, get_or};

use faults::Terms;
use std::marker::Model;

/// The cycles of a basis in each degree, by degree from 0.
#[derive(Drop)]
pub struct Cycles<G> {
    by_degree: Vec<Vec<Terms<G>>>,
}

impl<G> Model for Cycles<G> {
    ghost use Rattle.std.specs.Prelude.{List, ℕ, map};

    ghost Value = { List (List (List (G × ℕ))) };

    ghost view = { λ c. map (λ cycles. cycles.items) c.by_degree.items };
}

impl<G> Cycles<G> {
    /// These lists of cycles, by degree from 0.
    pub fn of(by_degree: Vec<Vec<Terms<G>>>) -> Cycles<G>
        ensures { result ≡ map (λ cycles. cycles.items) by_degree.items }
    {
        Cycles { by_degree }
    }

    /// The cycles of a degree; there are none past the last list.
    pub fn of_degree(&self, degree: usize) -> &[Terms<G>]
        ensures { result.now ≡ get_or self.now degree [] }
    {
        match self.by_degree.get(degree) {
            Some(cycles) => cycles.as_slice(),
            None => &[],
        }
    }

    /// Gives the lists back.
    pub fn into_vec(self) -> Vec<Vec<Terms<G>>>
        ensures { map (λ cycles. cycles.items) result.items ≡ self }
    {
        self.by_degree
    }
}
