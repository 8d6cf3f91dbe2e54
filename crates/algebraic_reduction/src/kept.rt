//! What a log keeps of a step.
ghost use Rattle.std.specs.Prelude.{◌≡◌, ◌<◌};
ghost use Rattle.chains.specs.Terms.{IsNormal};

use chains::Chain;
use std::marker::Model;

/// A step with what the maps need of it: its two generators, the inverse of their incidence number,
/// and the boundary of b when the step was made (its row).
#[derive(Drop)]
pub struct Kept<const P: u16> {
    row: Chain<P>,
    a: u32,
    b: u32,
    inverse: u16,
}

impl<const P: u16> Model for Kept<P> {
    ghost use Rattle.std.specs.Prelude.{◌<◌};
    ghost use Rattle.chains.specs.Terms.{IsNormal};
    ghost use Rattle.algebraic_reduction.specs.Kept.{KeptStep};

    ghost Value = { KeptStep };

    ghost view = { λ k. record {
      step = record { a = k.a; b = k.b; inverse = k.inverse };
      row = k.row;
    } };

    ghost invariant = { λ k. record { inverse : k.inverse < P; row : IsNormal P k.row } };
}

impl<const P: u16> Kept<P> {
    /// The step of a and b with the inverse of their incidence number, and its row.
    pub fn new(a: u32, b: u32, inverse: u16, row: Chain<P>) -> Self
        requires inverse { inverse < P }
        requires row { IsNormal P row }
        ensures { result ≡ record {
          step = record { a = a; b = b; inverse = inverse };
          row = row.entry;
        } }
    {
        Kept { row, a, b, inverse }
    }

    /// The generator whose boundary the step takes.
    pub fn a(&self) -> u32
        ensures { result ≡ self.now.step.a }
    {
        self.a
    }

    /// The generator of one degree more.
    pub fn b(&self) -> u32
        ensures { result ≡ self.now.step.b }
    {
        self.b
    }

    /// The inverse of their incidence number.
    pub fn inverse(&self) -> u16
        ensures value { result ≡ self.now.step.inverse }
        ensures below { result < P }
    {
        self.inverse
    }

    /// The boundary of b when the step was made.
    pub fn row(&self) -> &Chain<P>
        ensures value { result.now ≡ self.now.row }
        ensures normal { IsNormal P self.now.row }
    {
        &self.row
    }
}
