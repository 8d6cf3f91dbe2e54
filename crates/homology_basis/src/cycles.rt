//! Bases of homology without their cocycles.
ghost use Rattle.std.specs.Prelude.{◌≡◌, ◌<◌, [], length, slice_index_or};
ghost use Rattle.homology_basis.specs.Bases.{in_degree, IsBasisByCycles};

use crate::classes::Classes;
use algebraic_reduction::Log;
use chains::{Chain, Complex};
use std::marker::Model;

/// A basis of the homology of a complex in each degree, by cycles alone. It keeps the log from
/// which it was made, and is seen as the log's complex and steps and the cycles by degree.
#[derive(Drop)]
pub struct CycleBasis<const P: u16> {
    pub(crate) log: Log<P>,
    pub(crate) classes: Classes<P>,
}

impl<const P: u16> Model for CycleBasis<P> {
    ghost use Rattle.homology_basis.specs.Bases.{CyclesOfLog, IsBasisByCycles};
    ghost use Rattle.homology_basis.specs.Classes.{cycles_of};

    ghost Value = { CyclesOfLog };

    ghost view = { λ b. record { log = b.log; cycles = cycles_of b.classes } };

    ghost invariant = { λ b. IsBasisByCycles P (record {
      log = b.log;
      cycles = cycles_of b.classes;
    }) };
}

impl<const P: u16> CycleBasis<P> {
    /// The complex.
    pub fn complex(&self) -> &Complex<P>
        ensures { result.now ≡ self.now.log.complex }
    {
        self.log.complex()
    }

    /// The dimension of the homology in a degree: the number of cycles. Its clauses hand out what
    /// the basis is.
    pub fn dimension(&self, k: u8) -> u32
        ensures dimension { result ≡ length (in_degree self.now.cycles k) }
        ensures basis { IsBasisByCycles P self.now }
    {
        self.classes.of_degree(k).len() as u32
    }

    /// The cycle of a number below the dimension of the degree, counted from 0.
    pub fn cycle(&self, k: u8, j: u32) -> &Chain<P>
        requires { j < length (in_degree self.now.cycles k) }
        ensures { result.now ≡ slice_index_or (in_degree self.now.cycles k) j [] }
    {
        self.classes.of_degree(k)[j as usize].cycle()
    }
}
