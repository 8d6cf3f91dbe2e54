//! Bases of homology.
ghost use Rattle.std.specs.Prelude.{◌≡◌, ◌<◌, ℕ, [], IfOk, length, slice_index_or};
ghost use Rattle.field_mod.specs.Modular.{Same};
ghost use Rattle.chains.specs.Terms.{coefficient};
ghost use Rattle.homology_basis.specs.Bases.{in_degree, homotopy_in, IsBasisWithContraction};

use crate::classes::Classes;
use crate::cycles::CycleBasis;
use algebraic_reduction::Log;
use chains::{Chain, Complex};
use field_mod::Field;
use std::alloc::{AllocError as NoMemory, Global};
use std::marker::Model;

/// A basis of the homology of a complex in each degree, with the cocycles dual to it and the
/// contraction of the complex to it. It keeps the log from which it was made, and is seen as the
/// log's complex and steps and the cycles and cocycles by degree.
#[derive(Drop)]
pub struct Basis<const P: u16> {
    pub(crate) log: Log<P>,
    pub(crate) classes: Classes<P>,
}

impl<const P: u16> Model for Basis<P> {
    ghost use Rattle.homology_basis.specs.Bases.{BasisOfLog, IsBasisWithContraction};
    ghost use Rattle.homology_basis.specs.Classes.{cycles_of, cocycles_of};

    ghost Value = { BasisOfLog };

    ghost view = { λ b. record {
      log = b.log;
      cycles = cycles_of b.classes;
      cocycles = cocycles_of b.classes;
    } };

    ghost invariant = { λ b. IsBasisWithContraction P (record {
      log = b.log;
      cycles = cycles_of b.classes;
      cocycles = cocycles_of b.classes;
    }) };
}

impl<const P: u16> Basis<P> {
    /// The complex.
    pub fn complex(&self) -> &Complex<P>
        ensures { result.now ≡ self.now.log.complex }
    {
        self.log.complex()
    }

    /// The dimension of the homology in a degree: the number of cycles. Its clauses hand out what a
    /// basis is.
    pub fn dimension(&self, k: u8) -> u32
        ensures dimension { result ≡ length (in_degree self.now.cycles k) }
        ensures basis { IsBasisWithContraction P self.now }
    {
        self.classes.of_degree(k).len() as u32
    }

    /// The cycle of a number below the dimension of the degree, counted from 0.
    pub fn cycle(&self, k: u8, j: u32) -> &Chain<P>
        requires { j < length (in_degree self.now.cycles k) }
        ensures { result.now ≡ slice_index_or (in_degree self.now.cycles k) j [] }
    {
        self.classes.of_degree(k)[j as usize].cycle()
    }

    /// The cocycle of a number below the dimension of the degree, counted from 0.
    pub fn cocycle(&self, k: u8, j: u32) -> &Chain<P>
        requires { j < length (in_degree self.now.cycles k) }
        ensures { result.now ≡ slice_index_or (in_degree self.now.cocycles k) j [] }
    {
        self.classes.of_degree(k)[j as usize].cocycle()
    }

    /// The same cycles, alone.
    pub fn without_cocycles(self) -> CycleBasis<P>
        ensures { result ≡ record { log = self.entry.log; cycles = self.entry.cycles } }
    {
        let Basis { log, classes } = self;
        CycleBasis { log, classes }
    }

    /// The chain h of a generator. It is made at each call.
    pub fn contraction_row(
        &self,
        alloc: Global,
        field: Field<P>,
        generator: u32,
    ) -> Result<Chain<P>, NoMemory>
        requires { generator < length self.now.log.complex.boundaries }
        ensures { IfOk result (λ c. (x : ℕ)
            → Same P (coefficient c x) (homotopy_in P self.now generator x)) }
    {
        let single = Chain::from_terms(alloc, field, &[(generator, 1)])?;
        let row = self.log.homotopy(alloc, field, &single)?;
        Ok(row)
    }
}
