//! The log of reduced pairs.
ghost use Rattle.std.specs.Prelude.{◌≡◌, ◌<◌, ◌↔◌, [], length, IfOk, IsTrue, Some, slice_get};
ghost use Rattle.field_mod.specs.Modular.{NonZero};
ghost use Rattle.field_mod.specs.Moduli.{IsModulus};
ghost use Rattle.chains.specs.Terms.{coefficient};
ghost use Rattle.chains.specs.ChainComplex.{IsComplex};
ghost use Rattle.algebraic_reduction.specs.Reduction.{IsOnLeft, IsUnpaired};
ghost use Rattle.algebraic_reduction.specs.Laws.{AreStepsOf, left_of, IsReduction, NothingLeft};
ghost use Rattle.algebraic_reduction.specs.LogWords.{pairs, IsOneMore, AreFurther, Gives, left_at, projection, inclusion, homotopy_at, IsTransposed, IsSamePast};

use crate::descending::{left_boundary, project};
use crate::generators::Generators;
use crate::maps;
use crate::naming::name_rows;
use crate::parts::{Parts, place_of, start_parts, take_row};
use crate::reducing::reduce_parts;
use chains::{Chain, Complex};
use field_mod::Field;
use std::alloc::{AllocError, Global};
use std::marker::Model;

/// A complex with the list of the pairs by which it was reduced. It is seen as the complex, as it
/// was at the start, and the list of the steps. Kept are the rows of the steps alone; the index of
/// the rows is empty until it is asked for.
#[derive(Drop)]
pub struct Log<const P: u16> {
    parts: Parts<P>,
    names: Vec<Generators>,
    alloc: Global,
}

impl<const P: u16> Model for Log<P> {
    ghost use Rattle.algebraic_reduction.specs.Kept.{steps_of};
    ghost use Rattle.algebraic_reduction.specs.State.{IsLog};
    ghost use Rattle.algebraic_reduction.specs.LogWords.{Reduced};

    ghost Value = { Reduced };

    ghost view = { λ l. record {
      complex = l.parts.complex;
      steps = steps_of l.parts.steps.items;
    } };

    ghost invariant = { λ l. IsLog P l.parts.complex l.parts.places.items l.parts.steps.items
        l.names.items };
}

impl<const P: u16> Log<P> {
    /// The log of a complex, without steps.
    pub fn start(alloc: Global, complex: Complex<P>) -> Result<Log<P>, AllocError>
        ensures { IfOk result (λ l. (l.complex ≡ complex.entry) × (l.steps ≡ [])) }
    {
        let parts = start_parts(alloc, complex)?;
        Ok(Log {
            parts,
            names: Vec::new(alloc),
            alloc,
        })
    }

    /// The complex, as it was at the start.
    pub fn complex(&self) -> &Complex<P>
        ensures { result.now ≡ self.now.complex }
    {
        &self.parts.complex
    }

    /// Whether a generator of the complex is in no step.
    pub fn alive(&self, generator: u32) -> bool
        requires { generator < length self.now.complex.boundaries }
        ensures { IsTrue result ↔ IsUnpaired self.now.steps generator }
    {
        place_of(&self.parts.places, generator).is_none()
    }

    /// What the steps leave of the boundary of a generator that is in none, at the cost of the
    /// steps that its boundary meets.
    pub fn left_boundary(
        &self,
        alloc: Global,
        field: Field<P>,
        generator: u32,
    ) -> Result<Chain<P>, AllocError>
        requires inside { generator < length self.now.complex.boundaries }
        requires alive { IsUnpaired self.now.steps generator }
        ensures { IfOk result (λ c. Gives P c (left_at P self.now generator)) }
    {
        left_boundary(&self.parts, alloc, field, generator)
    }

    /// How many steps there are. Its clauses hand out what a log is: a complex, a list of steps
    /// that may be made on it, and so a reduction of it.
    pub fn step_count(&self) -> u32
        ensures count { result ≡ length self.now.steps }
        ensures complex { IsComplex P self.now.complex }
        ensures steps { AreStepsOf P self.now.complex self.now.steps }
        ensures reduction { IsModulus P → IsReduction P self.now.complex self.now.steps }
    {
        self.parts.steps.len() as u32
    }

    /// The pair of the step at a place below the count, a and then b.
    pub fn step(&self, place: u32) -> (u32, u32)
        requires { place < length self.now.steps }
        ensures { slice_get (pairs self.now.steps) place ≡ Some result }
    {
        let step = &self.parts.steps[place as usize];
        (step.a(), step.b())
    }

    /// One more step, by the pair of a and b, which are in none and whose incidence number in what
    /// is left is not 0. Where memory is wanting the log is consumed.
    pub fn reduce_pair(self, field: Field<P>, a: u32, b: u32) -> Result<Log<P>, AllocError>
        requires a_alive { (a < length self.complex.boundaries) × IsUnpaired self.steps a }
        requires b_alive { (b < length self.complex.boundaries) × IsUnpaired self.steps b }
        requires incident { NonZero P (left_of P self.complex self.steps b a) }
        ensures complex { IfOk result (λ l. l.complex ≡ self.entry.complex) }
        ensures one_more { IfOk result (λ l. IsOneMore self.entry.steps l.steps a b) }
    {
        let Log {
            mut parts,
            names,
            alloc,
        } = self;
        drop(names);
        let row = left_boundary(&parts, alloc, field, b)?;
        take_row(&mut parts, field, a, b, row)?;
        Ok(Log {
            parts,
            names: Vec::new(alloc),
            alloc,
        })
    }

    /// Further steps, until no boundary is left. Where memory is wanting the log is consumed.
    pub fn reduce_all(self, field: Field<P>) -> Result<Log<P>, AllocError>
        ensures complex { IfOk result (λ l. l.complex ≡ self.entry.complex) }
        ensures further { IfOk result (λ l. AreFurther self.entry.steps l.steps) }
        ensures nothing_left { IfOk result (λ l. NothingLeft P l.complex l.steps) }
    {
        let Log {
            mut parts,
            names,
            alloc,
        } = self;
        drop(names);
        reduce_parts(&mut parts, alloc, field)?;
        Ok(Log {
            parts,
            names: Vec::new(alloc),
            alloc,
        })
    }

    /// The same log with the index of its rows, by which transposed projections cost no more than
    /// the steps in whose rows their chains stand. Further steps drop it. Where memory is wanting
    /// the log is consumed.
    pub fn index_rows(self) -> Result<Log<P>, AllocError>
        ensures { IfOk result (λ l. l ≡ self.entry) }
    {
        let Log {
            parts,
            names,
            alloc,
        } = self;
        drop(names);
        let names = name_rows(alloc, &parts.steps, parts.complex.len())?;
        Ok(Log {
            parts,
            names,
            alloc,
        })
    }

    /// The projection of a chain to what is left. Its cost is that of the steps that the chain
    /// meets.
    pub fn project(
        &self,
        alloc: Global,
        field: Field<P>,
        chain: &Chain<P>,
    ) -> Result<Chain<P>, AllocError>
        ensures { IfOk result (λ c. Gives P c (projection P self.now chain.now)) }
    {
        project(&self.parts, alloc, field, chain)
    }

    /// The inclusion of a chain on what is left, at the cost of the steps that its boundary meets.
    pub fn include(
        &self,
        alloc: Global,
        field: Field<P>,
        chain: &Chain<P>,
    ) -> Result<Chain<P>, AllocError>
        requires { IsOnLeft P self.now.steps (coefficient chain.now) }
        ensures { IfOk result (λ c. Gives P c (inclusion P self.now chain.now)) }
    {
        maps::include(&self.parts, alloc, field, chain)
    }

    /// The homotopy of a chain, at the cost of the steps that it meets.
    pub fn homotopy(
        &self,
        alloc: Global,
        field: Field<P>,
        chain: &Chain<P>,
    ) -> Result<Chain<P>, AllocError>
        ensures { IfOk result (λ c. Gives P c (homotopy_at P self.now chain.now)) }
    {
        maps::homotopy(&self.parts, alloc, field, chain)
    }

    /// The transposed projection of a chain: the chain whose coefficient at a generator is the
    /// product of the given one with the projection of the generator. Past the generators it is the
    /// given chain. With the index of the rows its cost is that of the steps in whose rows it
    /// stands; without it, the index is made for this call.
    pub fn transposed_projection(
        &self,
        alloc: Global,
        field: Field<P>,
        chain: &Chain<P>,
    ) -> Result<Chain<P>, AllocError>
        ensures value { IfOk result (λ c. IsTransposed P self.now chain.now c) }
        ensures past { IfOk result (λ c. IsSamePast P self.now chain.now c) }
    {
        if self.names.len() == self.parts.complex.len() as usize {
            return maps::transposed_projection(&self.parts, &self.names, alloc, field, chain);
        }
        let names = name_rows(alloc, &self.parts.steps, self.parts.complex.len())?;
        maps::transposed_projection(&self.parts, &names, alloc, field, chain)
    }
}
