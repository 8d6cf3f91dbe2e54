//! Chain complexes.
ghost use Rattle.std.specs.Prelude.{◌≡◌, ◌≢◌, ℕ, ◌+◌, ◌*◌, ◌%◌, ◌<◌, ◌≤◌, ◌^◌, List, [], length, IfOk, OnOk, IfErr, IfSome, IfNone, slice_index, slice_index_or, vec_len};
ghost use Rattle.field_mod.specs.Modular.{Same};
ghost use Rattle.chains.specs.Terms.{coefficient, IsNormal};
ghost use Rattle.chains.specs.ChainComplex.{boundary, incidence, IsMisplaced, IsFirstAt, IsComplex, IsFirst, IsBadDegree, IsNotZero};

use crate::chain::Chain;
use crate::terms::{Terms, sum_terms};
use field_mod::Field;
use smallvec::SmallVec;
use std::alloc::{AllocError, Global};
use std::marker::Model;
use thiserror::Error;

/// A chain complex over the numbers modulo `P`, with the generators `0` to `len - 1`: the degree of
/// each, and its boundary, a chain of generators of one degree less; the boundary of a boundary is
/// 0.
#[derive(Drop)]
pub struct Complex<const P: u16> {
    degrees: Vec<u8>,
    boundaries: Vec<Chain<P>>,
}

impl<const P: u16> Model for Complex<P> {
    ghost use Rattle.chains.specs.ChainComplex.{ChainComplex, IsComplex};

    ghost Value = { ChainComplex };

    ghost view = { λ c. record { degrees = c.degrees.items; boundaries = c.boundaries.items } };

    ghost invariant = { λ c. IsComplex P (record {
      degrees = c.degrees.items;
      boundaries = c.boundaries.items;
    }) };
}

/// Why degrees and boundaries are no chain complex.
#[derive(Clone, Copy, Debug, PartialEq, Eq, Error)]
pub enum ComplexFault {
    /// The boundary of `generator` names `at`, which is absent or not of one degree less.
    #[error("the boundary of generator {generator} names {at}, which is no generator of one degree less")]
    BadDegree { generator: u32, at: u32 },
    /// The boundary of the boundary of `generator` is `value` at `at`.
    #[error("the boundary of the boundary of generator {generator} is {value} at {at}")]
    NotZero { generator: u32, at: u32, value: u16 },
    #[error("memory is wanting")]
    NoMemory,
}

impl<const P: u16> Complex<P> {
    ghost use Rattle.chains.specs.Refusal.{IsRefusal};

    /// The complex with these degrees and boundaries, one of each for each generator, and fewer
    /// than 2^32 of them.
    ///
    /// `BadDegree` comes exactly where a boundary names a generator that is absent or not of one
    /// degree less; else `NotZero` exactly where the boundary of a boundary is not 0. Each is the
    /// first by generator, then by place.
    pub fn new(
        alloc: Global,
        field: Field<P>,
        degrees: Vec<u8>,
        boundaries: Vec<Chain<P>>,
    ) -> Result<Self, ComplexFault>
        requires sizes { vec_len degrees ≡ vec_len boundaries }
        requires short { vec_len boundaries < 2 ^ 32 }
        ensures ok { IfOk result (λ c. (c.degrees ≡ degrees.items)
            × (c.boundaries ≡ boundaries.entry.items) × IsComplex P c) }
        ensures err { IfErr result (IsRefusal P degrees.items boundaries.entry.items) }
    {
        if let Some((generator, at)) = first_bad_degree(&degrees, &boundaries) {
            return Err(ComplexFault::BadDegree { generator, at });
        }
        match first_not_zero(alloc, field, &boundaries) {
            Ok(None) => {}
            Ok(Some((generator, at, value))) => {
                return Err(ComplexFault::NotZero {
                    generator,
                    at,
                    value,
                })
            }
            Err(_) => return Err(ComplexFault::NoMemory),
        }
        Ok(Complex::of(degrees, boundaries))
    }

    /// The complex with these degrees and boundaries, which are known to be a complex. It takes no
    /// memory.
    pub fn of(degrees: Vec<u8>, boundaries: Vec<Chain<P>>) -> Self
        requires { IsComplex P (record { degrees = degrees.items; boundaries = boundaries.items }) }
        ensures degrees { result.degrees ≡ degrees.items }
        ensures boundaries { result.boundaries ≡ boundaries.entry.items }
    {
        Complex {
            degrees,
            boundaries,
        }
    }

    /// How many generators there are.
    pub fn len(&self) -> u32
        ensures count { result ≡ length self.now.boundaries }
        ensures complex { IsComplex P self.now }
    {
        self.boundaries.len() as u32
    }

    /// The degree of a generator below `len`.
    pub fn degree(&self, generator: u32) -> u8
        requires { generator < length self.now.boundaries }
        ensures value { result ≡ slice_index self.now.degrees generator }
    {
        self.degrees[generator as usize]
    }

    /// The boundary of a generator below `len`.
    pub fn boundary(&self, generator: u32) -> &Chain<P>
        requires { generator < length self.now.boundaries }
        ensures value { result.now ≡ slice_index_or self.now.boundaries generator [] }
    {
        &self.boundaries[generator as usize]
    }

    /// The boundary of a chain on this complex.
    pub fn boundary_of(
        &self,
        alloc: Global,
        field: Field<P>,
        chain: &Chain<P>,
    ) -> Result<Chain<P>, AllocError>
        ensures { IfOk result (λ b. (g : ℕ)
            → coefficient b g ≡ boundary self.now.boundaries (coefficient chain.now) g % P) }
    {
        let mut products = SmallVec::new(alloc);
        boundary_in(alloc, field, &self.boundaries, chain, &mut products)
    }

    /// The degrees and the boundaries of the generators. It takes no memory.
    pub fn into_parts(self) -> (Vec<u8>, Vec<Chain<P>>)
        ensures degrees { result.0.items ≡ self.entry.degrees }
        ensures boundaries { result.1.items ≡ self.entry.boundaries }
        ensures complex { IsComplex P self.entry }
    {
        (self.degrees, self.boundaries)
    }
}

// The boundary of a chain. Its products are collected in `products`, whose terms before the call
// don't count.
fn boundary_in<const P: u16>(
    alloc: Global,
    field: Field<P>,
    boundaries: &[Chain<P>],
    chain: &Chain<P>,
    products: &mut Terms,
) -> Result<Chain<P>, AllocError>
    ensures { IfOk result (λ b. (g : ℕ)
        → coefficient b g ≡ boundary boundaries.now (coefficient chain.now) g % P) }
{
    products.clear();
    for index in 0..chain.len() {
        let (generator, number) = chain.term(index);
        let place = generator as usize;
        if place < boundaries.len() {
            push_scaled(field, number, &boundaries[place], products)?;
        }
    }
    Chain::sum(alloc, field, products.as_mut_slice())
}

// Appends the terms of `number` times a chain.
fn push_scaled<const P: u16>(
    field: Field<P>,
    scale: u16,
    chain: &Chain<P>,
    products: &mut Terms,
) -> Result<(), AllocError>
    requires { scale < P }
    ensures { OnOk result ((g : ℕ)
        → Same P (coefficient products.new.items g)
        (coefficient products.old.items g + scale * coefficient chain.now g)) }
{
    for index in 0..chain.len() {
        let (generator, number) = chain.term(index);
        products.push((generator, field.mul(scale, number)))?;
    }
    Ok(())
}

// The first generator that the boundary of `generator` names and that is not of one degree less.
fn misplaced<const P: u16>(degrees: &[u8], generator: usize, chain: &Chain<P>) -> Option<u32>
    requires { generator < length degrees.now }
    ensures some { IfSome result (λ g. IsFirstAt (IsMisplaced degrees.now generator chain.now) g) }
    ensures none { IfNone result ((g : ℕ) → IsMisplaced degrees.now generator chain.now g → ⊥) }
    ensures normal { IsNormal P chain.now }
{
    for i in 0..chain.len() {
        let (at, _) = chain.term(i);
        let place = at as usize;
        if place >= degrees.len() || degrees[place] as u16 + 1 != degrees[generator] as u16 {
            return Some(at);
        }
    }
    None
}

fn first_bad_degree<const P: u16>(degrees: &[u8], boundaries: &[Chain<P>]) -> Option<(u32, u32)>
    requires sizes { length degrees.now ≡ length boundaries.now }
    requires short { length boundaries.now < 2 ^ 32 }
    ensures some { IfSome result (λ e. IsFirst (IsBadDegree degrees.now boundaries.now) e.0 e.1) }
    ensures none { IfNone result ((h g : ℕ) → ¬ IsBadDegree degrees.now boundaries.now h g) }
    ensures normal { IfNone result ((h : ℕ) → h < length boundaries.now
        → IsNormal P (slice_index_or boundaries.now h [])) }
{
    for place in 0..boundaries.len() {
        if let Some(at) = misplaced(degrees, place, &boundaries[place]) {
            return Some((place as u32, at));
        }
    }
    None
}

// The first term of a chain.
fn first_term<const P: u16>(chain: &Chain<P>) -> Option<(u32, u16)>
    ensures some { IfSome result (λ t. IsFirstAt (λ g. coefficient chain.now g ≢ 0) t.0) }
    ensures number { IfSome result (λ t. t.1 ≡ coefficient chain.now t.0) }
    ensures none { IfNone result ((g : ℕ) → coefficient chain.now g ≡ 0) }
{
    if chain.len() == 0 {
        None
    } else {
        Some(chain.term(0))
    }
}

fn first_not_zero<const P: u16>(
    alloc: Global,
    field: Field<P>,
    boundaries: &[Chain<P>],
) -> Result<Option<(u32, u32, u16)>, AllocError>
    requires { length boundaries.now < 2 ^ 32 }
    ensures some { IfOk result (λ o. IfSome o (λ e. IsFirst (IsNotZero P boundaries.now) e.0 e.1)) }
    ensures number { IfOk result (λ o. IfSome o
        (λ e. e.2 ≡ boundary boundaries.now (incidence boundaries.now e.0) e.1 % P)) }
    ensures none { IfOk result (λ o. IfNone o ((h g : ℕ) → h < length boundaries.now
        → Same P (boundary boundaries.now (incidence boundaries.now h) g) 0)) }
{
    let mut products = SmallVec::new(alloc);
    for place in 0..boundaries.len() {
        let twice = boundary_in(alloc, field, boundaries, &boundaries[place], &mut products)?;
        if let Some((at, number)) = first_term(&twice) {
            return Ok(Some((place as u32, at, number)));
        }
    }
    Ok(None)
}
