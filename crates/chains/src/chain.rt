//! Chains.
ghost use Rattle.std.specs.Prelude.{◌≡◌, ℕ, ◌+◌, ◌*◌, ◌%◌, ◌<◌, ◌≤◌, List, [], length, IfOk, OnOk, OnErr, IsTrue, ◌↔◌, slice_index_or};
ghost use Rattle.chains.specs.Terms.{coefficient, product, IsNormal};

use crate::packed::{Packed, no_terms, pack, pack_copy};
use crate::terms::{Terms, are_normal, dot, merge, sum_terms};
use field_mod::Field;
use smallvec::SmallVec;
use std::alloc::{AllocError, Global};
use std::marker::Model;

/// A chain over the numbers modulo `P`: a finite map from generators to coefficients from 1 to
/// `P - 1`. It is seen as the list of its terms by ascending generator, so that equal chains are
/// equal lists. Each call that reads it says that the list is in this normal form. It takes 24
/// bytes; a chain of at most four terms makes no allocation.
#[derive(Drop)]
pub struct Chain<const P: u16> {
    packed: Packed,
    alloc: Global,
}

impl<const P: u16> Model for Chain<P> {
    ghost use Rattle.std.specs.Prelude.{ℕ, List};
    ghost use Rattle.chains.specs.Packed.{kept, IsPacked};

    ghost Value = { List (ℕ × ℕ) };

    ghost view = { λ c. kept c.packed };

    ghost invariant = { λ c. IsPacked P c.packed };
}

impl<const P: u16> Chain<P> {
    /// The chain without terms. It takes no memory.
    pub fn empty(alloc: Global) -> Self
        ensures { result ≡ [] }
    {
        Chain {
            packed: no_terms(),
            alloc,
        }
    }

    /// The sum of the terms, each a generator and a number that is read modulo `P`: numbers beside
    /// the same generator are added, and a generator whose sum is 0 has no term.
    pub fn from_terms(
        alloc: Global,
        field: Field<P>,
        terms: &[(u32, u16)],
    ) -> Result<Self, AllocError>
        ensures normal { IfOk result (IsNormal P) }
        ensures sum { IfOk result (λ c. (g : ℕ) → coefficient c g ≡ coefficient terms.now g % P) }
    {
        if are_normal::<P>(terms) {
            let packed = pack_copy(alloc, field, terms)?;
            return Ok(Chain { packed, alloc });
        }
        let mut unordered: Terms = SmallVec::from_slice(alloc, terms)?;
        Chain::sum(alloc, field, unordered.as_mut_slice())
    }

    /// The same, by an order of the terms in place.
    pub(crate) fn sum(
        alloc: Global,
        field: Field<P>,
        terms: &mut [(u32, u16)],
    ) -> Result<Self, AllocError>
        ensures normal { IfOk result (IsNormal P) }
        ensures sum { IfOk result (λ c. (g : ℕ) → coefficient c g ≡ coefficient terms.old g % P) }
    {
        let terms = sum_terms(alloc, field, terms)?;
        let packed = pack(alloc, field, terms)?;
        Ok(Chain { packed, alloc })
    }

    /// Adds `scale` times the other chain, for a number `scale` below `P`. Where memory is wanting
    /// the chain stays as it was.
    pub fn add_scaled(
        &mut self,
        field: Field<P>,
        scale: u16,
        other: &Chain<P>,
    ) -> Result<(), AllocError>
        requires { scale < P }
        ensures normal { IsNormal P self.new }
        ensures sum { OnOk result ((g : ℕ)
            → coefficient self.new g
            ≡ (coefficient self.old g + scale * coefficient other.now g) % P) }
        ensures err { OnErr result (self.new ≡ self.old) }
    {
        let left = self.packed.open();
        let right = other.packed.open();
        let merged = merge(self.alloc, field, left.as_slice(), scale, right.as_slice())?;
        self.packed = pack(self.alloc, field, merged)?;
        Ok(())
    }

    /// The same chain once more.
    pub fn copy(&self, alloc: Global) -> Result<Self, AllocError>
        ensures { IfOk result (λ c. c ≡ self.now) }
    {
        let packed = self.packed.copy(alloc)?;
        Ok(Chain { packed, alloc })
    }

    /// The coefficient of a generator, 0 where it has no term.
    pub fn coefficient(&self, generator: u32) -> u16
        ensures value { result ≡ coefficient self.now generator }
        ensures normal { IsNormal P self.now }
    {
        let opened = self.packed.open();
        let terms = opened.as_slice();
        match terms.binary_search_by_key(&generator, |term| term.0) {
            Ok(place) => terms[place].1,
            Err(_) => 0,
        }
    }

    /// The product of two chains: the sum of the products of their coefficients.
    pub fn dot(&self, field: Field<P>, other: &Chain<P>) -> u16
        ensures below { result < P }
        ensures value { result ≡ product self.now other.now % P }
    {
        let left = self.packed.open();
        let right = other.packed.open();
        dot(field, left.as_slice(), right.as_slice())
    }

    /// How many terms there are.
    pub fn len(&self) -> usize
        ensures count { result ≡ length self.now }
        ensures normal { IsNormal P self.now }
    {
        self.packed.len()
    }

    /// Whether this is the chain without terms.
    pub fn is_empty(&self) -> bool
        ensures empty { IsTrue result ↔ (self.now ≡ []) }
        ensures normal { IsNormal P self.now }
    {
        self.packed.len() == 0
    }

    /// The term at a place below `len`, by ascending generator: the generator and its coefficient.
    pub fn term(&self, place: usize) -> (u32, u16)
        requires { place < length self.now }
        ensures value { result ≡ slice_index_or self.now place (0, 0) }
        ensures nonzero { 0 < result.1 }
        ensures below { result.1 < P }
        ensures alone { coefficient self.now result.0 ≡ result.1 }
    {
        self.packed.term(place)
    }

    /// The terms by ascending generator, as a list.
    pub fn to_vec(&self, alloc: Global) -> Result<Vec<(u32, u16)>, AllocError>
        ensures { IfOk result (λ terms. terms.items ≡ self.now) }
    {
        let opened = self.packed.open();
        Vec::from_slice(alloc, opened.as_slice())
    }
}
