//! Numbers that are found and changed one place at a time.
ghost use Rattle.std.specs.Prelude.{◌≡◌, ◌≢◌, ℕ, ◌+◌, ◌*◌, ◌%◌, ◌<◌, List, [], length, IfOk, OnOk, IfSome, IfNone, if◌then◌else◌, ◌==◌};
ghost use Rattle.field_mod.specs.Modular.{Same};
ghost use Rattle.chains.specs.Terms.{coefficient, product};

use chains::Chain;
use field_mod::Field;
use std::alloc::{AllocError, Global};
use std::collections::BTreeMap;
use std::marker::Model;

/// Numbers modulo `P` other than 0 at places, seen as the list of the places with their numbers;
/// elsewhere is 0. Each call goes along one path of a tree.
#[derive(Drop)]
pub struct Numbers<const P: u16> {
    kept: BTreeMap<u32, u16>,
}

impl<const P: u16> Model for Numbers<P> {
    ghost use Rattle.std.specs.Prelude.{◌≡◌, ℕ, ◌<◌, List, Some};
    ghost use Rattle.std.specs.Ordering.{nat_cmp};
    ghost use Rattle.std.specs.BTreeMap.{IsOrdered, get};

    ghost Value = { List (ℕ × ℕ) };

    ghost view = { λ n. n.kept.entries };

    ghost invariant = { λ n. record {
      positive : 0 < P;
      ordered : IsOrdered nat_cmp n.kept;
      numbers : (j x : ℕ) → get nat_cmp n.kept j ≡ Some x → (0 < x) × (x < P);
    } };
}

impl<const P: u16> Numbers<P> {
    /// Zero everywhere. It takes no memory; the field tells that 0 is a number modulo `P`.
    pub fn new(alloc: Global, _field: Field<P>) -> Self
        ensures { result ≡ [] }
    {
        Numbers {
            kept: BTreeMap::new(alloc),
        }
    }

    /// The coefficients of a chain.
    pub fn of(alloc: Global, field: Field<P>, chain: &Chain<P>) -> Result<Self, AllocError>
        ensures { IfOk result (λ n. (j : ℕ) → Same P (coefficient n j) (coefficient chain.now j)) }
    {
        let mut numbers = Numbers::new(alloc, field);
        for index in 0..chain.len() {
            let (place, number) = chain.term(index);
            numbers.add(field, place, number)?;
        }
        Ok(numbers)
    }

    /// The number at a place.
    pub fn at(&self, place: u32) -> u16
        ensures value { result ≡ coefficient self.now place }
        ensures below { result < P }
    {
        self.kept.get(&place).copied().unwrap_or(0)
    }

    fn set(&mut self, place: u32, number: u16) -> Result<(), AllocError>
        requires { number < P }
        ensures here { OnOk result (coefficient self.new place ≡ number) }
        ensures others { OnOk result
            ((j : ℕ) → j ≢ place → coefficient self.new j ≡ coefficient self.old j) }
    {
        if number == 0 {
            let _ = self.kept.remove(&place);
        } else {
            let _ = self.kept.insert(place, number)?;
        }
        Ok(())
    }

    /// Adds a number to the one at a place.
    pub fn add(&mut self, field: Field<P>, place: u32, number: u16) -> Result<(), AllocError>
        requires { number < P }
        ensures sum { OnOk result ((j : ℕ) → Same P (coefficient self.new j)
            (coefficient self.old j + (if j == place then number else 0))) }
        ensures others { OnOk result
            ((j : ℕ) → j ≢ place → coefficient self.new j ≡ coefficient self.old j) }
    {
        let sum = field.add(self.at(place), number);
        self.set(place, sum)?;
        Ok(())
    }

    /// Takes out the first place at which a number other than 0 stands, with that number.
    pub fn take_first(&mut self) -> Option<(u32, u16)>
        ensures number { IfSome result (λ t. t.1 ≡ coefficient self.old t.0) }
        ensures nonzero { IfSome result (λ t. 0 < t.1) }
        ensures below { IfSome result (λ t. t.1 < P) }
        ensures others { IfSome result (λ t. (j : ℕ) → j ≢ t.0
            → coefficient self.new j ≡ coefficient self.old j) }
        ensures later { IfSome result (λ t. (j : ℕ) → coefficient self.new j ≢ 0 → t.0 < j) }
        ensures shorter { IfSome result (λ t. length self.new < length self.old) }
        ensures none { IfNone result ((j : ℕ) → coefficient self.old j ≡ 0) }
    {
        self.kept.pop_first()
    }

    /// The product of a chain with the numbers. It looks up as many as the shorter of the two has.
    pub fn product(&self, field: Field<P>, chain: &Chain<P>) -> u16
        ensures below { result < P }
        ensures value { Same P result (product chain.now self.now) }
    {
        if self.kept.len() < chain.len() {
            self.product_by_places(field, chain)
        } else {
            self.product_by_terms(field, chain)
        }
    }

    // The same, going over the terms of the chain.
    fn product_by_terms(&self, field: Field<P>, chain: &Chain<P>) -> u16
        ensures below { result < P }
        ensures value { Same P result (product chain.now self.now) }
    {
        let mut sum = 0;
        for index in 0..chain.len() {
            let (place, number) = chain.term(index);
            sum = field.add(sum, field.mul(number, self.at(place)));
        }
        sum
    }

    // The same, going over the numbers.
    fn product_by_places(&self, field: Field<P>, chain: &Chain<P>) -> u16
        ensures below { result < P }
        ensures value { Same P result (product chain.now self.now) }
    {
        let mut sum = 0;
        for (place, number) in &self.kept {
            sum = field.add(sum, field.mul(chain.coefficient(*place), *number));
        }
        sum
    }
}

/// The chain of numbers.
pub fn chain_of<const P: u16>(
    alloc: Global,
    field: Field<P>,
    numbers: Numbers<P>,
) -> Result<Chain<P>, AllocError>
    ensures { IfOk result (λ c. (g : ℕ) → Same P (coefficient c g) (coefficient numbers.entry g)) }
{
    let mut rest = numbers;
    let mut terms = Vec::new(alloc);
    'taking: while let Some(term) = rest.take_first() {
        terms.push(term)?;
    }
    let chain = Chain::from_terms(alloc, field, &terms)?;
    Ok(chain)
}
