//! Lists of terms: the merge of two in normal form, and the sum of one in which generators stand in
//! any order.
ghost use Rattle.std.specs.Prelude.{◌≡◌, ℕ, ◌+◌, ◌*◌, ◌%◌, ◌<◌, ◌≤◌, length, OnOk, IfOk, IsTrue};
ghost use Rattle.std.specs.List.Sorted.{IsNonDecreasingBy};
ghost use Rattle.chains.specs.Terms.{coefficient, product, IsNormal, push_term};

use field_mod::Field;
use smallvec::SmallVec;
use std::alloc::{AllocError, Global};

/// Terms, each a generator and its coefficient. Up to eight of them need no allocation.
pub type Terms = SmallVec<(u32, u16), 8>;

// One more term, but for a coefficient that is 0.
fn push_term(terms: &mut Terms, generator: u32, number: u16) -> Result<(), AllocError>
    ensures { OnOk result (terms.new.items ≡ push_term terms.old.items generator number) }
{
    if number != 0 {
        terms.push((generator, number))?;
    }
    Ok(())
}

/// The left terms, and `scale` times the right ones.
pub fn merge<const P: u16>(
    alloc: Global,
    field: Field<P>,
    left: &[(u32, u16)],
    scale: u16,
    right: &[(u32, u16)],
) -> Result<Terms, AllocError>
    requires scale { scale < P }
    requires left { IsNormal P left.now }
    requires right { IsNormal P right.now }
    ensures normal { IfOk result (λ v. IsNormal P v.items) }
    ensures sum { IfOk result (λ v. (g : ℕ)
        → coefficient v.items g ≡ (coefficient left.now g + scale * coefficient right.now g) % P) }
{
    let mut merged = SmallVec::new(alloc);
    let mut i = 0;
    let mut j = 0;
    'both: while i < left.len() && j < right.len() {
        if left[i].0 < right[j].0 {
            push_term(&mut merged, left[i].0, left[i].1)?;
            i += 1;
        } else if right[j].0 < left[i].0 {
            push_term(&mut merged, right[j].0, field.mul(scale, right[j].1))?;
            j += 1;
        } else {
            let number = field.add(left[i].1, field.mul(scale, right[j].1));
            push_term(&mut merged, left[i].0, number)?;
            i += 1;
            j += 1;
        }
    }
    'left: while i < left.len() {
        push_term(&mut merged, left[i].0, left[i].1)?;
        i += 1;
    }
    'right: while j < right.len() {
        push_term(&mut merged, right[j].0, field.mul(scale, right[j].1))?;
        j += 1;
    }
    Ok(merged)
}

/// The sum of the products of the coefficients, by a walk along both lists.
pub fn dot<const P: u16>(field: Field<P>, left: &[(u32, u16)], right: &[(u32, u16)]) -> u16
    requires left { IsNormal P left.now }
    requires right { IsNormal P right.now }
    ensures below { result < P }
    ensures value { result ≡ product left.now right.now % P }
{
    let mut sum = 0;
    let mut i = 0;
    let mut j = 0;
    'both: while i < left.len() && j < right.len() {
        if left[i].0 < right[j].0 {
            i += 1;
        } else if right[j].0 < left[i].0 {
            j += 1;
        } else {
            sum = field.add(sum, field.mul(left[i].1, right[j].1));
            i += 1;
            j += 1;
        }
    }
    sum
}

/// Whether terms are in normal form.
pub fn are_normal<const P: u16>(terms: &[(u32, u16)]) -> bool
    ensures { IsTrue result → IsNormal P terms.now }
{
    let mut least: u64 = 0;
    for (generator, number) in terms {
        if u64::from(*generator) < least || *number == 0 || *number >= P {
            return false;
        }
        least = u64::from(*generator) + 1;
    }
    true
}

fn sort_terms(terms: &mut [(u32, u16)])
    ensures sorted { IsNonDecreasingBy (λ t. t.0) terms.new }
    ensures same { (g : ℕ) → coefficient terms.new g ≡ coefficient terms.old g }
{
    terms.sort_unstable_by_key(|term| term.0);
}

// Adds up the terms of each generator, where equal generators stand together.
fn sum_sorted<const P: u16>(
    alloc: Global,
    field: Field<P>,
    terms: &[(u32, u16)],
) -> Result<Terms, AllocError>
    requires { IsNonDecreasingBy (λ t. t.0) terms.now }
    ensures normal { IfOk result (λ v. IsNormal P v.items) }
    ensures sum { IfOk result (λ v. (g : ℕ) → coefficient v.items g ≡ coefficient terms.now g % P) }
{
    let mut sums = SmallVec::new(alloc);
    let mut generator = 0;
    let mut number = 0;
    for (next, more) in terms {
        if *next != generator {
            push_term(&mut sums, generator, number)?;
            generator = *next;
            number = 0;
        }
        number = field.add(number, *more % P);
    }
    push_term(&mut sums, generator, number)?;
    Ok(sums)
}

/// The sum of the terms, in which a generator may stand more than once. The terms are left in
/// order.
pub fn sum_terms<const P: u16>(
    alloc: Global,
    field: Field<P>,
    terms: &mut [(u32, u16)],
) -> Result<Terms, AllocError>
    ensures normal { IfOk result (λ v. IsNormal P v.items) }
    ensures sum { IfOk result (λ v. (g : ℕ) → coefficient v.items g ≡ coefficient terms.old g % P) }
{
    sort_terms(terms);
    sum_sorted(alloc, field, terms)
}
