//! Tests of sums of chains.
ghost use Rattle.std.specs.Prelude.{◌≡◌, ℕ, ◌+◌, ◌↔◌, ◌∷◌, [], IfOk, IsTrue};
ghost use Rattle.field_mod.specs.Modular.{Same};
ghost use Rattle.chains.specs.Terms.{coefficient, IsNormal};
ghost use Rattle.algebraic_reduction.specs.Reduction.{single};
ghost use Rattle.witness_sections.specs.Readings.{IsNoneBy, IsDualBy};

use chain_lists::combined;
use chains::{Chain, Complex};
use field_mod::Field;
use std::alloc::{AllocError, Global};

// Whether a chain is one generator with the coefficient 1.
fn is_single<const P: u16>(chain: &Chain<P>, generator: u32) -> bool
    ensures single { IsTrue result ↔ (chain.now ≡ (generator, 1) ∷ []) }
    ensures normal { IsNormal P chain.now }
{
    if chain.len() != 1 {
        return false;
    }
    let (first, number) = chain.term(0);
    first == generator && number == 1
}

/// Whether the boundary of a chain is empty.
pub(crate) fn is_closed<const P: u16>(
    alloc: Global,
    field: Field<P>,
    complex: &Complex<P>,
    chain: &Chain<P>,
) -> Result<bool, AllocError>
    ensures { IfOk result (λ b. IsTrue b ↔ IsNoneBy P complex.now.boundaries chain.now) }
{
    let boundary = complex.boundary_of(alloc, field, chain)?;
    Ok(boundary.is_empty())
}

/// Whether the sum of chains, each times its coefficient, is 0.
pub(crate) fn is_none<const P: u16>(
    alloc: Global,
    field: Field<P>,
    chains: &[Chain<P>],
    coefficients: &Chain<P>,
) -> Result<bool, AllocError>
    ensures { IfOk result (λ b. IsTrue b ↔ IsNoneBy P chains.now coefficients.now) }
{
    let sum = combined(alloc, field, chains, coefficients)?;
    Ok(sum.is_empty())
}

/// Whether that sum is one generator with the coefficient 1.
pub(crate) fn is_dual<const P: u16>(
    alloc: Global,
    field: Field<P>,
    chains: &[Chain<P>],
    coefficients: &Chain<P>,
    generator: u32,
) -> Result<bool, AllocError>
    ensures { IfOk result (λ b. IsTrue b ↔ IsDualBy P chains.now coefficients.now generator) }
{
    let sum = combined(alloc, field, chains, coefficients)?;
    Ok(is_single(&sum, generator))
}

/// Whether the sum of three chains is one generator with the coefficient 1.
pub fn is_sum<const P: u16>(
    field: Field<P>,
    first: Chain<P>,
    second: &Chain<P>,
    third: &Chain<P>,
    generator: u32,
) -> Result<bool, AllocError>
    ensures { IfOk result (λ b. IsTrue b ↔ ((g : ℕ) → Same P (coefficient first.entry g
        + (coefficient second.now g + coefficient third.now g)) (single generator g))) }
{
    let mut sum = first;
    sum.add_scaled(field, 1, second)?;
    sum.add_scaled(field, 1, third)?;
    Ok(is_single(&sum, generator))
}
