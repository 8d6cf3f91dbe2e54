//! Sums of multiples of chains.
ghost use Rattle.std.specs.Prelude.{◌≡◌, ℕ, ◌%◌, ◌<◌, IfOk, OnOk};
ghost use Rattle.chains.specs.Terms.{coefficient, IsNormal};
ghost use Rattle.chains.specs.ChainComplex.{boundary};
ghost use Rattle.chain_lists.specs.Lists.{AddsMultiple};

use chains::Chain;
use field_mod::Field;
use std::alloc::{AllocError, Global};

/// Puts the terms of a number times a chain behind those that there are.
pub fn push_scaled<const P: u16>(
    field: Field<P>,
    scale: u16,
    chain: &Chain<P>,
    terms: &mut Vec<(u32, u16)>,
) -> Result<(), AllocError>
    requires { scale < P }
    ensures { OnOk result (AddsMultiple P scale chain.now terms.old.items terms.new.items) }
{
    for place in 0..chain.len() {
        let (generator, number) = chain.term(place);
        terms.push((generator, field.mul(scale, number)))?;
    }
    Ok(())
}

/// The sum of the chains of a list, each times its coefficient: that of its place in another chain.
pub fn combined<const P: u16>(
    alloc: Global,
    field: Field<P>,
    chains: &[Chain<P>],
    coefficients: &Chain<P>,
) -> Result<Chain<P>, AllocError>
    ensures normal { IfOk result (IsNormal P) }
    ensures sum { IfOk result (λ b. (g : ℕ)
        → coefficient b g ≡ boundary chains.now (coefficient coefficients.now) g % P) }
{
    let mut products = Vec::new(alloc);
    for index in 0..coefficients.len() {
        let (generator, number) = coefficients.term(index);
        let place = generator as usize;
        if place < chains.len() {
            push_scaled(field, number, &chains[place], &mut products)?;
        }
    }
    Chain::from_terms(alloc, field, &products)
}
