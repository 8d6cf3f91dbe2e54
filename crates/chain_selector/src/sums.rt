//! Sums of multiples of chains.
ghost use Rattle.std.specs.Prelude.{◌<◌, OnOk};
ghost use Rattle.chain_selector.specs.Multiples.{AddsMultiple};

use chains::Chain;
use field_mod::Field;
use std::alloc::AllocError;

/// Puts the terms of a number times a chain behind those that there are.
pub(crate) fn push_scaled<const P: u16>(
    field: Field<P>,
    scale: u16,
    chain: &Chain<P>,
    terms: &mut Vec<(u32, u16)>,
) -> Result<(), AllocError>
    requires { scale < P }
    ensures { OnOk result (AddsMultiple P scale chain.now terms.old.items terms.new.items) }
{
    for place in 0..chain.len() {
        let (generator, number) = chain.term(place);
        terms.push((generator, field.mul(scale, number)))?;
    }
    Ok(())
}
