//! Transposes: for each generator the chains that have it.
ghost use Rattle.std.specs.Prelude.{◌≡◌, ℕ, ◌<◌, ◌^◌, [], length, slice_index_or, IfOk, OnOk};
ghost use Rattle.chain_lists.specs.Lists.{IsTranspose, AddsColumn, AreSums};

use crate::gathered::Gathered;
use chains::Chain;
use field_mod::Field;
use std::alloc::{AllocError, Global};

/// For each generator below a count the chain of the places of the chains that have it, each with
/// the coefficient that it has there. It is made in proportion to the terms.
pub fn transposed<const P: u16>(
    alloc: Global,
    field: Field<P>,
    chains: &[Chain<P>],
    count: u32,
) -> Result<Vec<Chain<P>>, AllocError>
    requires { length chains.now < 2 ^ 32 }
    ensures count { IfOk result (λ rows. length rows.items ≡ count) }
    ensures value { IfOk result (λ rows. IsTranspose P count chains.now rows.items) }
{
    let mut gathered = Gathered::none(alloc, count)?;
    for place in 0..chains.len() {
        put_column(&chains[place], place as u32, &mut gathered)?;
    }
    sums_of(alloc, field, &gathered)
}

// The terms of a chain as one more column.
fn put_column<const P: u16>(
    chain: &Chain<P>,
    column: u32,
    gathered: &mut Gathered,
) -> Result<(), AllocError>
    ensures count { OnOk result (length gathered.new ≡ length gathered.old) }
    ensures added { OnOk result (AddsColumn column chain.now gathered.old gathered.new) }
{
    for index in 0..chain.len() {
        let (generator, number) = chain.term(index);
        if (generator as usize) < gathered.len() {
            gathered.push(generator, column, number)?;
        }
    }
    Ok(())
}

// Each list as a chain.
fn sums_of<const P: u16>(
    alloc: Global,
    field: Field<P>,
    gathered: &Gathered,
) -> Result<Vec<Chain<P>>, AllocError>
    ensures { IfOk result (λ rows. AreSums P gathered.now rows.items) }
{
    let mut rows = Vec::with_capacity(alloc, gathered.len())?;
    for place in 0..gathered.len() {
        rows.push(Chain::from_terms(alloc, field, gathered.list(place))?)?;
    }
    Ok(rows)
}
