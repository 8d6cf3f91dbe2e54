//! The images of cycles.
ghost use Rattle.std.specs.Prelude.{◌≡◌, ℕ, ◌%◌, ◌<◌, ◌^◌, length, IfOk};
ghost use Rattle.chains.specs.Terms.{nth_chain};
ghost use Rattle.chains.specs.ChainComplex.{boundary};
ghost use Rattle.witness_rows.specs.Rows.{AreProducts};

use chain_lists::{combined, transposed};
use chains::Chain;
use field_mod::Field;
use std::alloc::{AllocError, Global};

// The sums of the images, each times its coefficient in a cycle, for all cycles.
fn sums<const P: u16>(
    alloc: Global,
    field: Field<P>,
    images: &[Chain<P>],
    cycles: &[Chain<P>],
) -> Result<Vec<Chain<P>>, AllocError>
    ensures count { IfOk result (λ all. length all.items ≡ length cycles.now) }
    ensures value { IfOk result (λ all. (s g : ℕ) → s < length cycles.now
        → nth_chain all.items s g ≡ boundary images.now (nth_chain cycles.now s) g % P) }
{
    let mut all = Vec::with_capacity(alloc, cycles.len())?;
    for place in 0..cycles.len() {
        let sum = combined(alloc, field, images, &cycles[place])?;
        all.push(sum)?;
    }
    Ok(all)
}

/// For each of so many cells the cycles in whose image it is, each with its coefficient there.
pub fn products<const P: u16>(
    alloc: Global,
    field: Field<P>,
    images: &[Chain<P>],
    cycles: &[Chain<P>],
    count: u32,
) -> Result<Vec<Chain<P>>, AllocError>
    requires { length cycles.now < 2 ^ 32 }
    ensures count { IfOk result (λ rows. length rows.items ≡ count) }
    ensures value { IfOk result
        (λ rows. AreProducts P count images.now cycles.now rows.items) }
{
    let sums = sums(alloc, field, images, cycles)?;
    transposed(alloc, field, &sums, count)
}
