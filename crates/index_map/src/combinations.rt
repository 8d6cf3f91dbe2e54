//! Combinations of the chains of a basis.
ghost use Rattle.std.specs.Prelude.{◌≡◌, ◌<◌, ℕ, length, slice_index, IfOk};
ghost use Rattle.chains.specs.Terms.{IsNormal};
ghost use Rattle.homology_basis.specs.Bases.{in_degree};
ghost use Rattle.index_map.specs.Combinations.{IsCombination};

use chains::Chain;
use field_mod::Field;
use homology_basis::{Basis, CycleBasis};
use std::alloc::{AllocError as NoMemory, Global};

/// The combination of the cycles of a degree by as many numbers below `P`.
pub(crate) fn combined_cycles<const P: u16>(
    alloc: Global,
    field: Field<P>,
    degree: u8,
    basis: &CycleBasis<P>,
    numbers: &[u16],
) -> Result<Chain<P>, NoMemory>
    requires count { length numbers.now ≡ length (in_degree basis.now.cycles degree) }
    requires below { (i : ℕ) → i < length numbers.now → slice_index numbers.now i < P }
    ensures combination { IfOk result (IsCombination P (slice_index numbers.now)
        (in_degree basis.now.cycles degree) (length (in_degree basis.now.cycles degree))) }
    ensures normal { IfOk result (IsNormal P) }
{
    let mut sum = Chain::empty(alloc);
    for number in 0..basis.dimension(degree) {
        let scale = numbers[number as usize];
        sum.add_scaled(field, scale, basis.cycle(degree, number))?;
    }
    // Its clauses say that the chain is in normal form.
    let _terms = sum.len();
    Ok(sum)
}

/// The combination of the cocycles of a degree by as many numbers below `P`.
pub(crate) fn combined_cocycles<const P: u16>(
    alloc: Global,
    field: Field<P>,
    degree: u8,
    basis: &Basis<P>,
    numbers: &[u16],
) -> Result<Chain<P>, NoMemory>
    requires count { length numbers.now ≡ length (in_degree basis.now.cycles degree) }
    requires below { (i : ℕ) → i < length numbers.now → slice_index numbers.now i < P }
    ensures combination { IfOk result (IsCombination P (slice_index numbers.now)
        (in_degree basis.now.cocycles degree) (length (in_degree basis.now.cycles degree))) }
    ensures normal { IfOk result (IsNormal P) }
{
    let mut sum = Chain::empty(alloc);
    for number in 0..basis.dimension(degree) {
        let scale = numbers[number as usize];
        sum.add_scaled(field, scale, basis.cocycle(degree, number))?;
    }
    // Its clauses say that the chain is in normal form.
    let _terms = sum.len();
    Ok(sum)
}
