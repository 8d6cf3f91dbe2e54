//! Chains by the numbers of a witness file.
ghost use Rattle.std.specs.Prelude.{◌≡◌, ◌≤◌, ℕ, List, length, IfOk};
ghost use Rattle.std.specs.List.{Contains};
ghost use Rattle.field_mod.specs.Modular.{Same};
ghost use Rattle.elem_cubes.specs.Cells.{Factor};
ghost use Rattle.chains.specs.Terms.{coefficient};
ghost use Rattle.cell_complex.specs.Numbering.{by_cell};
ghost use Rattle.witness_parts.specs.Filed.{IsFiled, from_one};

use cell_complex::Numbered;
use chain_selector::renumbered;
use chains::Chain;
use field_mod::Field;
use std::alloc::{AllocError as NoMemory, Global};

/// A chain over the numbers of some cells, by the numbers in the file, which number more cells and
/// count from 1.
pub fn filed<const P: u16>(
    alloc: Global,
    field: Field<P>,
    chain: &Chain<P>,
    cells: &Numbered,
    all: &Numbered,
) -> Result<Chain<P>, NoMemory>
    requires within { (g : ℕ) → length cells.now ≤ g → Same P (coefficient chain.now g) 0 }
    requires inside { (q : List Factor) → Contains cells.now q → Contains all.now q }
    requires few { length all.now ≤ 4096 }
    ensures { IfOk result (IsFiled P all.now (by_cell cells.now (coefficient chain.now))) }
{
    // Their clauses say that terms and cells stand in order.
    let _terms = chain.len();
    let _count = all.len();
    let other = renumbered(alloc, field, chain, cells, all)?;
    let shifted = counted_from_one(alloc, field, &other)?;
    Ok(shifted)
}

// The chain with each number one more.
#[tactic(auto, using(crate::proofs::Filing::small_number))]
fn counted_from_one<const P: u16>(
    alloc: Global,
    field: Field<P>,
    chain: &Chain<P>,
) -> Result<Chain<P>, NoMemory>
    requires { (g : ℕ) → 4096 ≤ g → coefficient chain.now g ≡ 0 }
    ensures { IfOk result (λ shifted. shifted ≡ from_one chain.now) }
{
    let mut terms = Vec::with_capacity(alloc, chain.len())?;
    for place in 0..chain.len() {
        let (number, coefficient) = chain.term(place);
        terms.push((number + 1, coefficient))?;
    }
    let shifted = Chain::from_terms(alloc, field, &terms)?;
    Ok(shifted)
}
