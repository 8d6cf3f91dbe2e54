//! Chains of cells, by other numbers of these.
ghost use Rattle.std.specs.Prelude.{◌≡◌, ◌≤◌, ℕ, length, IfOk};
ghost use Rattle.chains.specs.Terms.{coefficient};
ghost use Rattle.chain_selector.specs.Renumbered.{IsRenumbered};

use cell_complex::Numbered;
use chains::Chain;
use field_mod::Field;
use std::alloc::{AllocError as NoMemory, Global};

/// A chain over the numbers of some cells, as one over the numbers of others: terms at cells that
/// are not among these are dropped.
pub fn renumbered<const P: u16>(
    alloc: Global,
    field: Field<P>,
    chain: &Chain<P>,
    from: &Numbered,
    to: &Numbered,
) -> Result<Chain<P>, NoMemory>
    requires { (g : ℕ) → length from.now ≤ g → coefficient chain.now g ≡ 0 }
    ensures { IfOk result (IsRenumbered P from.now to.now chain.now) }
{
    // Their clauses say that the cells stand in order.
    let _from_count = from.len();
    let _to_count = to.len();
    let mut terms = Vec::with_capacity(alloc, chain.len())?;
    for place in 0..chain.len() {
        let (number, coefficient) = chain.term(place);
        if let Some(other) = to.number(&from.cell(number)) {
            terms.push((other, coefficient))?;
        }
    }
    let renumbered = Chain::from_terms(alloc, field, &terms)?;
    Ok(renumbered)
}
