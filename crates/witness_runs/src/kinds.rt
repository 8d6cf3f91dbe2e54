//! Whether terms name cells of a kind.
ghost use Rattle.std.specs.Prelude.{◌≡◌, ℕ, ◌%◌, ◌↔◌, IsTrue, IfOk, IfErr};
ghost use Rattle.chains.specs.Terms.{coefficient, IsNormal};
ghost use Rattle.witness_runs.specs.Kinds.{IsOfKind, NamesKind};
ghost use Rattle.witness_runs.specs.Due.{MissesKind};

use crate::miss::Miss;
use chains::Chain;
use field_mod::Field;
use std::alloc::Global;

/// Whether a number names a cell of the kind.
pub(crate) fn is_of_kind(kinds: &[u8], wanted: u8, number: u32) -> bool
    ensures { IsTrue result ↔ IsOfKind kinds.now wanted number }
{
    let place = number as usize;
    if place == 0 || place > kinds.len() {
        return false;
    }
    kinds[place - 1] == wanted
}

// Whether all terms name cells of the kind.
fn names_kind(kinds: &[u8], wanted: u8, terms: &[(u32, u16)]) -> bool
    ensures { IsTrue result ↔ NamesKind kinds.now wanted terms.now }
{
    for term in terms {
        if !is_of_kind(kinds, wanted, term.0) {
            return false;
        }
    }
    true
}

/// The chain of terms that name cells of the kind.
pub(crate) fn chain_of_kind<const P: u16>(
    alloc: Global,
    field: Field<P>,
    kinds: &[u8],
    wanted: u8,
    terms: &[(u32, u16)],
) -> Result<Chain<P>, Miss>
    ensures names { IfOk result (λ _. NamesKind kinds.now wanted terms.now) }
    ensures normal { IfOk result (IsNormal P) }
    ensures sum { IfOk result (λ c. (g : ℕ) → coefficient c g ≡ coefficient terms.now g % P) }
    ensures err { IfErr result (MissesKind kinds.now wanted terms.now) }
{
    if !names_kind(kinds, wanted, terms) {
        return Err(Miss::Cell);
    }
    let chain = Chain::from_terms(alloc, field, terms)?;
    Ok(chain)
}
