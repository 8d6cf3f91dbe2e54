//! The lines of the chains of a value.
ghost use Rattle.std.specs.Prelude.{◌≡◌, ℕ, ◌+◌, ◌<◌, ◌^◌, ◌↔◌, length, IfOk, IfErr, IsTrue};
ghost use Rattle.field_mod.specs.Modular.{Same};
ghost use Rattle.chains.specs.Terms.{coefficient};
ghost use Rattle.witness_values.specs.Fillings.{base, FillsBy, FillingsPassed, IsFillingFault};

use chain_lists::combined;
use chains::{Chain, Complex};
use field_mod::Field;
use std::alloc::{AllocError, Global};
use witness_sections::is_sum;
use witness_types::{Law, WitnessFault};

// The vertex of a value where the cell at a place is a vertex, else the empty chain.
fn base_at<const P: u16>(
    alloc: Global,
    field: Field<P>,
    complex: &Complex<P>,
    vertex: u32,
    place: u32,
) -> Result<Chain<P>, AllocError>
    requires { place < length complex.now.boundaries }
    ensures { IfOk result (λ c. (g : ℕ)
        → Same P (coefficient c g) (base complex.now.degrees vertex place g)) }
{
    if complex.degree(place) == 0 {
        return Chain::from_terms(alloc, field, &[(vertex, 1)]);
    }
    Ok(Chain::empty(alloc))
}

// Whether the chains contract a value to its vertex, at the cell at a place.
fn fills<const P: u16>(
    alloc: Global,
    field: Field<P>,
    complex: &Complex<P>,
    fillings: &[Chain<P>],
    vertex: u32,
    place: u32,
) -> Result<bool, AllocError>
    requires place { place < length complex.now.boundaries }
    requires fillings { length fillings.now ≡ length complex.now.boundaries }
    ensures { IfOk result
        (λ b. IsTrue b ↔ FillsBy P complex.now fillings.now vertex place) }
{
    let base = base_at(alloc, field, complex, vertex, place)?;
    let filled = complex.boundary_of(alloc, field, &fillings[place as usize])?;
    let around = combined(alloc, field, fillings, complex.boundary(place))?;
    is_sum(field, base, &filled, &around, place)
}

/// The lines of the chains of a value: the number of the line behind them, or the first that does
/// not contract the value to its vertex.
pub fn test_fillings<const P: u16>(
    alloc: Global,
    field: Field<P>,
    complex: &Complex<P>,
    fillings: &[Chain<P>],
    vertex: u32,
    line: u64,
) -> Result<u64, WitnessFault>
    requires fillings { length fillings.now ≡ length complex.now.boundaries }
    requires room { line + length fillings.now < 2 ^ 63 }
    ensures ok { IfOk result (FillingsPassed P complex.now fillings.now vertex line) }
    ensures next { IfOk result (λ next. next ≡ line + length fillings.now) }
    ensures err { IfErr result (IsFillingFault P complex.now fillings.now vertex line) }
{
    for place in 0..complex.len() {
        let filled = fills(alloc, field, complex, fillings, vertex, place)?;
        if !filled {
            return Err(WitnessFault::At {
                line: line + u64::from(place),
                law: Law::ValueContraction,
            });
        }
    }
    Ok(line + fillings.len() as u64)
}
