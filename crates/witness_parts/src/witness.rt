//! The witness file of a pair.
ghost use Rattle.std.specs.Prelude.{◌≡◌, ◌≤◌, length, IfOk, IsTrue};
ghost use Rattle.cube_sets.specs.Sets.{dimensions_agree};
ghost use Rattle.cell_complex.specs.Numbering.{IsRelativeComplex};
ghost use Rattle.witness_laws.specs.Inputs.{all_cells};
ghost use Rattle.witness_parts.specs.Witnesses.{top_of, IsPairWitness};

use crate::pair::pair_part;
use cell_complex::Numbered;
use cube_sets::CubeSet;
use field_mod::Field;
use homology_basis::Basis;
use std::alloc::{AllocError as NoMemory, Global};
use witness_types::Input;
use witness_writing::write_witness;

// The dimension of a pair.
fn known(x: &CubeSet, a: &CubeSet) -> u8
    ensures { result ≡ top_of x.now a.now }
{
    let dimension = x.dimension();
    if dimension == 0 {
        a.dimension()
    } else {
        dimension
    }
}

/// The text of a witness of the homology of the pair of x and a, by a basis over its relative
/// cells. It is accepted, and has the cycles of the basis.
pub fn pair_witness<const P: u16>(
    alloc: Global,
    field: Field<P>,
    x: &CubeSet,
    a: &CubeSet,
    cells: &Numbered,
    basis: &Basis<P>,
) -> Result<Vec<u8>, NoMemory>
    requires agree { IsTrue (dimensions_agree x.now.dimension a.now.dimension) }
    requires few { length (all_cells x.now.cells a.now.cells) ≤ 4096 }
    requires relative { IsRelativeComplex P x.now.cells a.now.cells cells.now
        basis.now.log.complex }
    ensures { IfOk result (λ bytes. IsPairWitness P x.now a.now cells.now basis.now
        bytes.items) }
{
    // Their clauses say what sets, cells and bases are.
    let _members = x.len();
    let _count = cells.len();
    let _dimension = basis.dimension(0);
    let part = pair_part(alloc, field, x, a, cells, basis, known(x, a))?;
    let input = Input::Pair { x, a };
    let text = write_witness(alloc, field, &input, &part, None);
    // An input is taken apart, since it is not let go.
    match input {
        Input::Pair { x: _, a: _ } => {}
        Input::Map {
            map: _,
            x: _,
            a: _,
            y: _,
            b: _,
        } => {}
    }
    Ok(text?)
}
