//! The cells of pairs.
ghost use Rattle.std.specs.Prelude.{◌≡◌, ◌∷◌, [], IfOk};
ghost use Rattle.cell_complex.specs.Numbering.{IsOfPair};
ghost use Rattle.witness_laws.specs.Inputs.{relative_cells};
ghost use Rattle.witness_types.specs.Inputs.{first_known};

use cell_complex::{Numbered, relative};
use cube_maps::CubeMap;
use cube_sets::CubeSet;
use std::alloc::{AllocError as NoMemory, Global};

/// The relative cells of a pair.
#[tactic(auto, using(witness_writing::proofs::Counting::kept_are))]
pub(crate) fn kept(alloc: Global, x: &CubeSet, a: &CubeSet) -> Result<Numbered, NoMemory>
    ensures cells { IfOk result (λ cells. cells ≡ relative_cells x.now.cells a.now.cells) }
    ensures pair { IfOk result IsOfPair }
{
    match relative(alloc, x, a) {
        Ok(cells) => {
            // Its clauses say that the cells stand in order.
            let _count = cells.len();
            Ok(cells)
        }
        Err(_) => Err(NoMemory),
    }
}

// The first of two dimensions that is known.
fn known(first: u8, second: u8) -> u8
    ensures { result ≡ first_known (first ∷ second ∷ []) }
{
    if first == 0 { second } else { first }
}

/// The dimension of a pair.
pub(crate) fn pair_dimension(x: &CubeSet, a: &CubeSet) -> u8
    ensures { result ≡ first_known (x.now.dimension ∷ a.now.dimension ∷ []) }
{
    known(x.dimension(), a.dimension())
}

/// The dimension of a map and of the pairs between which it goes.
pub(crate) fn map_dimension(map: &CubeMap, x: &CubeSet, a: &CubeSet, y: &CubeSet, b: &CubeSet) -> u8
    ensures { result ≡ first_known (map.now.dimension ∷ x.now.dimension ∷ a.now.dimension
        ∷ y.now.dimension ∷ b.now.dimension ∷ []) }
{
    let pairs = known(x.dimension(), a.dimension());
    let others = known(y.dimension(), b.dimension());
    known(map.dimension(), known(pairs, others))
}
