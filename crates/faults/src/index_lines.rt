//! The lines on index matrices that are refused.
ghost use Rattle.std.specs.Prelude.{◌≡◌, ◌++◌, IfOk, codes, decimal};
ghost use Rattle.faults.specs.FaultText.{cube_text};
ghost use Rattle.faults.specs.ChainText.{cell_text, chain_text};

use crate::chain::put_chain;
use crate::fault::put_after;
use crate::map_lines::put_cube;
use crate::terms::CellChain;
use elem_cubes::Cell;
use std::alloc::{AllocError as NoMemory, Global};

// The line on a cube that is not where it should be.
pub(crate) fn not_included_text(alloc: Global, cube: &Cell, end: &[u8]) -> Result<Vec<u8>, NoMemory>
    ensures { IfOk result
        (λ line. line.items ≡ codes "error: index: " ++ cube_text cube.now ++ end.now) }
{
    let mut line = Vec::from_slice(alloc, b"error: index: ")?;
    put_cube(&mut line, cube)?;
    line.extend_from_slice(end)?;
    Ok(line)
}

// The line on an inclusion that is not invertible in a degree, and on a chain that shows it.
pub(crate) fn not_invertible_text(
    alloc: Global,
    degree: u8,
    side: &[u8],
    chain: &CellChain,
) -> Result<Vec<u8>, NoMemory>
    ensures { IfOk result (λ line. line.items ≡ codes "error: index: degree " ++ decimal degree
        ++ side.now ++ chain_text cell_text chain.now ++ codes "\n") }
{
    let mut line = Vec::from_slice(alloc, b"error: ")?;
    put_after(&mut line, b"index: degree ", degree)?;
    line.extend_from_slice(side)?;
    put_chain(&mut line, chain)?;
    line.extend_from_slice(b"\n")?;
    Ok(line)
}
