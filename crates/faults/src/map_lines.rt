//! The lines on maps that are refused.
ghost use Rattle.std.specs.Prelude.{◌≡◌, ◌++◌, IfOk, OnOk, codes};
ghost use Rattle.faults.specs.FaultText.{fault_text, cube_text, pair_text};
ghost use Rattle.faults.specs.ChainText.{cell_text};
ghost use Rattle.faults.specs.declared.fault.Fault.{Fault};

use crate::chain::put_chain;
use crate::fault::put_after;
use crate::generator::Generator;
use crate::terms::CellChain;
use corner_texts::put_corner;
use elem_cubes::Cell;
use std::alloc::{AllocError as NoMemory, Global};

// Adds a full cube by its lower corner.
pub(crate) fn put_cube(to: &mut Vec<u8>, cube: &Cell) -> Result<(), NoMemory>
    ensures { OnOk result (to.new.items ≡ to.old.items ++ cube_text cube.now) }
{
    put_corner(to, &cube.lower())
}

// The line on a cube without a value.
pub(crate) fn undefined_text(alloc: Global, cube: &Cell) -> Result<Vec<u8>, NoMemory>
    ensures { IfOk result (λ line. line.items ≡ fault_text (Fault.Undefined cube.now)) }
{
    let mut line = Vec::from_slice(alloc, b"error: map: no value at ")?;
    put_cube(&mut line, cube)?;
    line.extend_from_slice(b"\n")?;
    Ok(line)
}

// The line on a value that leaves a set.
pub(crate) fn leaves_text(
    alloc: Global,
    cube: &Cell,
    value: &Cell,
    end: &[u8],
) -> Result<Vec<u8>, NoMemory>
    ensures { IfOk result
        (λ line. line.items ≡ codes "error: map: " ++ pair_text cube.now value.now ++ end.now) }
{
    let mut line = Vec::from_slice(alloc, b"error: map: ")?;
    put_cube(&mut line, cube)?;
    line.extend_from_slice(b" -> ")?;
    put_cube(&mut line, value)?;
    line.extend_from_slice(end)?;
    Ok(line)
}

// The line on an empty value.
pub(crate) fn empty_value_text(alloc: Global, cell: &Cell) -> Result<Vec<u8>, NoMemory>
    ensures { IfOk result (λ line. line.items ≡ fault_text (Fault.EmptyValue cell.now)) }
{
    let mut line = Vec::from_slice(alloc, b"error: map: value at ")?;
    cell.put(&mut line)?;
    line.extend_from_slice(b" is empty\n")?;
    Ok(line)
}

// The line on a value that is not acyclic.
pub(crate) fn not_acyclic_text(
    alloc: Global,
    cell: &Cell,
    degree: u8,
    cycle: &CellChain,
    cocycle: &CellChain,
) -> Result<Vec<u8>, NoMemory>
    ensures { IfOk result
        (λ line. line.items ≡ fault_text (Fault.NotAcyclic cell.now degree cycle.now cocycle.now)) }
{
    let mut line = Vec::from_slice(alloc, b"error: map: value at ")?;
    cell.put(&mut line)?;
    put_after(&mut line, b" is not acyclic in degree ", degree)?;
    line.extend_from_slice(b": cycle ")?;
    put_chain(&mut line, cycle)?;
    line.extend_from_slice(b", cocycle ")?;
    put_chain(&mut line, cocycle)?;
    line.extend_from_slice(b"\n")?;
    Ok(line)
}
