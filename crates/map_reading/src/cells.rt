//! The lines of the values and images of all cells of the domain.
ghost use Rattle.std.specs.Prelude.{◌≡◌, ◌++◌, ◌∷◌, [], ◌<◌, map, length, OnOk, IfOk, IfErr};
ghost use Rattle.witness_reading.specs.Ends.{IfTold};
ghost use Rattle.map_lines.specs.Cells.{AreSides, HasCellAt, StopsAtCell, HasAllCells, StopsInCells, all_kinds};

use crate::tables::{kind_of, kinds_in, kinds_of_all, kinds_over, numbers_of, value_of};
use cell_complex::Numbered;
use chains::Chain;
use cube_maps::CubeMap;
use cube_sets::CubeSet;
use field_mod::Field;
use section_reading::{CellPart, cell_due};
use std::alloc::{AllocError as NoMemory, Global};
use witness_runs::Stop;

/// What is read of all cells of the domain: a vertex of the value, the chains of its cells, and the
/// image.
#[derive(Drop)]
pub(crate) struct CellParts<const P: u16> {
    pub(crate) vertices: Vec<u32>,
    pub(crate) contractions: Vec<Vec<Chain<P>>>,
    pub(crate) images: Vec<Chain<P>>,
}

// The lines of the cell of the domain in this place, and what stands behind them.
fn read_cell<'a, const P: u16>(
    alloc: Global,
    field: Field<P>,
    bytes: &'a [u8],
    cube_map: &CubeMap,
    domain: &CubeSet,
    range: &CubeSet,
    cells: &Numbered,
    all: &Numbered,
    kinds: &[u8],
    place: u32,
) -> Result<(CellPart<P>, &'a [u8]), Stop>
    requires sides { AreSides cube_map.now.named domain.now.cells range.now.cells cells.now
        all.now }
    requires kinds { kinds.now ≡ all_kinds all.now }
    requires inside { place < length cells.now }
    ensures ok { IfOk result (λ r. HasCellAt P cube_map.now.named domain.now.cells
        range.now.cells place bytes.now r.0.vertex r.0.contraction.items r.0.image r.1.now) }
    ensures err { IfErr result (IfTold (StopsAtCell P cube_map.now.named domain.now.cells
        range.now.cells place bytes.now)) }
{
    let value = value_of(alloc, cube_map, domain, range, cells, place)?;
    let numbers = numbers_of(alloc, all, &value)?;
    let wanted = kinds_over(alloc, &value)?;
    let table = kinds_in(alloc, all, &value, &numbers)?;
    let kind = kind_of(&cells.cell(place));
    cell_due(
        alloc,
        field,
        bytes,
        place + 1,
        &table,
        &numbers,
        &wanted,
        kinds,
        kind,
    )
}

// The parts of one more cell.
fn keep_cell<const P: u16>(parts: &mut CellParts<P>, part: CellPart<P>) -> Result<(), NoMemory>
    ensures vertices { OnOk result (parts.new.vertices.items
        ≡ parts.old.vertices.items ++ part.entry.vertex ∷ []) }
    ensures fillings { OnOk result (map (λ v. v.items) parts.new.contractions.items
        ≡ map (λ v. v.items) parts.old.contractions.items ++ part.entry.contraction.items ∷ []) }
    ensures images { OnOk result (parts.new.images.items
        ≡ parts.old.images.items ++ part.entry.image ∷ []) }
{
    parts.vertices.push(part.vertex)?;
    parts.contractions.push(part.contraction)?;
    parts.images.push(part.image)?;
    Ok(())
}

/// The lines of all cells of the domain, and what stands behind them.
pub(crate) fn read_cells<'a, const P: u16>(
    alloc: Global,
    field: Field<P>,
    bytes: &'a [u8],
    cube_map: &CubeMap,
    domain: &CubeSet,
    range: &CubeSet,
    cells: &Numbered,
    all: &Numbered,
) -> Result<(CellParts<P>, &'a [u8]), Stop>
    requires { AreSides cube_map.now.named domain.now.cells range.now.cells cells.now
        all.now }
    ensures ok { IfOk result (λ r. HasAllCells P cube_map.now.named domain.now.cells range.now.cells
        bytes.now r.0.vertices.items (map (λ v. v.items) r.0.contractions.items) r.0.images.items
        r.1.now) }
    ensures err { IfErr result (IfTold (StopsInCells P cube_map.now.named domain.now.cells
        range.now.cells bytes.now)) }
{
    let kinds = kinds_of_all(alloc, all)?;
    let mut parts = CellParts {
        vertices: Vec::new(alloc),
        contractions: Vec::new(alloc),
        images: Vec::new(alloc),
    };
    let mut rest = bytes;
    for place in 0..cells.len() {
        match read_cell(
            alloc, field, rest, cube_map, domain, range, cells, all, &kinds, place,
        ) {
            Ok((part, behind)) => {
                keep_cell(&mut parts, part)?;
                rest = behind;
            }
            Err(stop) => return Err(stop),
        }
    }
    Ok((parts, rest))
}
