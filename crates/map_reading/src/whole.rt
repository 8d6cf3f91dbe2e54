//! The witness of a map behind its header.
ghost use Rattle.std.specs.Prelude.{◌≡◌, ◌≤◌, ◌<◌, true, map, length, IfOk, IfErr};
ghost use Rattle.cube_sets.specs.Closures.{cells_of};
ghost use Rattle.cube_sets.specs.Sets.{dimensions_agree};
ghost use Rattle.acyclic_values.specs.CarriedMaps.{GoesInto};
ghost use Rattle.map_checks.specs.Faults.{AreNamed, HasNoSetFault, together};
ghost use Rattle.witness_laws.specs.Inputs.{all_cells};
ghost use Rattle.witness_reading.specs.Ends.{IfTold};
ghost use Rattle.map_lines.specs.Matrices.{size_in};
ghost use Rattle.map_lines.specs.Whole.{map_given, HasValues, StopsValues, HasEnd, StopsMatrixPart, HasPairs, StopsPairs, IsWholeMap, StopsMap};

use crate::cells::{CellParts, read_cells};
use crate::matrices::read_matrices;
use chains::Chain;
use cube_maps::CubeMap;
use cube_sets::CubeSet;
use field_mod::Field;
use matrix_rows::MatrixRows;
use read_parts::ReadMap;
use std::alloc::{AllocError as NoMemory, Global};
use witness_laws::Law;
use witness_reading::{end_due, read_section};
use witness_runs::Stop;
use witness_scanning::after;
use witness_types::PairPart;
use witness_writing::{both, faces};

// The lines of the values and images, behind the first of them, and what stands behind them.
fn values_due<'a, const P: u16>(
    alloc: Global,
    field: Field<P>,
    bytes: &'a [u8],
    cube_map: &CubeMap,
    domain: &CubeSet,
    range: &CubeSet,
) -> Result<(CellParts<P>, &'a [u8]), Stop>
    requires named { AreNamed cube_map.now.named domain.now.cells }
    requires into { GoesInto cube_map.now.named domain.now.cells range.now.cells }
    requires few { length (cells_of domain.now.cells) ≤ 4096 }
    requires few_range { length (cells_of range.now.cells) ≤ 4096 }
    ensures ok { IfOk result (λ r. HasValues P cube_map.now.named domain.now.cells range.now.cells
        bytes.now r.0.vertices.items (map (λ v. v.items) r.0.contractions.items) r.0.images.items
        r.1.now) }
    ensures err { IfErr result (IfTold (StopsValues P cube_map.now.named domain.now.cells
        range.now.cells bytes.now)) }
{
    let cells = faces(alloc, domain)?;
    let all = faces(alloc, range)?;
    match after(bytes, b"values\n") {
        Some(behind) => match read_cells(
            alloc, field, behind, cube_map, domain, range, &cells, &all,
        ) {
            Ok(read) => Ok(read),
            Err(stop) => Err(stop),
        },
        None => Err(Stop::At {
            left: bytes.len(),
            law: Law::Text,
        }),
    }
}

// The matrices, behind the line in front of them, and the last line.
fn matrices_due<const P: u16>(
    alloc: Global,
    bytes: &[u8],
    domain: &[(u8, Chain<P>)],
    range: &[(u8, Chain<P>)],
    top: u8,
) -> Result<Vec<MatrixRows<P>>, Stop>
    requires { top < 255 }
    ensures ok { IfOk result (λ rows. HasEnd P top (size_in range.now) (size_in domain.now)
        bytes.now rows.items) }
    ensures err { IfErr result (IfTold (StopsMatrixPart P top (size_in range.now)
        (size_in domain.now) bytes.now)) }
{
    match after(bytes, b"matrix\n") {
        Some(behind) => match read_matrices(alloc, behind, domain, range, top) {
            Ok((rows, rest)) => match end_due(rest) {
                Ok(()) => Ok(rows),
                Err(stop) => Err(stop),
            },
            Err(stop) => Err(stop),
        },
        None => Err(Stop::At {
            left: bytes.len(),
            law: Law::Text,
        }),
    }
}

// The sections of both pairs, and what stands behind them.
fn pairs_due<'a, const P: u16>(
    alloc: Global,
    field: Field<P>,
    bytes: &'a [u8],
    x: &CubeSet,
    a: &CubeSet,
    y: &CubeSet,
    b: &CubeSet,
    top: u8,
) -> Result<(PairPart<P>, PairPart<P>, &'a [u8]), Stop>
    requires agree { dimensions_agree x.now.dimension a.now.dimension ≡ true }
    requires range_agree { dimensions_agree y.now.dimension b.now.dimension ≡ true }
    requires few { length (all_cells x.now.cells a.now.cells) ≤ 4096 }
    requires few_range { length (all_cells y.now.cells b.now.cells) ≤ 4096 }
    requires degrees { top < 255 }
    ensures ok { IfOk result (λ r. HasPairs P top x.now.cells a.now.cells y.now.cells b.now.cells
        bytes.now r.0 r.1 r.2.now) }
    ensures err { IfErr result (IfTold (StopsPairs P top x.now.cells a.now.cells y.now.cells
        b.now.cells bytes.now)) }
{
    match read_section(alloc, field, bytes, b"pair domain\n", x, a, top) {
        Ok((domain, behind)) => {
            match read_section(alloc, field, behind, b"pair range\n", y, b, top) {
                Ok((range, rest)) => Ok((domain, range, rest)),
                Err(stop) => Err(stop),
            }
        }
        Err(stop) => Err(stop),
    }
}

// The members of x and of a, and those of y and of b.
fn both_sets(
    alloc: Global,
    x: &CubeSet,
    a: &CubeSet,
    y: &CubeSet,
    b: &CubeSet,
) -> Result<(CubeSet, CubeSet), NoMemory>
    requires agree { dimensions_agree x.now.dimension a.now.dimension ≡ true }
    requires range_agree { dimensions_agree y.now.dimension b.now.dimension ≡ true }
    requires few { length (all_cells x.now.cells a.now.cells) ≤ 4096 }
    requires few_range { length (all_cells y.now.cells b.now.cells) ≤ 4096 }
    ensures { IfOk result (λ r. (r.0.cells ≡ together x.now.cells a.now.cells)
        × (r.1.cells ≡ together y.now.cells b.now.cells)) }
{
    let domain = both(alloc, x, a)?;
    let range = both(alloc, y, b)?;
    Ok((domain, range))
}

/// All that stands behind the header: what it tells of the domain, and the rest.
pub(crate) fn map_due<const P: u16>(
    alloc: Global,
    field: Field<P>,
    bytes: &[u8],
    map: &CubeMap,
    x: &CubeSet,
    a: &CubeSet,
    y: &CubeSet,
    b: &CubeSet,
    top: u8,
) -> Result<(PairPart<P>, ReadMap<P>), Stop>
    requires agree { dimensions_agree x.now.dimension a.now.dimension ≡ true }
    requires range_agree { dimensions_agree y.now.dimension b.now.dimension ≡ true }
    requires few { length (all_cells x.now.cells a.now.cells) ≤ 4096 }
    requires few_range { length (all_cells y.now.cells b.now.cells) ≤ 4096 }
    requires faultless { HasNoSetFault map.now.named x.now.cells a.now.cells y.now.cells
        b.now.cells }
    requires degrees { top < 255 }
    requires top { top ≡ (map_given map.now x.now a.now y.now b.now).top }
    ensures ok { IfOk result (λ r. IsWholeMap (map_given map.now x.now a.now y.now b.now)
        bytes.now r.0 r.1) }
    ensures err { IfErr result (IfTold (StopsMap P (map_given map.now x.now a.now y.now b.now)
        bytes.now)) }
{
    let (cubes, others) = both_sets(alloc, x, a, y, b)?;
    match pairs_due(alloc, field, bytes, x, a, y, b, top) {
        Ok((domain, range, behind)) => {
            match values_due(alloc, field, behind, map, &cubes, &others) {
                Ok((cells, last)) => {
                    match matrices_due(alloc, last, &domain.cycles, &range.cycles, top) {
                        Ok(rows) => Ok((domain, joined(range, cells, rows))),
                        Err(stop) => Err(stop),
                    }
                }
                Err(stop) => Err(stop),
            }
        }
        Err(stop) => Err(stop),
    }
}

// What was read besides the part of the domain.
fn joined<const P: u16>(
    range: PairPart<P>,
    cells: CellParts<P>,
    rows: Vec<MatrixRows<P>>,
) -> ReadMap<P>
    ensures range { result.range ≡ range.entry }
    ensures vertices { result.vertices ≡ cells.entry.vertices }
    ensures contractions { result.contractions ≡ cells.entry.contractions }
    ensures images { result.images ≡ cells.entry.images }
    ensures rows { result.rows ≡ rows.entry }
{
    ReadMap {
        range,
        vertices: cells.vertices,
        contractions: cells.contractions,
        images: cells.images,
        rows,
    }
}
