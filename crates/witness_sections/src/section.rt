//! The part of a pair, over the numbers of its relative cells.
ghost use Rattle.std.specs.Prelude.{◌≡◌, ◌+◌, length, map, IfOk};
ghost use Rattle.cell_complex.specs.Numbering.{IsOfPair};
ghost use Rattle.witness_laws.specs.Inputs.{all_cells, relative_cells};
ghost use Rattle.witness_types.specs.Parts.{pair_tables, beside, degrees_of};
ghost use Rattle.witness_sections.specs.Readings.{IsDegreeOf, AreDegreesOf, IsSectionOf, IsWhole, IsReadable};

use crate::reading::{cocycles_beside, cycles_beside, read_chains};
use cell_complex::{Numbered, complex_of};
use chain_lists::transposed;
use chains::{Chain, Complex};
use cube_sets::CubeSet;
use field_mod::Field;
use std::alloc::{AllocError, Global};
use witness_types::PairPart;

/// The cycles and cocycles of one degree; and for each relative cell the cycles that have it, and
/// the cocycles, by their places.
#[derive(Drop)]
pub struct Degree<const P: u16> {
    pub(crate) cycles: Vec<Chain<P>>,
    pub(crate) cocycles: Vec<Chain<P>>,
    pub(crate) at_cycles: Vec<Chain<P>>,
    pub(crate) at_cocycles: Vec<Chain<P>>,
}

/// The complex of the relative cells, and for each cell those that have it in their boundary; the
/// cycles and cocycles by degree; and the chain of each cell. Cells are told by their numbers among
/// the relative cells, from 0.
#[derive(Drop)]
pub struct Section<const P: u16> {
    pub(crate) complex: Complex<P>,
    pub(crate) coboundaries: Vec<Chain<P>>,
    pub(crate) degrees: Vec<Degree<P>>,
    pub(crate) homotopies: Vec<Chain<P>>,
}

// The cycles and cocycles of one degree of a part.
fn read_degree<const P: u16>(
    alloc: Global,
    field: Field<P>,
    cells: &Numbered,
    to: &Numbered,
    part: &PairPart<P>,
    degree: u8,
) -> Result<Degree<P>, AllocError>
    requires { IsReadable (length cells.now) (length to.now) part.now }
    ensures { IfOk result (IsDegreeOf cells.now to.now
        (beside degree (degrees_of part.now.cycles.items) (map (λ z. z.1) part.now.cycles.items))
        (beside degree (degrees_of part.now.cycles.items) part.now.cocycles.items)) }
{
    let cycles = cycles_beside(alloc, field, cells, to, &part.cycles, degree)?;
    let cocycles = cocycles_beside(
        alloc,
        field,
        cells,
        to,
        &part.cycles,
        &part.cocycles,
        degree,
    )?;
    let at_cycles = transposed(alloc, field, &cycles, to.len())?;
    let at_cocycles = transposed(alloc, field, &cocycles, to.len())?;
    Ok(Degree {
        cycles,
        cocycles,
        at_cycles,
        at_cocycles,
    })
}

// Those of all degrees up to a greatest.
fn read_degrees<const P: u16>(
    alloc: Global,
    field: Field<P>,
    cells: &Numbered,
    to: &Numbered,
    part: &PairPart<P>,
    top: u8,
) -> Result<Vec<Degree<P>>, AllocError>
    requires { IsReadable (length cells.now) (length to.now) part.now }
    ensures { IfOk result
        (λ degrees. AreDegreesOf cells.now to.now part.now (top + 1) degrees.items) }
{
    let mut degrees = Vec::new(alloc);
    for degree in 0..u16::from(top) + 1 {
        let read = read_degree(alloc, field, cells, to, part, degree as u8)?;
        degrees.push(read)?;
    }
    Ok(degrees)
}

/// The part of a pair of sets, whose cells and relative cells are given, in degrees up to a
/// greatest.
pub fn section_of<const P: u16>(
    alloc: Global,
    field: Field<P>,
    x: &CubeSet,
    a: &CubeSet,
    cells: &Numbered,
    to: &Numbered,
    part: &PairPart<P>,
    top: u8,
) -> Result<Section<P>, AllocError>
    requires cells { cells.now ≡ all_cells x.now.cells a.now.cells }
    requires relative { to.now ≡ relative_cells x.now.cells a.now.cells }
    requires pair { IsOfPair to.now }
    requires readable { IsReadable (length cells.now) (length to.now) part.now }
    ensures section { IfOk result
        (IsSectionOf x.now.cells a.now.cells (pair_tables top part.now)) }
    ensures whole { IfOk result IsWhole }
{
    let complex = complex_of(alloc, field, to)?;
    let (degrees, boundaries) = complex.into_parts();
    let coboundaries = transposed(alloc, field, &boundaries, to.len())?;
    let complex = Complex::of(degrees, boundaries);
    let degrees = read_degrees(alloc, field, cells, to, part, top)?;
    let homotopies = read_chains(alloc, field, cells, to, &part.homotopy)?;
    Ok(Section {
        complex,
        coboundaries,
        degrees,
        homotopies,
    })
}
