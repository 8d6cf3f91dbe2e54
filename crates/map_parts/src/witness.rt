//! The witness file of a map.
ghost use Rattle.std.specs.Prelude.{◌≡◌, ◌<◌, ◌≤◌, ◌==◌, ℕ, length, if◌then◌else◌, IfOk, IsTrue};
ghost use Rattle.cube_sets.specs.Sets.{dimensions_agree};
ghost use Rattle.cell_complex.specs.Numbering.{IsRelativeComplex};
ghost use Rattle.leray_conley.specs.Tables.{IsTable};
ghost use Rattle.map_checks.specs.Carriers.{AreOfOneDimension};
ghost use Rattle.map_checks.specs.Faults.{HasNoSetFault};
ghost use Rattle.witness_laws.specs.Inputs.{all_cells};
ghost use Rattle.witness_laws.specs.Tables.{tables_format};
ghost use Rattle.witness_types.specs.Inputs.{IsWithinTables};
ghost use Rattle.witness_types.specs.Parts.{IsInOrder};
ghost use Rattle.witness_types.specs.Texts.{IsWritable};
ghost use Rattle.witness_writing.specs.Runs.{table_at};
ghost use Rattle.witness_parts.specs.Tables.{section_by, IsPartOf};
ghost use Rattle.map_parts.specs.Maps.{IsCarryingOf, IsDomainPart, IsMapWitness};
ghost use Rattle.map_parts.specs.Maps.{top_of_map, given_map, value_of_parts, map_text};

use crate::part::map_part;
use cell_complex::Numbered;
use chain_selector::Selector;
use cube_maps::CubeMap;
use cube_sets::CubeSet;
use field_mod::Field;
use homology_basis::Basis;
use leray_conley::Matrix;
use std::alloc::{AllocError as NoMemory, Global};
use witness_parts::pair_part;
use witness_types::{Input, MapPart, PairPart};
use witness_writing::write_witness;

// The first known one of two dimensions.
fn known(first: u8, second: u8) -> u8
    ensures { result ≡ (if first == 0 then second else first) }
{
    if first == 0 { second } else { first }
}

// The dimension of a map and its pairs.
fn known_of_map(cube_map: &CubeMap, x: &CubeSet, a: &CubeSet, y: &CubeSet, b: &CubeSet) -> u8
    ensures { result ≡ top_of_map cube_map.now x.now a.now y.now b.now }
{
    let range = known(y.dimension(), b.dimension());
    let pairs = known(x.dimension(), known(a.dimension(), range));
    known(cube_map.dimension(), pairs)
}

// The text of parts for a map.
fn written<const P: u16>(
    alloc: Global,
    field: Field<P>,
    cube_map: &CubeMap,
    x: &CubeSet,
    a: &CubeSet,
    y: &CubeSet,
    b: &CubeSet,
    part: &PairPart<P>,
    more: &MapPart<P>,
) -> Result<Vec<u8>, NoMemory>
    requires alike { AreOfOneDimension cube_map.now x.now a.now y.now b.now }
    requires faultless { HasNoSetFault cube_map.now.named x.now.cells a.now.cells y.now.cells
        b.now.cells }
    requires limits { IsWithinTables (given_map cube_map.now x.now a.now y.now b.now) }
    requires order { IsInOrder (top_of_map cube_map.now x.now a.now y.now b.now) part.now }
    requires range_order { IsInOrder (top_of_map cube_map.now x.now a.now y.now b.now)
        more.now.range }
    requires parts { IsWritable (tables_format P (given_map cube_map.now x.now a.now y.now b.now))
        (value_of_parts (top_of_map cube_map.now x.now a.now y.now b.now) part.now more.now) }
    ensures { IfOk result (λ bytes. bytes.items
        ≡ map_text P (given_map cube_map.now x.now a.now y.now b.now)
        (value_of_parts (top_of_map cube_map.now x.now a.now y.now b.now) part.now more.now)) }
{
    let input = Input::Map {
        map: cube_map,
        x,
        a,
        y,
        b,
    };
    let text = write_witness(alloc, field, &input, part, Some(more));
    // An input is taken apart, since it is not let go.
    match input {
        Input::Pair { x: _, a: _ } => {}
        Input::Map {
            map: _,
            x: _,
            a: _,
            y: _,
            b: _,
        } => {}
    }
    Ok(text?)
}

// Matrices are tables.
fn see_tables<const P: u16>(matrices: &[Matrix<P>])
    ensures { (k : ℕ) → k < length matrices.now → IsTable P (table_at matrices.now k) }
{
    for place in 0..matrices.len() {
        let _rows = matrices[place].rows();
    }
}

/// The part of the pair of x and a in a witness of a map from it to the pair of y and b, by a basis
/// of its homology over its relative cells.
pub fn domain_part<const P: u16>(
    alloc: Global,
    field: Field<P>,
    cube_map: &CubeMap,
    x: &CubeSet,
    a: &CubeSet,
    y: &CubeSet,
    b: &CubeSet,
    cells: &Numbered,
    basis: &Basis<P>,
) -> Result<PairPart<P>, NoMemory>
    requires agree { IsTrue (dimensions_agree x.now.dimension a.now.dimension) }
    requires few { length (all_cells x.now.cells a.now.cells) ≤ 4096 }
    requires relative { IsRelativeComplex P x.now.cells a.now.cells cells.now
        basis.now.log.complex }
    ensures { IfOk result (IsPartOf (top_of_map cube_map.now x.now a.now y.now b.now) x.now.cells
        a.now.cells (section_by P cells.now basis.now)) }
{
    let top = known_of_map(cube_map, x, a, y, b);
    let part = pair_part(alloc, field, x, a, cells, basis, top)?;
    Ok(part)
}

/// The text of a witness of the map from the pair of x and a to that of y and b, which the
/// selector's carrier keeps: by the part of the domain, by a basis over the relative cells of the
/// range, and by the matrices in both. It is accepted, and has this part and these matrices.
pub fn map_witness<const P: u16>(
    alloc: Global,
    field: Field<P>,
    cube_map: &CubeMap,
    x: &CubeSet,
    a: &CubeSet,
    y: &CubeSet,
    b: &CubeSet,
    domain: &PairPart<P>,
    cells: &Numbered,
    basis: &Basis<P>,
    selector: &mut Selector<P>,
    matrices: Vec<Matrix<P>>,
) -> Result<Vec<u8>, NoMemory>
    requires alike { AreOfOneDimension cube_map.now x.now a.now y.now b.now }
    requires faultless { HasNoSetFault cube_map.now.named x.now.cells a.now.cells y.now.cells
        b.now.cells }
    requires limits { IsWithinTables (given_map cube_map.now x.now a.now y.now b.now) }
    requires carrying { IsCarryingOf selector.old.carrying cube_map.now.named x.now.cells
        a.now.cells y.now.cells b.now.cells }
    requires relative { IsRelativeComplex P y.now.cells b.now.cells cells.now
        basis.now.log.complex }
    requires domain { IsDomainPart P (top_of_map cube_map.now x.now a.now y.now b.now)
        cube_map.now.named x.now.cells a.now.cells y.now.cells b.now.cells
        (section_by P cells.now basis.now) matrices.items domain.now }
    ensures { IfOk result (λ bytes. IsMapWitness P cube_map.now x.now a.now y.now b.now
        domain.now cells.now basis.now matrices.entry.items bytes.items) }
{
    // Their clauses say what sets, cells and bases are.
    let _members = x.len();
    let _range_members = y.len();
    let _count = cells.len();
    let _dimension = basis.dimension(0);
    see_tables(&matrices);
    let top = known_of_map(cube_map, x, a, y, b);
    let more = map_part(
        alloc, field, cube_map, x, a, y, b, cells, basis, top, selector, matrices,
    )?;
    let text = written(alloc, field, cube_map, x, a, y, b, domain, &more)?;
    Ok(text)
}
