//! The part of a map, made of a basis of its range and of the selector of its images.
ghost use Rattle.std.specs.Prelude.{◌≡◌, ◌≤◌, length, map, IfOk, IsTrue};
ghost use Rattle.cube_sets.specs.Sets.{dimensions_agree};
ghost use Rattle.cube_sets.specs.Closures.{cells_of};
ghost use Rattle.cell_complex.specs.Numbering.{IsRelativeComplex};
ghost use Rattle.map_checks.specs.Faults.{together};
ghost use Rattle.witness_laws.specs.Inputs.{all_cells};
ghost use Rattle.witness_parts.specs.Tables.{section_by};
ghost use Rattle.map_parts.specs.Maps.{IsCarryingOf, AreCellwise, IsMapPartOf};

use crate::images::images_of;
use crate::values::values_of;
use cell_complex::Numbered;
use chain_selector::Selector;
use chains::Chain;
use cube_maps::CubeMap;
use cube_sets::CubeSet;
use field_mod::Field;
use homology_basis::Basis;
use leray_conley::Matrix;
use std::alloc::{AllocError as NoMemory, Global};
use witness_parts::pair_part;
use witness_types::MapPart;
use witness_writing::{both, faces};

// The vertices, the chains and the images of the cells of the domain.
#[derive(Drop)]
struct Cellwise<const P: u16> {
    vertices: Vec<u32>,
    contractions: Vec<Vec<Chain<P>>>,
    images: Vec<Chain<P>>,
}

// Contractions of the values and images, over the cells of both sets.
fn over_cells<const P: u16>(
    alloc: Global,
    field: Field<P>,
    cube_map: &CubeMap,
    domain: &CubeSet,
    range: &CubeSet,
    selector: &mut Selector<P>,
) -> Result<Cellwise<P>, NoMemory>
    requires few { length (cells_of domain.now.cells) ≤ 4096 }
    requires range_few { length (cells_of range.now.cells) ≤ 4096 }
    requires map { selector.old.carrying.map ≡ cube_map.now.named }
    requires domain { selector.old.carrying.domain ≡ domain.now.cells }
    requires range { selector.old.carrying.range ≡ range.now.cells }
    ensures { IfOk result (λ made. AreCellwise P cube_map.now.named domain.now.cells
        range.now.cells made.vertices.items (map (λ v. v.items) made.contractions.items)
        made.images.items) }
{
    // Its clauses hand out what a selector keeps.
    let _dimension = selector.dimension();
    let cells = faces(alloc, domain)?;
    let all = faces(alloc, range)?;
    let (vertices, contractions) = values_of(alloc, field, cube_map, domain, range, &cells, &all)?;
    let images = images_of(alloc, field, &cells, &all, selector)?;
    Ok(Cellwise {
        vertices,
        contractions,
        images,
    })
}

// The same over the cells of both pairs.
fn over_pairs<const P: u16>(
    alloc: Global,
    field: Field<P>,
    cube_map: &CubeMap,
    x: &CubeSet,
    a: &CubeSet,
    y: &CubeSet,
    b: &CubeSet,
    selector: &mut Selector<P>,
) -> Result<Cellwise<P>, NoMemory>
    requires agree { IsTrue (dimensions_agree x.now.dimension a.now.dimension) }
    requires range_agree { IsTrue (dimensions_agree y.now.dimension b.now.dimension) }
    requires few { length (all_cells x.now.cells a.now.cells) ≤ 4096 }
    requires range_few { length (all_cells y.now.cells b.now.cells) ≤ 4096 }
    requires carrying { IsCarryingOf selector.old.carrying cube_map.now.named x.now.cells
        a.now.cells y.now.cells b.now.cells }
    ensures { IfOk result (λ made. AreCellwise P cube_map.now.named
        (together x.now.cells a.now.cells) (together y.now.cells b.now.cells)
        made.vertices.items (map (λ v. v.items) made.contractions.items) made.images.items) }
{
    let domain = both(alloc, x, a)?;
    let range = both(alloc, y, b)?;
    let made = over_cells(alloc, field, cube_map, &domain, &range, selector)?;
    Ok(made)
}

/// The part in a witness of a map from the pair of x and a to that of y and b, which the selector's
/// carrier keeps: the part of the range by a basis over its relative cells, up to a last degree;
/// for each cell of the domain a contraction of its value and its image; and these matrices.
pub fn map_part<const P: u16>(
    alloc: Global,
    field: Field<P>,
    cube_map: &CubeMap,
    x: &CubeSet,
    a: &CubeSet,
    y: &CubeSet,
    b: &CubeSet,
    cells: &Numbered,
    basis: &Basis<P>,
    top: u8,
    selector: &mut Selector<P>,
    matrices: Vec<Matrix<P>>,
) -> Result<MapPart<P>, NoMemory>
    requires agree { IsTrue (dimensions_agree x.now.dimension a.now.dimension) }
    requires range_agree { IsTrue (dimensions_agree y.now.dimension b.now.dimension) }
    requires few { length (all_cells x.now.cells a.now.cells) ≤ 4096 }
    requires range_few { length (all_cells y.now.cells b.now.cells) ≤ 4096 }
    requires carrying { IsCarryingOf selector.old.carrying cube_map.now.named x.now.cells
        a.now.cells y.now.cells b.now.cells }
    requires relative { IsRelativeComplex P y.now.cells b.now.cells cells.now
        basis.now.log.complex }
    ensures { IfOk result (IsMapPartOf P top cube_map.now.named x.now.cells a.now.cells
        y.now.cells b.now.cells (section_by P cells.now basis.now) matrices.entry.items) }
{
    let range = pair_part(alloc, field, y, b, cells, basis, top)?;
    let made = over_pairs(alloc, field, cube_map, x, a, y, b, selector)?;
    let Cellwise {
        vertices,
        contractions,
        images,
    } = made;
    Ok(MapPart {
        range,
        vertices,
        contractions,
        images,
        matrices,
    })
}
