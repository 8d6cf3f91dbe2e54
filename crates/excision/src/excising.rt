//! Excision.
ghost use Rattle.std.specs.Prelude.{◌≡◌, List, true, filter, IfOk};
ghost use Rattle.elem_cubes.specs.Cells.{Factor, dimension_of};
ghost use Rattle.elem_cubes.specs.Faces.{IsFace};
ghost use Rattle.cube_sets.specs.Sets.{holds};
ghost use Rattle.cube_sets.specs.Closures.{closure};
ghost use Rattle.cell_complex.specs.RelativeComplex.{is_relative};
ghost use Rattle.excision.specs.Excision.{touches, excised, HasVertexIn};

use cube_sets::CubeSet;
use elem_cubes::Cell;
use std::alloc::{AllocError, Global};

/// The members of `a` that share a point with a member of `x`: with them alone in its place the
/// relative cells stay the same. It looks up the vertices of each among the faces of `x`.
pub fn excise(alloc: Global, x: &CubeSet, a: &CubeSet) -> Result<CubeSet, AllocError>
    ensures excised { IfOk result (λ s. s ≡ excised x.now a.now) }
    ensures relative { IfOk result (λ s. (q : List Factor)
        → is_relative x.now.cells s.cells q ≡ is_relative x.now.cells a.now.cells q) }
{
    let _ = a.len();
    let near = near_members(alloc, x, a)?;
    let near = CubeSet::of_cells(a.dimension(), near)?;
    let _ = near.len();
    Ok(near)
}

// The members of `a` that share a point with a member of `x`, in order.
fn near_members(alloc: Global, x: &CubeSet, a: &CubeSet) -> Result<Vec<Cell>, AllocError>
    ensures { IfOk result (λ near. near.items ≡ filter (touches x.now.cells) a.now.cells) }
{
    let mut near = Vec::new(alloc);
    if a.is_empty() {
        return Ok(near);
    }
    let faces = faces_of(alloc, x)?;
    for cell in a.cells() {
        if !has_vertex_in(&faces, cell) {
            continue;
        }
        near.push(*cell)?;
    }
    Ok(near)
}

// The set of all faces of the members of a set. More than 2^32 - 1 of them count as want of memory.
fn faces_of(alloc: Global, x: &CubeSet) -> Result<CubeSet, AllocError>
    ensures { IfOk result (λ s. s ≡ closure x.now) }
{
    let Ok(faces) = x.closure_within(alloc, u32::MAX) else {
        return Err(AllocError);
    };
    Ok(faces)
}

// Whether some vertex of a cell is one of these.
fn has_vertex_in(faces: &CubeSet, cell: &Cell) -> bool
    ensures { (result ≡ true → HasVertexIn (holds faces.now) cell.now)
        × (HasVertexIn (holds faces.now) cell.now → result ≡ true) }
{
    for face in cell.closure() {
        if face.dim() != 0 {
            continue;
        }
        if faces.holds(&face) {
            return true;
        }
    }
    false
}
