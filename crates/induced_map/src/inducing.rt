//! The matrices that a map induces.
ghost use Rattle.std.specs.Prelude.{◌≡◌, ◌+◌, ◌<◌, ◌≤◌, ℕ, vec_len, IfOk};
ghost use Rattle.chain_selector.specs.Selections.{Extends};
ghost use Rattle.induced_map.specs.Matrices.{ArePairsOfMap, HaveFewEntries, IsMatrixOf};
ghost use Rattle.induced_map.specs.Matrices.{nth, entries_in};

use crate::images::images_of;
use crate::products::products_of;
use cell_complex::Numbered;
use chain_selector::Selector;
use field_mod::Field;
use homology_basis::{Basis, CycleBasis};
use leray_conley::Matrix;
use std::alloc::{AllocError as NoMemory, Global};

/// The matrices of the selector's map, one for each degree from 0 to the selector's dimension, in
/// the cycles of the two bases: of the pair of x and a, which are together the domain, and of the
/// pair of y and b, which are together the range, where the map sends the cubes of a into b. Each
/// is the matrix of every chain map that the map carries. Images are made of the cells of the
/// cycles alone, and of their faces.
pub fn matrices<const P: u16>(
    alloc: Global,
    field: Field<P>,
    domain: &CycleBasis<P>,
    domain_cells: &Numbered,
    range: &Basis<P>,
    range_cells: &Numbered,
    selector: &mut Selector<P>,
) -> Result<Vec<Matrix<P>>, NoMemory>
    requires pairs { ArePairsOfMap P selector.old.carrying domain_cells.now domain.now
        range_cells.now range.now }
    requires few { HaveFewEntries domain.now range.now selector.old.carrying.dimension }
    ensures extends { Extends selector.old selector.new }
    ensures count { IfOk result (λ all. vec_len all ≡ selector.old.carrying.dimension + 1) }
    ensures matrices { IfOk result (λ all. (k : ℕ) → k < vec_len all
        → IsMatrixOf P selector.old.carrying domain_cells.now domain.now range_cells.now
        range.now k (nth all.items k)) }
{
    let mut all = Vec::new(alloc);
    for degree in 0..u16::from(selector.dimension()) + 1 {
        let matrix = matrix_of(
            alloc,
            field,
            degree as u8,
            domain,
            domain_cells,
            range,
            range_cells,
            selector,
        )?;
        all.push(matrix)?;
    }
    Ok(all)
}

// The matrix of one degree.
fn matrix_of<const P: u16>(
    alloc: Global,
    field: Field<P>,
    degree: u8,
    domain: &CycleBasis<P>,
    domain_cells: &Numbered,
    range: &Basis<P>,
    range_cells: &Numbered,
    selector: &mut Selector<P>,
) -> Result<Matrix<P>, NoMemory>
    requires pairs { ArePairsOfMap P selector.old.carrying domain_cells.now domain.now
        range_cells.now range.now }
    requires few { entries_in domain.now range.now degree ≤ 16777216 }
    ensures extends { Extends selector.old selector.new }
    ensures matrix { IfOk result (IsMatrixOf P selector.old.carrying domain_cells.now domain.now
        range_cells.now range.now degree) }
{
    // Their clauses say what a selector keeps and what bases are.
    let _dimension = selector.dimension();
    let rows = range.dimension(degree);
    let columns = domain.dimension(degree);
    if rows == 0 {
        return Ok(Matrix::new(0, columns, Vec::new(alloc)));
    }
    let images = images_of(
        alloc,
        field,
        degree,
        domain,
        domain_cells,
        range_cells,
        selector,
    )?;
    let entries = products_of(alloc, field, degree, range, &images)?;
    Ok(Matrix::new(rows, columns, entries))
}
