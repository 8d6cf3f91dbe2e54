//! The index matrices of a map with the inclusion of its domain in its range.
ghost use Rattle.std.specs.Prelude.{◌≡◌, ℕ, ◌<◌, ◌≤◌, List, length, vec_len, IfOk, IfErr, OnOk};
ghost use Rattle.elem_cubes.specs.Cells.{Factor};
ghost use Rattle.induced_map.specs.Matrices.{entries_in, nth};
ghost use Rattle.index_map.specs.Faults.{IsIndexFault, IsFaultIn};
ghost use Rattle.index_map.specs.Inclusion.{IsInvertibleInclusion};
ghost use Rattle.index_map.specs.Inverses.{AreInclusionProducts, IsInverseInclusion};
ghost use Rattle.index_map.specs.Pairs.{AreIncludedPairs, AreSized, IsIncludedPair, IsSolution};

use crate::combinations::{combined_cocycles, combined_cycles};
use crate::fault::{IndexFault, Side};
use crate::restrictions::restricted_cycles;
use cell_complex::Numbered;
use field_mod::Field;
use homology_basis::{Basis, CycleBasis};
use induced_map::products_of;
use leray_conley::{InverseFault, Matrix};
use std::alloc::{AllocError as NoMemory, Global};

/// The matrices that, followed by the inclusion of the first pair in the second, are the given
/// ones, in the cycles of the two bases and up to null chains; else the least degree in which the
/// inclusion is not invertible. There is a given matrix for each degree from 0, and both bases are
/// empty above.
pub fn index<const P: u16>(
    alloc: Global,
    field: Field<P>,
    domain: &CycleBasis<P>,
    domain_cells: &Numbered,
    range: &Basis<P>,
    range_cells: &Numbered,
    induced: &[Matrix<P>],
) -> Result<Vec<Matrix<P>>, IndexFault<P>>
    requires pairs { AreIncludedPairs P domain_cells.now domain.now range_cells.now range.now }
    requires sizes { AreSized domain.now range.now induced.now }
    ensures count { IfOk result (λ all. vec_len all ≡ length induced.now) }
    ensures solves { IfOk result (λ all. (x a y b : List (List Factor))
        → IsIncludedPair P x a y b domain_cells.now domain.now range_cells.now range.now
        → (k : ℕ) → k < vec_len all → IsSolution P y b domain_cells.now domain.now
        range_cells.now range.now k (nth induced.now k) (nth all.items k)) }
    ensures invertible { OnOk result ((x a y b : List (List Factor))
        → IsIncludedPair P x a y b domain_cells.now domain.now range_cells.now range.now
        → (k : ℕ) → IsInvertibleInclusion P x a y b k) }
    ensures fault { IfErr result (λ fault. (x a y b : List (List Factor))
        → IsIncludedPair P x a y b domain_cells.now domain.now range_cells.now range.now
        → IsIndexFault P x a y b domain_cells.now range_cells.now fault) }
{
    // Their clauses say what bases are.
    let _cycles = domain.dimension(0);
    let _range_cycles = range.dimension(0);
    let mut all = Vec::new(alloc);
    for degree in 0..induced.len() {
        let matrix = &induced[degree];
        // Its clauses say that there are few entries.
        let _rows = matrix.rows();
        let inverse = inverse_in(
            alloc,
            field,
            degree as u8,
            domain,
            domain_cells,
            range,
            range_cells,
        )?;
        all.push(inverse.times(alloc, field, matrix)?)?;
    }
    Ok(all)
}

// The inverse of the matrix of the inclusion in one degree, or why it has none.
fn inverse_in<const P: u16>(
    alloc: Global,
    field: Field<P>,
    degree: u8,
    domain: &CycleBasis<P>,
    domain_cells: &Numbered,
    range: &Basis<P>,
    range_cells: &Numbered,
) -> Result<Matrix<P>, IndexFault<P>>
    requires pairs { AreIncludedPairs P domain_cells.now domain.now range_cells.now range.now }
    requires few { entries_in domain.now range.now degree ≤ 16777216 }
    ensures inverse { IfOk result (IsInverseInclusion P domain_cells.now domain.now
        range_cells.now range.now degree) }
    ensures fault { IfErr result (IsFaultIn P domain_cells.now domain.now range_cells.now
        range.now degree) }
{
    // Their clauses say what bases are.
    let _columns = domain.dimension(degree);
    let _rows = range.dimension(degree);
    let inclusion = inclusion_in(
        alloc,
        field,
        degree,
        domain,
        domain_cells,
        range,
        range_cells,
    )?;
    if let Some(numbers) = inclusion.kernel_vector(alloc, field)? {
        let cycle = combined_cycles(alloc, field, degree, domain, &numbers)?;
        let side = Side::Killed(cycle);
        return Err(IndexFault::NotInvertible { degree, side });
    }
    if let Some(numbers) = inclusion.left_vector(alloc, field)? {
        let cocycle = combined_cocycles(alloc, field, degree, range, &numbers)?;
        let side = Side::Missed(cocycle);
        return Err(IndexFault::NotInvertible { degree, side });
    }
    match inclusion.inverse(alloc, field) {
        Ok(inverse) => Ok(inverse),
        Err(InverseFault::NoMemory) => Err(IndexFault::NoMemory),
        Err(InverseFault::Singular { .. }) => unreachable!(),
    }
}

// The matrix of the inclusion in one degree: the products of the cycles of the first pair with the
// cocycles of the second.
fn inclusion_in<const P: u16>(
    alloc: Global,
    field: Field<P>,
    degree: u8,
    domain: &CycleBasis<P>,
    domain_cells: &Numbered,
    range: &Basis<P>,
    range_cells: &Numbered,
) -> Result<Matrix<P>, NoMemory>
    requires pairs { AreIncludedPairs P domain_cells.now domain.now range_cells.now range.now }
    requires few { entries_in domain.now range.now degree ≤ 16777216 }
    ensures { IfOk result (AreInclusionProducts P domain_cells.now domain.now range_cells.now
        range.now degree) }
{
    let rows = range.dimension(degree);
    let columns = domain.dimension(degree);
    let cycles = restricted_cycles(alloc, field, degree, domain, domain_cells, range_cells)?;
    let entries = products_of(alloc, field, degree, range, &cycles)?;
    Ok(Matrix::new(rows, columns, entries))
}
