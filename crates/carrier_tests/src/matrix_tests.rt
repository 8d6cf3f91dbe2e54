//! The matrices that the map that doubles induces, its index matrices, and the inclusion of its
//! domain in its range.
ghost use Rattle.std.specs.Prelude.{◌≡◌, ◌<◌, ◌+◌, ℕ, vec_len, IfSome};
ghost use Rattle.cell_complex.specs.Numbering.{IsRelativeComplex};
ghost use Rattle.induced_map.specs.Matrices.{ArePairsOfMap, IsMatrixOf, nth};
ghost use Rattle.index_map.specs.Inclusion.{IsIncluded};
ghost use Rattle.pair_maps.specs.Inputs.{IsFitting};
ghost use Rattle.pair_maps.specs.Refusals.{IsCarrierOf};

use crate::doubling::{cell_of_line, doubling};
use cell_complex::Numbered;
use chain_selector::Selector;
use cube_sets::CubeSet;
use elem_cubes::Cell;
use field_mod::Field;
use homology_basis::{Basis, CycleBasis, Prepared, basis, cycle_basis, prepare};
use index_map::{NotIncluded, included, index};
use induced_map::{first_too_large, matrices};
use leray_conley::Matrix;
use map_checks::Carrier;
use pair_maps::{PairMap, carrier_of};
use std::alloc::Global;

// The relative cells of a pair, and a basis of its homology by cycles alone.
fn cycles_of<const P: u16>(
    alloc: Global,
    field: Field<P>,
    x: &CubeSet,
    a: &CubeSet,
) -> Option<(Numbered, CycleBasis<P>)>
    ensures { IfSome result (λ made.
        IsRelativeComplex P x.now.cells a.now.cells made.0 made.1.log.complex) }
{
    let Ok(
        Prepared {
            cells,
            grown: _grown,
            left: _left,
            log,
        },
    ) = prepare(alloc, field, x, a)
    else {
        return None;
    };
    match cycle_basis(alloc, field, log) {
        Ok(basis) => Some((cells, basis)),
        Err(_) => None,
    }
}

// The same with dual cocycles.
fn basis_of<const P: u16>(
    alloc: Global,
    field: Field<P>,
    x: &CubeSet,
    a: &CubeSet,
) -> Option<(Numbered, Basis<P>)>
    ensures { IfSome result (λ made.
        IsRelativeComplex P x.now.cells a.now.cells made.0 made.1.log.complex) }
{
    let Ok(
        Prepared {
            cells,
            grown: _grown,
            left: _left,
            log,
        },
    ) = prepare(alloc, field, x, a)
    else {
        return None;
    };
    match basis(alloc, field, log) {
        Ok(basis) => Some((cells, basis)),
        Err(_) => None,
    }
}

// The matrices of the map of a carrier in bases of its pairs, one for each degree.
fn matrices_in<const P: u16>(
    alloc: Global,
    field: Field<P>,
    carrier: Carrier<P>,
    domain: &(Numbered, CycleBasis<P>),
    range: &(Numbered, Basis<P>),
) -> Option<Vec<Matrix<P>>>
    requires { ArePairsOfMap P carrier domain.now.0 domain.now.1 range.now.0 range.now.1 }
    ensures count { IfSome result (λ all. vec_len all ≡ carrier.entry.dimension + 1) }
    ensures matrices { IfSome result (λ all. (k : ℕ) → k < vec_len all
        → IsMatrixOf P carrier.entry domain.now.0 domain.now.1 range.now.0 range.now.1 k
        (nth all.items k)) }
{
    if first_too_large(&domain.1, &range.1, carrier.dimension()).is_some() {
        return None;
    }
    let Ok(mut selector) = Selector::new(alloc, field, carrier) else {
        return None;
    };
    match matrices(
        alloc,
        field,
        &domain.1,
        &domain.0,
        &range.1,
        &range.0,
        &mut selector,
    ) {
        Ok(all) => Some(all),
        Err(_) => None,
    }
}

// The matrices of a map with this carrier.
fn matrices_over<const P: u16>(
    alloc: Global,
    field: Field<P>,
    input: &PairMap,
    carrier: Carrier<P>,
) -> Option<Vec<Matrix<P>>>
    requires { IsCarrierOf P input.now carrier }
{
    let Some(domain) = cycles_of(alloc, field, &input.x, &input.a) else {
        return None;
    };
    let Some(range) = basis_of(alloc, field, &input.y, &input.b) else {
        return None;
    };
    matrices_in(alloc, field, carrier, &domain, &range)
}

// The matrices of a map.
fn matrices_of<const P: u16>(alloc: Global, input: &PairMap) -> Option<Vec<Matrix<P>>>
    requires { IsFitting input.now }
{
    let Some(field) = Field::<P>::get() else {
        return None;
    };
    match carrier_of(alloc, field, input) {
        Ok(carrier) => matrices_over(alloc, field, input, carrier),
        Err(_) => None,
    }
}

// The matrices of the map that doubles.
fn matrices_of_doubling<const P: u16>(alloc: Global) -> Option<Vec<Matrix<P>>> {
    match doubling(alloc) {
        Some(input) => matrices_of(alloc, &input),
        None => None,
    }
}

// The index matrices of a map with this carrier.
fn index_over<const P: u16>(
    alloc: Global,
    field: Field<P>,
    input: &PairMap,
    carrier: Carrier<P>,
) -> Option<Vec<Matrix<P>>>
    requires carrier { IsCarrierOf P input.now carrier }
    requires included { IsIncluded input.now.x.cells input.now.a.cells input.now.y.cells
        input.now.b.cells }
{
    let Some(domain) = cycles_of(alloc, field, &input.x, &input.a) else {
        return None;
    };
    let Some(range) = basis_of(alloc, field, &input.y, &input.b) else {
        return None;
    };
    // Their clauses say that degrees are numbers of one byte, and what bases are.
    let _last = carrier.dimension();
    let _cycles = domain.1.dimension(0);
    let _range_cycles = range.1.dimension(0);
    let Some(induced) = matrices_in(alloc, field, carrier, &domain, &range) else {
        return None;
    };
    match index(
        alloc, field, &domain.1, &domain.0, &range.1, &range.0, &induced,
    ) {
        Ok(all) => Some(all),
        Err(_) => None,
    }
}

// The index matrices of a map whose domain is included in its range.
fn index_of_included<const P: u16>(alloc: Global, input: &PairMap) -> Option<Vec<Matrix<P>>>
    requires fitting { IsFitting input.now }
    requires included { IsIncluded input.now.x.cells input.now.a.cells input.now.y.cells
        input.now.b.cells }
{
    let Some(field) = Field::<P>::get() else {
        return None;
    };
    match carrier_of(alloc, field, input) {
        Ok(carrier) => index_over(alloc, field, input, carrier),
        Err(_) => None,
    }
}

// The index matrices of a map, if its domain is included in its range.
fn index_of<const P: u16>(alloc: Global, input: &PairMap) -> Option<Vec<Matrix<P>>>
    requires { IsFitting input.now }
{
    match included(&input.x, &input.a, &input.y, &input.b) {
        None => index_of_included(alloc, input),
        Some(_) => None,
    }
}

// The index matrices of the map that doubles.
fn index_of_doubling<const P: u16>(alloc: Global) -> Option<Vec<Matrix<P>>> {
    match doubling(alloc) {
        Some(input) => index_of(alloc, &input),
        None => None,
    }
}

// Whether a matrix has no entries.
fn is_empty<const P: u16>(matrix: &Matrix<P>) -> bool {
    matrix.rows() == 0 && matrix.columns() == 0
}

// Whether a matrix is the number 1.
fn is_one<const P: u16>(matrix: &Matrix<P>) -> bool {
    matrix.rows() == 1 && matrix.columns() == 1 && matrix.entry(0, 0) == 1
}

// Whether matrices are an empty one and the number 1.
fn are_one_in_degree_1<const P: u16>(matrices: Option<Vec<Matrix<P>>>) -> bool {
    let Some(all) = matrices else {
        return false;
    };
    all.len() == 2 && is_empty(&all[0]) && is_one(&all[1])
}

// Whether a pair is told not to be included for a member at this cell.
fn is_told_at(reason: &NotIncluded, cell: &Cell) -> bool {
    match reason {
        NotIncluded::Whole { cube } => cube == cell,
        NotIncluded::Subset { .. } => false,
    }
}

// Whether the first member of the range that is not in the domain is the segment behind this place.
fn range_exceeds_domain_at(alloc: Global, at: i32) -> bool {
    let (Some(input), Some(cell)) = (doubling(alloc), cell_of_line(at, true)) else {
        return false;
    };
    match included(&input.y, &input.b, &input.x, &input.a) {
        Some(reason) => is_told_at(&reason, &cell),
        None => false,
    }
}

// Both pairs have one class, of degree 1, and the map sends the path through the domain once
// through the range.
#[test]
fn matrices_of_doubling_are_one(rt: HostRuntime) {
    assert!(rt; are_one_in_degree_1(matrices_of_doubling::<3>(rt.alloc())));
}

// The inclusion does too.
#[test]
fn index_matrices_of_doubling_are_one(rt: HostRuntime) {
    assert!(rt; are_one_in_degree_1(index_of_doubling::<2>(rt.alloc())));
    assert!(rt; are_one_in_degree_1(index_of_doubling::<3>(rt.alloc())));
}

#[test]
fn range_is_not_included_in_domain(rt: HostRuntime) {
    assert!(rt; range_exceeds_domain_at(rt.alloc(), -4));
}
