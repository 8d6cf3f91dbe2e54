//! Bases of a segment, of three edges between two points, of an interval relative to its ends, and
//! of the border of a square.
use algebraic_reduction::Log;
use chains::{Chain, Complex};
use cube_sets::CubeSet;
use elem_cubes::{Cell, Corner};
use field_mod::Field;
use homology_basis::{Basis, basis, prepare};
use std::alloc::Global;
use std::test::Fail;

type Terms<'a> = &'a [(u32, u16)];

fn field<const P: u16>() -> Result<Field<P>, Fail> {
    Ok(Field::get().ok_or("a modulus of the table")?)
}

/// The basis of two points, the generators 0 and 1, and so many edges from the first to the second.
fn basis_of_edges<const P: u16>(alloc: Global, edges: u32) -> Result<Basis<P>, Fail> {
    let field = field()?;
    let mut degrees = vec![in alloc; 0, 0]?;
    let mut boundaries = vec![in alloc; Chain::empty(alloc), Chain::empty(alloc)]?;
    for _edge in 0..edges {
        degrees.push(1)?;
        let ends = [(0, P.saturating_sub(1)), (1, 1)];
        boundaries.push(Chain::from_terms(alloc, field, &ends)?)?;
    }
    if degrees.len() != boundaries.len() || degrees.len() > 100 {
        return Err(Fail::from("few generators, a boundary each"));
    }
    let complex = Complex::new(alloc, field, degrees, boundaries)?;
    let log = Log::start(alloc, complex)?.reduce_all(field)?;
    Ok(basis(alloc, field, log)?)
}

fn cell(corner: &[i32], axes: u8) -> Result<Cell, Fail> {
    let corner = Corner::of(corner).ok_or("a corner")?;
    Ok(Cell::new(corner, axes).ok_or("a cell")?)
}

fn set_of(alloc: Global, dimension: u8, cells: &[Cell]) -> Result<CubeSet, Fail> {
    if dimension == 0 || dimension > 2 {
        return Err(Fail::from("a small dimension"));
    }
    if cells.len() > 4 || !cube_sets::are_members(dimension, cells) {
        return Err(Fail::from("few cells of one length"));
    }
    let members = Vec::from_slice(alloc, cells)?;
    Ok(CubeSet::of_cells(dimension, members)?)
}

/// The basis of a pair of sets, and the number of its relative cells.
fn basis_of_pair<const P: u16>(
    alloc: Global,
    dimension: u8,
    x: &[Cell],
    a: &[Cell],
) -> Result<(Basis<P>, u32), Fail> {
    let field = field()?;
    let x = set_of(alloc, dimension, x)?;
    let a = set_of(alloc, dimension, a)?;
    let prepared = prepare(alloc, field, &x, &a)?;
    let count = prepared.cells.len();
    Ok((basis(alloc, field, prepared.log)?, count))
}

/// The border of a square modulo 3.
fn basis_of_border(alloc: Global) -> Result<(Basis<3>, u32), Fail> {
    let edges = [
        cell(&[0, 0], 1)?,
        cell(&[0, 0], 2)?,
        cell(&[0, 1], 1)?,
        cell(&[1, 0], 2)?,
    ];
    basis_of_pair(alloc, 2, &edges, &[])
}

/// Dimensions in the degrees 0, 1, 2 and in the last one.
fn dimensions<const P: u16>(basis: &Basis<P>) -> [u32; 4] {
    [
        basis.dimension(0),
        basis.dimension(1),
        basis.dimension(2),
        basis.dimension(255),
    ]
}

/// Whether the first class of a degree has a cycle of these terms.
fn has_cycle<const P: u16>(
    alloc: Global,
    basis: &Basis<P>,
    degree: u8,
    cycle: Terms,
) -> Result<bool, Fail> {
    if basis.dimension(degree) == 0 {
        return Ok(false);
    }
    let terms = basis.cycle(degree, 0).to_vec(alloc)?;
    Ok(terms.as_slice() == cycle)
}

/// Whether the first class of a degree has a cocycle of these terms.
fn has_cocycle<const P: u16>(
    alloc: Global,
    basis: &Basis<P>,
    degree: u8,
    cocycle: Terms,
) -> Result<bool, Fail> {
    if basis.dimension(degree) == 0 {
        return Ok(false);
    }
    let terms = basis.cocycle(degree, 0).to_vec(alloc)?;
    Ok(terms.as_slice() == cocycle)
}

/// Whether the cocycle of each class of a degree is 1 on its cycle and 0 on the other cycles.
fn are_dual<const P: u16>(field: Field<P>, basis: &Basis<P>, degree: u8) -> bool {
    let count = basis.dimension(degree);
    for i in 0..count {
        for j in 0..count {
            let value = basis.cocycle(degree, i).dot(field, basis.cycle(degree, j));
            if value != u16::from(i == j) {
                return false;
            }
        }
    }
    true
}

/// The chain h of the boundary of a generator.
fn contraction_of_boundary<const P: u16>(
    alloc: Global,
    field: Field<P>,
    basis: &Basis<P>,
    generator: u32,
) -> Result<Chain<P>, Fail> {
    let complex = basis.complex();
    let mut sum = Chain::empty(alloc);
    if generator >= complex.len() {
        return Ok(sum);
    }
    let boundary = complex.boundary(generator);
    for place in 0..boundary.len() {
        let (at, value) = boundary.term(place);
        if at >= complex.len() {
            return Err(Fail::from("a boundary in the complex"));
        }
        let row = basis.contraction_row(alloc, field, at)?;
        sum.add_scaled(field, field.of_i64(i64::from(value)), &row)?;
    }
    Ok(sum)
}

/// The boundary of the chain h of a generator.
fn boundary_of_contraction<const P: u16>(
    alloc: Global,
    field: Field<P>,
    basis: &Basis<P>,
    generator: u32,
) -> Result<Chain<P>, Fail> {
    if generator >= basis.complex().len() {
        return Err(Fail::from("a generator"));
    }
    let row = basis.contraction_row(alloc, field, generator)?;
    Ok(basis.complex().boundary_of(alloc, field, &row)?)
}

/// The cycles of a degree times the values of their cocycles on a generator.
fn projection<const P: u16>(
    alloc: Global,
    field: Field<P>,
    basis: &Basis<P>,
    degree: u8,
    generator: u32,
) -> Result<Chain<P>, Fail> {
    let mut sum = Chain::empty(alloc);
    for i in 0..basis.dimension(degree) {
        let value = i64::from(basis.cocycle(degree, i).coefficient(generator));
        sum.add_scaled(field, field.of_i64(value), basis.cycle(degree, i))?;
    }
    Ok(sum)
}

/// Whether each generator is the boundary of its chain h, h of its boundary, and the cycles times
/// the values of their cocycles on it, added.
fn is_contracted<const P: u16>(alloc: Global, basis: &Basis<P>) -> Result<bool, Fail> {
    let field = field()?;
    let one = field.of_i64(1);
    let mut contracted = true;
    for generator in 0..basis.complex().len() {
        let degree = basis.complex().degree(generator);
        let mut sum = projection(alloc, field, basis, degree, generator)?;
        let part = contraction_of_boundary(alloc, field, basis, generator)?;
        sum.add_scaled(field, one, &part)?;
        let part = boundary_of_contraction(alloc, field, basis, generator)?;
        sum.add_scaled(field, one, &part)?;
        contracted = contracted && sum.to_vec(alloc)?.as_slice() == [(generator, 1)].as_slice();
    }
    Ok(contracted)
}

#[test]
fn a_segment_has_one_class(rt: HostRuntime) -> Result<(), Fail> {
    let basis = basis_of_edges::<5>(rt.alloc(), 1)?;
    assert!(rt; dimensions(&basis) == [1, 0, 0, 0]);
    assert!(rt; has_cocycle(rt.alloc(), &basis, 0, &[(0, 1), (1, 1)])?);
    assert!(rt; basis.dimension(0) == 1);
    assert_eq!(rt; basis.cycle(0, 0).len(), 1);
    Ok(())
}

#[test]
fn a_segment_is_contracted(rt: HostRuntime) -> Result<(), Fail> {
    let basis = basis_of_edges::<5>(rt.alloc(), 1)?;
    assert_eq!(rt; basis.complex().len(), 3);
    let contracted = is_contracted(rt.alloc(), &basis)?;
    assert!(rt; contracted);
    Ok(())
}

#[test]
fn three_edges_between_two_points_have_two_loops(rt: HostRuntime) -> Result<(), Fail> {
    let basis = basis_of_edges::<3>(rt.alloc(), 3)?;
    assert!(rt; dimensions(&basis) == [1, 2, 0, 0]);
    let field = field()?;
    assert!(rt; are_dual(field, &basis, 0) && are_dual(field, &basis, 1));
    let contracted = is_contracted(rt.alloc(), &basis)?;
    assert!(rt; contracted);
    Ok(())
}

#[test]
fn an_interval_relative_to_its_ends_is_a_cycle(rt: HostRuntime) -> Result<(), Fail> {
    let ends = [cell(&[0], 0)?, cell(&[1], 0)?];
    let (basis, count) = basis_of_pair::<2>(rt.alloc(), 1, &[cell(&[0], 1)?], &ends)?;
    assert_eq!(rt; count, 1);
    assert!(rt; dimensions(&basis) == [0, 1, 0, 0]);
    assert!(rt; has_cycle(rt.alloc(), &basis, 1, &[(0, 1)])?);
    assert!(rt; has_cocycle(rt.alloc(), &basis, 1, &[(0, 1)])?);
    assert!(rt; basis.complex().len() == 1);
    let row = basis.contraction_row(rt.alloc(), field()?, 0)?;
    assert!(rt; row.is_empty());
    Ok(())
}

#[test]
fn the_border_of_a_square_has_a_loop(rt: HostRuntime) -> Result<(), Fail> {
    let (basis, count) = basis_of_border(rt.alloc())?;
    assert_eq!(rt; count, 8);
    assert!(rt; dimensions(&basis) == [1, 1, 0, 0]);
    assert!(rt; has_cycle(rt.alloc(), &basis, 1, &[(1, 1), (2, 2), (4, 1), (6, 2)])?);
    Ok(())
}

#[test]
fn the_border_of_a_square_is_contracted(rt: HostRuntime) -> Result<(), Fail> {
    let (basis, _) = basis_of_border(rt.alloc())?;
    let field = field()?;
    assert!(rt; are_dual(field, &basis, 0) && are_dual(field, &basis, 1));
    let contracted = is_contracted(rt.alloc(), &basis)?;
    assert!(rt; contracted);
    Ok(())
}
