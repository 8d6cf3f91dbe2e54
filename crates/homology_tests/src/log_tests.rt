//! A segment, a circle, a projective plane and a torus, reduced step by step and at once.
ghost use Rattle.std.specs.Prelude.{◌≡◌, ◌<◌, length, IfOk};
ghost use Rattle.algebraic_reduction.specs.Reduction.{IsUnpaired};

use algebraic_reduction::Log;
use chains::{Chain, Complex};
use field_mod::Field;
use std::alloc::Global;
use std::test::Fail;

type Triangle = (u32, u32, u32);

/// The projective plane on six vertices, any two of which span an edge.
const PROJECTIVE_PLANE: [Triangle; 10] = [
    (0, 1, 2),
    (0, 1, 5),
    (0, 2, 3),
    (0, 3, 4),
    (0, 4, 5),
    (1, 2, 4),
    (1, 3, 4),
    (1, 3, 5),
    (2, 3, 5),
    (2, 4, 5),
];

/// The torus on seven vertices, any two of which span an edge.
const TORUS: [Triangle; 14] = [
    (0, 1, 3),
    (0, 1, 5),
    (0, 2, 3),
    (0, 2, 6),
    (0, 4, 5),
    (0, 4, 6),
    (1, 2, 4),
    (1, 2, 6),
    (1, 3, 4),
    (1, 5, 6),
    (2, 3, 5),
    (2, 4, 5),
    (3, 4, 6),
    (3, 5, 6),
];

fn field<const P: u16>() -> Result<Field<P>, Fail> {
    Ok(Field::get().ok_or("a modulus of the table")?)
}

/// Degrees and boundaries of the generators of a complex that is being listed.
#[derive(Drop)]
struct Cells<const P: u16> {
    degrees: Vec<u8>,
    boundaries: Vec<Chain<P>>,
}

impl<const P: u16> Cells<P> {
    fn new(alloc: Global) -> Self {
        Cells {
            degrees: Vec::new(alloc),
            boundaries: Vec::new(alloc),
        }
    }

    fn push(&mut self, alloc: Global, degree: u8, boundary: &[(u32, u16)]) -> Result<(), Fail> {
        self.degrees.push(degree)?;
        self.boundaries
            .push(Chain::from_terms(alloc, field()?, boundary)?)?;
        Ok(())
    }

    fn complex(self, alloc: Global) -> Result<Complex<P>, Fail> {
        let Cells {
            degrees,
            boundaries,
        } = self;
        if degrees.len() != boundaries.len() || degrees.len() > 100 {
            return Err(Fail::from("few cells, a boundary each"));
        }
        Ok(Complex::new(alloc, field()?, degrees, boundaries)?)
    }
}

/// The segment modulo 5.
fn segment(alloc: Global) -> Result<Complex<5>, Fail> {
    let mut cells = Cells::new(alloc);
    cells.push(alloc, 0, &[])?;
    cells.push(alloc, 0, &[])?;
    cells.push(alloc, 1, &[(0, 4), (1, 1)])?;
    cells.complex(alloc)
}

/// So many vertices and these edges, each from a vertex to another.
fn graph<const P: u16>(
    alloc: Global,
    vertices: u32,
    edges: &[(u32, u32)],
) -> Result<Complex<P>, Fail> {
    let mut cells = Cells::new(alloc);
    for _vertex in 0..vertices {
        cells.push(alloc, 0, &[])?;
    }
    for (from, to) in edges {
        cells.push(alloc, 1, &[(*from, P.saturating_sub(1)), (*to, 1)])?;
    }
    cells.complex(alloc)
}

/// The boundary of a square.
fn circle<const P: u16>(alloc: Global) -> Result<Complex<P>, Fail> {
    graph(alloc, 4, &[(0, 1), (1, 2), (2, 3), (3, 0)])
}

/// The number of the edge between two of so many vertices, any two of which span one; the vertices
/// are numbered first.
fn edge(vertices: u32, low: u32, high: u32) -> Result<u32, Fail> {
    let mut number = vertices;
    for first in 0..vertices {
        for second in first.saturating_add(1)..vertices {
            if first == low && second == high {
                return Ok(number);
            }
            number = number.saturating_add(1);
        }
    }
    Err(Fail::from("no edge"))
}

/// The surface of these triangles, any two of whose vertices span an edge.
fn surface<const P: u16>(
    alloc: Global,
    vertices: u32,
    triangles: &[Triangle],
) -> Result<Complex<P>, Fail> {
    let minus = P.saturating_sub(1);
    let mut cells = Cells::new(alloc);
    for _vertex in 0..vertices {
        cells.push(alloc, 0, &[])?;
    }
    for low in 0..vertices {
        for high in low.saturating_add(1)..vertices {
            cells.push(alloc, 1, &[(low, minus), (high, 1)])?;
        }
    }
    for (a, b, c) in triangles {
        let boundary = [
            (edge(vertices, *b, *c)?, 1),
            (edge(vertices, *a, *c)?, minus),
            (edge(vertices, *a, *b)?, 1),
        ];
        cells.push(alloc, 2, &boundary)?;
    }
    cells.complex(alloc)
}

/// The step of two generators of so many, where it may be made.
fn reduce_if<const P: u16>(
    alloc: Global,
    log: Log<P>,
    field: Field<P>,
    count: u32,
    a: u32,
    b: u32,
) -> Result<Log<P>, Fail>
    requires { count ≡ length log.complex.boundaries }
    ensures { IfOk result (λ l. l.complex ≡ log.entry.complex) }
{
    if a >= count || b >= count || !log.alive(a) || !log.alive(b) {
        return Err(Fail::from("two generators that are left"));
    }
    let row = log.left_boundary(alloc, field, b)?;
    if row.coefficient(a) == 0 {
        return Err(Fail::from("an incidence number that is not 0"));
    }
    Ok(log.reduce_pair(field, a, b)?)
}

/// The inclusion of a generator, where it is one of what is left.
fn include_if<const P: u16>(
    alloc: Global,
    log: &Log<P>,
    field: Field<P>,
    count: u32,
    generator: u32,
) -> Result<Chain<P>, Fail>
    requires { count ≡ length log.now.complex.boundaries }
{
    if generator >= count || !log.alive(generator) {
        return Err(Fail::from("a generator that is left"));
    }
    let chain = Chain::from_terms(alloc, field, &[(generator, 1)])?;
    Ok(log.include(alloc, field, &chain)?)
}

/// The degrees of the generators of a complex.
fn degrees_of<const P: u16>(alloc: Global, complex: &Complex<P>) -> Result<Vec<u8>, Fail> {
    let mut degrees = Vec::new(alloc);
    for generator in 0..complex.len() {
        degrees.push(complex.degree(generator))?;
    }
    Ok(degrees)
}

/// How many of so many generators of each degree are left, and whether all that is left has no
/// boundary.
fn left<const P: u16>(
    alloc: Global,
    log: &Log<P>,
    count: u32,
    degrees: &[u8],
) -> Result<([u32; 3], bool), Fail>
    requires { count ≡ length log.now.complex.boundaries }
{
    let mut counts = [0u32; 3];
    let mut empty = true;
    for generator in 0..count {
        if log.alive(generator) {
            let boundary = log.left_boundary(alloc, field()?, generator)?;
            empty = empty && boundary.is_empty();
            let degree = degrees.get(generator as usize).copied().unwrap_or(3) as usize;
            if degree < 3 {
                counts[degree] = counts[degree].saturating_add(1);
            }
        }
    }
    Ok((counts, empty))
}

/// Whether the transposed projection of a generator has at each generator what the projection of
/// that one has at it.
fn transposes<const P: u16>(
    alloc: Global,
    log: &Log<P>,
    field: Field<P>,
    count: u32,
    generator: u32,
) -> Result<bool, Fail> {
    let chain = Chain::from_terms(alloc, field, &[(generator, 1)])?;
    let transposed = log.transposed_projection(alloc, field, &chain)?;
    let mut same = true;
    for other in 0..count {
        let single = Chain::from_terms(alloc, field, &[(other, 1)])?;
        let projected = log.project(alloc, field, &single)?;
        same = same && transposed.coefficient(other) == projected.dot(field, &chain);
    }
    Ok(same)
}

/// Reduces all of a complex, and tells whether so many generators of each degree are left without a
/// boundary, whether each is the projection of its inclusion, and whether the projection and the
/// transposed one agree.
fn reduces_to<const P: u16>(
    alloc: Global,
    complex: Complex<P>,
    expected: [u32; 3],
) -> Result<bool, Fail> {
    let field = field()?;
    let count = complex.len();
    let degrees = degrees_of(alloc, &complex)?;
    let log = Log::start(alloc, complex)?.reduce_all(field)?;
    let (dimensions, empty) = left(alloc, &log, count, &degrees)?;
    let mut good = empty && dimensions == expected;
    for generator in 0..count {
        if log.alive(generator) {
            let included = include_if(alloc, &log, field, count, generator)?;
            let back = log.project(alloc, field, &included)?;
            good = good && back.to_vec(alloc)?.as_slice() == [(generator, 1)].as_slice();
            good = good && transposes(alloc, &log, field, count, generator)?;
        }
    }
    Ok(good)
}

/// The segment after the step of its second end and the edge.
fn segment_by_its_edge(alloc: Global) -> Result<Log<5>, Fail>
    ensures { IfOk result (λ l. length l.complex.boundaries ≡ 3) }
{
    let complex = segment(alloc)?;
    let count = complex.len();
    if count != 3 {
        return Err(Fail::from("three cells"));
    }
    let log = reduce_if(alloc, Log::start(alloc, complex)?, field()?, count, 1, 2)?;
    Ok(log)
}

fn of_one(alloc: Global, generator: u32) -> Result<Chain<5>, Fail> {
    Ok(Chain::from_terms(alloc, field()?, &[(generator, 1)])?)
}

#[test]
fn a_step_stands_in_the_log(rt: HostRuntime) -> Result<(), Fail> {
    let log = segment_by_its_edge(rt.alloc())?;
    assert_eq!(rt; log.step_count(), 1);
    if 0 < log.step_count() {
        assert_eq!(rt; log.step(0), (1, 2));
    }
    assert!(rt; log.alive(0));
    assert!(rt; !log.alive(1));
    assert!(rt; !log.alive(2));
    assert_eq!(rt; log.complex().len(), 3);
    Ok(())
}

#[test]
fn the_second_end_goes_to_the_first(rt: HostRuntime) -> Result<(), Fail> {
    let log = segment_by_its_edge(rt.alloc())?;
    let projected = log.project(rt.alloc(), field()?, &of_one(rt.alloc(), 1)?)?;
    assert!(rt; projected.to_vec(rt.alloc())?.as_slice() == [(0, 1)].as_slice());
    let projected = log.project(rt.alloc(), field()?, &of_one(rt.alloc(), 2)?)?;
    assert!(rt; projected.is_empty());
    Ok(())
}

#[test]
fn the_first_end_is_included_as_it_is(rt: HostRuntime) -> Result<(), Fail> {
    let log = segment_by_its_edge(rt.alloc())?;
    let included = include_if(rt.alloc(), &log, field()?, 3, 0)?;
    assert!(rt; included.to_vec(rt.alloc())?.as_slice() == [(0, 1)].as_slice());
    Ok(())
}

#[test]
fn the_second_end_is_raised_to_the_edge(rt: HostRuntime) -> Result<(), Fail> {
    let log = segment_by_its_edge(rt.alloc())?;
    let raised = log.homotopy(rt.alloc(), field()?, &of_one(rt.alloc(), 1)?)?;
    assert!(rt; raised.to_vec(rt.alloc())?.as_slice() == [(2, 1)].as_slice());
    Ok(())
}

#[test]
fn all_of_the_segment(rt: HostRuntime) -> Result<(), Fail> {
    let alloc = rt.alloc();
    let complex = segment(alloc)?;
    let count = complex.len();
    let log = Log::start(alloc, complex)?.reduce_all(field()?)?;
    let (dimensions, empty) = left(alloc, &log, count, &[0, 0, 1])?;
    assert!(rt; dimensions == [1, 0, 0]);
    assert!(rt; empty);
    assert_eq!(rt; log.step_count(), 1);
    Ok(())
}

#[test]
fn further_steps_keep_the_first(rt: HostRuntime) -> Result<(), Fail> {
    let alloc = rt.alloc();
    let complex = circle::<3>(alloc)?;
    let count = complex.len();
    let log = reduce_if(alloc, Log::start(alloc, complex)?, field()?, count, 2, 6)?;
    let log = log.reduce_all(field()?)?;
    assert_eq!(rt; log.step_count(), 3);
    if 0 < log.step_count() {
        assert_eq!(rt; log.step(0), (2, 6));
    }
    let (dimensions, empty) = left(alloc, &log, count, &[0, 0, 0, 0, 1, 1, 1, 1])?;
    assert!(rt; dimensions == [1, 1, 0]);
    assert!(rt; empty);
    Ok(())
}

/// The first of the steps by which all of a complex is reduced, and their number.
fn first_step<const P: u16>(alloc: Global, complex: Complex<P>) -> Result<((u32, u32), u32), Fail> {
    let log = Log::start(alloc, complex)?.reduce_all(field()?)?;
    let count = log.step_count();
    if count == 0 {
        return Err(Fail::from("a step"));
    }
    Ok((log.step(0), count))
}

// The edge of 1 and 3 is in the first triangle alone, and those of 0 are in two.
#[test]
fn a_free_pair_comes_first(rt: HostRuntime) -> Result<(), Fail> {
    let alloc = rt.alloc();
    let complex = surface::<3>(alloc, 4, &[(0, 1, 3), (0, 1, 2), (0, 2, 3)])?;
    let (step, count) = first_step(alloc, complex)?;
    assert_eq!(rt; step, (edge(4, 1, 3)?, 10));
    assert_eq!(rt; count, 6);
    Ok(())
}

// Neither end of the first edge is in a row yet: the last one is taken.
#[test]
fn the_lightest_column_comes_first(rt: HostRuntime) -> Result<(), Fail> {
    let alloc = rt.alloc();
    let complex = graph::<3>(alloc, 4, &[(0, 1), (1, 2), (2, 3), (3, 0), (0, 2)])?;
    let (step, count) = first_step(alloc, complex)?;
    assert_eq!(rt; step, (1, 4));
    assert_eq!(rt; count, 3);
    Ok(())
}

#[test]
fn a_circle_has_one_hole(rt: HostRuntime) -> Result<(), Fail> {
    let alloc = rt.alloc();
    let modulo_two = reduces_to(alloc, circle::<2>(alloc)?, [1, 1, 0])?;
    assert!(rt; modulo_two);
    let modulo_three = reduces_to(alloc, circle::<3>(alloc)?, [1, 1, 0])?;
    assert!(rt; modulo_three);
    Ok(())
}

#[test]
fn the_projective_plane_depends_on_the_prime(rt: HostRuntime) -> Result<(), Fail> {
    let alloc = rt.alloc();
    let two = surface::<2>(alloc, 6, &PROJECTIVE_PLANE)?;
    let modulo_two = reduces_to(alloc, two, [1, 1, 1])?;
    assert!(rt; modulo_two);
    let three = surface::<3>(alloc, 6, &PROJECTIVE_PLANE)?;
    let modulo_three = reduces_to(alloc, three, [1, 0, 0])?;
    assert!(rt; modulo_three);
    Ok(())
}

#[test]
fn the_torus_has_two_tunnels(rt: HostRuntime) -> Result<(), Fail> {
    let alloc = rt.alloc();
    let two = surface::<2>(alloc, 7, &TORUS)?;
    let modulo_two = reduces_to(alloc, two, [1, 2, 1])?;
    assert!(rt; modulo_two);
    let five = surface::<5>(alloc, 7, &TORUS)?;
    let modulo_five = reduces_to(alloc, five, [1, 2, 1])?;
    assert!(rt; modulo_five);
    Ok(())
}
