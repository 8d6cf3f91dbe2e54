//! Chains and complexes at small examples, modulo 5.
use chains::{Chain, Complex, ComplexFault};
use field_mod::Field;
use std::alloc::Global;
use std::test::Fail;

type Terms<'a> = &'a [(u32, u16)];

fn field() -> Result<Field<5>, Fail> {
    Ok(Field::get().ok_or("5 is in the table")?)
}

fn chain_of(alloc: Global, terms: Terms) -> Result<Chain<5>, Fail> {
    Ok(Chain::from_terms(alloc, field()?, terms)?)
}

/// Whether a chain has these terms and no other, by each call that reads it.
fn has_terms(chain: &Chain<5>, terms: Terms) -> bool {
    for place in 0..chain.len() {
        let (generator, coefficient) = chain.term(place);
        if terms.get(place) != Some(&(generator, coefficient)) {
            return false;
        }
        if chain.coefficient(generator) != coefficient {
            return false;
        }
    }
    chain.len() == terms.len() && chain.is_empty() == terms.is_empty()
}

/// The product of the chains of these terms.
fn product(alloc: Global, first: Terms, second: Terms) -> Result<u16, Fail> {
    let first = chain_of(alloc, first)?;
    let second = chain_of(alloc, second)?;
    Ok(first.dot(field()?, &second))
}

/// The complex of three generators with these boundaries.
fn complex_of(
    alloc: Global,
    degrees: [u8; 3],
    first: Terms,
    second: Terms,
    third: Terms,
) -> Result<Result<Complex<5>, ComplexFault>, Fail> {
    let degrees = degrees.to_vec(alloc)?;
    let mut boundaries = Vec::new(alloc);
    boundaries.push(chain_of(alloc, first)?)?;
    boundaries.push(chain_of(alloc, second)?)?;
    boundaries.push(chain_of(alloc, third)?)?;
    Ok(Complex::new(alloc, field()?, degrees, boundaries))
}

/// Two points and the segment between them.
fn interval(alloc: Global) -> Result<Complex<5>, Fail> {
    Ok(complex_of(alloc, [0, 0, 1], &[], &[], &[(0, 4), (1, 1)])??)
}

#[test]
fn terms_of_one_generator_are_added(rt: HostRuntime) -> Result<(), Fail> {
    let chain = chain_of(rt.alloc(), &[(1, 3), (2, 1), (1, 2)])?;
    assert!(rt; has_terms(&chain, &[(2, 1)]));
    assert_eq!(rt; chain.coefficient(1), 0);
    Ok(())
}

#[test]
fn terms_are_in_order(rt: HostRuntime) -> Result<(), Fail> {
    let terms = [(9, 1), (7, 2), (5, 3), (3, 4), (1, 1), (8, 7)];
    let chain = chain_of(rt.alloc(), &terms)?;
    let sorted = [(1, 1), (3, 4), (5, 3), (7, 2), (8, 2), (9, 1)];
    assert!(rt; has_terms(&chain, &sorted));
    assert_eq!(rt; chain.coefficient(6), 0);
    Ok(())
}

#[test]
fn the_empty_chain_has_no_terms(rt: HostRuntime) {
    assert!(rt; has_terms(&Chain::empty(rt.alloc()), &[]));
}

#[test]
fn multiples_are_added(rt: HostRuntime) -> Result<(), Fail> {
    let mut chain = chain_of(rt.alloc(), &[(2, 1)])?;
    let other = chain_of(rt.alloc(), &[(2, 2), (3, 1)])?;
    chain.add_scaled(field()?, 2, &other)?;
    assert!(rt; has_terms(&chain, &[(3, 2)]));
    let copy = chain.copy(rt.alloc())?;
    assert!(rt; has_terms(&copy, &[(3, 2)]));
    Ok(())
}

#[test]
fn products_are_taken(rt: HostRuntime) -> Result<(), Fail> {
    let alloc = rt.alloc();
    let of_one = product(alloc, &[(3, 2)], &[(3, 3)])?;
    let of_more = product(alloc, &[(2, 2), (3, 1)], &[(1, 1), (2, 3), (3, 3)])?;
    assert_eq!(rt; (of_one, of_more), (1, 4));
    Ok(())
}

#[test]
fn the_boundary_of_an_edge_is_its_ends(rt: HostRuntime) -> Result<(), Fail> {
    let interval = interval(rt.alloc())?;
    let edge = chain_of(rt.alloc(), &[(2, 1)])?;
    let boundary = interval.boundary_of(rt.alloc(), field()?, &edge)?;
    assert!(rt; has_terms(&boundary, &[(0, 4), (1, 1)]));
    Ok(())
}

#[test]
fn an_interval_is_a_complex(rt: HostRuntime) -> Result<(), Fail> {
    let interval = interval(rt.alloc())?;
    assert!(rt; interval.len() == 3);
    assert_eq!(rt; interval.degree(2), 1);
    assert!(rt; has_terms(interval.boundary(2), &[(0, 4), (1, 1)]));
    Ok(())
}

#[test]
fn a_complex_has_the_parts_that_it_was_made_of(rt: HostRuntime) -> Result<(), Fail> {
    let (degrees, boundaries) = interval(rt.alloc())?.into_parts();
    assert!(rt; degrees.as_slice() == [0, 0, 1].as_slice());
    assert_eq!(rt; boundaries.len(), 3);
    Ok(())
}

#[test]
fn a_boundary_of_a_boundary_is_refused(rt: HostRuntime) -> Result<(), Fail> {
    let fault = complex_of(rt.alloc(), [0, 1, 2], &[], &[(0, 1)], &[(1, 1)])?.err();
    let expected = ComplexFault::NotZero {
        generator: 2,
        at: 0,
        value: 1,
    };
    assert!(rt; fault == Some(expected));
    Ok(())
}

#[test]
fn a_wrong_degree_is_refused_first(rt: HostRuntime) -> Result<(), Fail> {
    let alloc = rt.alloc();
    let fault = complex_of(alloc, [0, 1, 2], &[], &[(0, 1)], &[(0, 1), (1, 1)])?.err();
    let expected = ComplexFault::BadDegree {
        generator: 2,
        at: 0,
    };
    assert!(rt; fault == Some(expected));
    let fault = complex_of(alloc, [0, 0, 1], &[], &[], &[(1, 1), (3, 1)])?.err();
    let expected = ComplexFault::BadDegree {
        generator: 2,
        at: 3,
    };
    assert!(rt; fault == Some(expected));
    Ok(())
}
