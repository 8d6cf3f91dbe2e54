//! Matrices: worked rows on small ones, each public call once.
ghost use Rattle.std.specs.Prelude.{◌≡◌, IfSome};

use field_mod::Field;
use leray_conley::{InverseFault, Matrix};
use std::test::Fail;

// A small matrix modulo 2, where the entries are so many and below 2.
fn modulo_two(rows: u32, columns: u32, entries: Vec<u16>) -> Option<Matrix<2>>
    ensures rows { IfSome result (λ m. m.rows ≡ rows) }
    ensures columns { IfSome result (λ m. m.columns ≡ columns) }
{
    let fits = entries.iter().all(|x| *x < 2);
    if rows > 100 || columns > 100 || !fits || entries.len() != (rows * columns) as usize {
        return None;
    }
    Some(Matrix::new(rows, columns, entries))
}

// A small matrix modulo 3, where the entries are so many and below 3.
fn modulo_three(rows: u32, columns: u32, entries: Vec<u16>) -> Option<Matrix<3>>
    ensures rows { IfSome result (λ m. m.rows ≡ rows) }
    ensures columns { IfSome result (λ m. m.columns ≡ columns) }
{
    let fits = entries.iter().all(|x| *x < 3);
    if rows > 100 || columns > 100 || !fits || entries.len() != (rows * columns) as usize {
        return None;
    }
    Some(Matrix::new(rows, columns, entries))
}

// A small matrix modulo 5, where the entries are so many and below 5.
fn modulo_five(rows: u32, columns: u32, entries: Vec<u16>) -> Option<Matrix<5>>
    ensures rows { IfSome result (λ m. m.rows ≡ rows) }
    ensures columns { IfSome result (λ m. m.columns ≡ columns) }
{
    let fits = entries.iter().all(|x| *x < 5);
    if rows > 100 || columns > 100 || !fits || entries.len() != (rows * columns) as usize {
        return None;
    }
    Some(Matrix::new(rows, columns, entries))
}

// The vector that shows that a matrix is singular.
fn singular_kernel<const P: u16>(found: Result<Matrix<P>, InverseFault>) -> Option<Vec<u16>> {
    match found {
        Ok(_) => None,
        Err(InverseFault::NoMemory) => None,
        Err(InverseFault::Singular { kernel }) => Some(kernel),
    }
}

#[test]
fn a_singular_matrix_modulo_two(rt: HostRuntime) -> Result<(), Fail> {
    let alloc = rt.alloc();
    let f = Field::<2>::get().ok_or("no field")?;
    let ones = modulo_two(2, 2, vec![in alloc; 1, 1, 1, 1]?).ok_or("no matrix")?;
    let singular = singular_kernel(ones.inverse(alloc, f)).ok_or("an inverse")?;
    assert_eq!(rt; singular.as_slice(), [1, 1].as_slice());
    assert_eq!(rt; ones.rank(alloc, f)?, 1);
    assert_eq!(rt; ones.trace(f), 0);
    let kernel = ones.kernel_vector(alloc, f)?.ok_or("no kernel")?;
    assert_eq!(rt; kernel.as_slice(), [1, 1].as_slice());
    let left = ones.left_vector(alloc, f)?.ok_or("no left kernel")?;
    assert_eq!(rt; left.as_slice(), [1, 1].as_slice());
    Ok(())
}

#[test]
fn its_square_is_zero(rt: HostRuntime) -> Result<(), Fail> {
    let alloc = rt.alloc();
    let f = Field::<2>::get().ok_or("no field")?;
    let ones = modulo_two(2, 2, vec![in alloc; 1, 1, 1, 1]?).ok_or("no matrix")?;
    assert_eq!(rt; ones.rows(), 2);
    assert_eq!(rt; ones.columns(), 2);
    let square = ones.times(alloc, f, &ones)?;
    assert_eq!(rt; square.rank(alloc, f)?, 0);
    assert_eq!(rt; square.entry(0, 1), 0);
    Ok(())
}

#[test]
fn an_inverse_modulo_five(rt: HostRuntime) -> Result<(), Fail> {
    let alloc = rt.alloc();
    let f = Field::<5>::get().ok_or("no field")?;
    let two = modulo_five(1, 1, vec![in alloc; 2]?).ok_or("no matrix")?;
    let inverse = two.inverse(alloc, f).ok().ok_or("no inverse")?;
    assert_eq!(rt; inverse.rows(), 1);
    assert_eq!(rt; inverse.columns(), 1);
    assert_eq!(rt; inverse.entry(0, 0), 3);
    Ok(())
}

#[test]
fn a_splitting_modulo_two(rt: HostRuntime) -> Result<(), Fail> {
    let alloc = rt.alloc();
    let f = Field::<2>::get().ok_or("no field")?;
    let square = modulo_two(2, 2, vec![in alloc; 1, 1, 0, 0]?).ok_or("no matrix")?;
    let leray = square.leray(alloc, f)?;
    assert_eq!(rt; leray.image.rows(), 2);
    assert_eq!(rt; leray.image.columns(), 1);
    assert_eq!(rt; leray.kernel.rows(), 2);
    assert_eq!(rt; leray.kernel.columns(), 1);
    assert_eq!(rt; (leray.image.entry(0, 0), leray.image.entry(1, 0)), (1, 0));
    assert_eq!(rt;
        (leray.kernel.entry(0, 0), leray.kernel.entry(1, 0)),
        (1, 1)
    );
    assert_eq!(rt; leray.reduced.trace(f), 1);
    Ok(())
}

#[test]
fn a_nilpotent_matrix_modulo_three(rt: HostRuntime) -> Result<(), Fail> {
    let alloc = rt.alloc();
    let f = Field::<3>::get().ok_or("no field")?;
    let square = modulo_three(2, 2, vec![in alloc; 0, 1, 0, 0]?).ok_or("no matrix")?;
    let leray = square.leray(alloc, f)?;
    assert_eq!(rt; leray.image.columns(), 0);
    assert_eq!(rt; leray.kernel.columns(), 2);
    Ok(())
}

#[test]
fn a_matrix_that_is_not_square(rt: HostRuntime) -> Result<(), Fail> {
    let alloc = rt.alloc();
    let f = Field::<3>::get().ok_or("no field")?;
    let entries = vec![in alloc; 1, 0, 2, 0, 1, 1]?;
    let wide = modulo_three(2, 3, entries).ok_or("no matrix")?;
    assert_eq!(rt; wide.rank(alloc, f)?, 2);
    let kernel = wide.kernel_vector(alloc, f)?.ok_or("no kernel")?;
    assert_eq!(rt; kernel.as_slice(), [1, 2, 1].as_slice());
    assert!(rt; wide.left_vector(alloc, f)?.is_none());
    Ok(())
}
