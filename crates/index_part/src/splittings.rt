//! Leray splittings as they are printed.
ghost use Rattle.std.specs.Prelude.{◌≡◌, ◌<◌, ℕ, length, IfOk};
ghost use Rattle.induced_map.specs.Matrices.{nth};
ghost use Rattle.index_part.specs.Filled.{IsFilled};
ghost use Rattle.index_part.specs.Made.{AreLerayRows, AreLerayRowsOf};
ghost use Rattle.index_part.specs.Right.{no_leray};

use crate::tables::rows_of;
use field_mod::Field;
use leray_conley::{Leray, Matrix};
use report::LerayRows;
use std::alloc::{AllocError as NoMemory, Global};

// The rows of the five matrices of a splitting.
fn leray_rows<const P: u16>(alloc: Global, leray: &Leray<P>) -> Result<LerayRows, NoMemory>
    ensures { IfOk result (AreLerayRows P leray.now) }
{
    let image = rows_of(alloc, &leray.image)?;
    let kernel = rows_of(alloc, &leray.kernel)?;
    let reduced = rows_of(alloc, &leray.reduced)?;
    let reduced_inverse = rows_of(alloc, &leray.reduced_inverse)?;
    let split_inverse = rows_of(alloc, &leray.split_inverse)?;
    Ok(LerayRows {
        image,
        kernel,
        reduced,
        reduced_inverse,
        split_inverse,
    })
}

// The Leray splitting of a square matrix.
fn splitting_of<const P: u16>(
    alloc: Global,
    field: Field<P>,
    matrix: &Matrix<P>,
) -> Result<LerayRows, NoMemory>
    requires { matrix.now.rows ≡ matrix.now.columns }
    ensures { IfOk result (AreLerayRowsOf P matrix.now) }
{
    let leray = matrix.leray(alloc, field)?;
    let rows = leray_rows(alloc, &leray)?;
    Ok(rows)
}

/// The Leray splittings of all matrices, which are square.
pub(crate) fn splittings_of<const P: u16>(
    alloc: Global,
    field: Field<P>,
    matrices: &[Matrix<P>],
) -> Result<Vec<LerayRows>, NoMemory>
    requires { (k : ℕ) → k < length matrices.now
        → (nth matrices.now k).rows ≡ (nth matrices.now k).columns }
    ensures { IfOk result (λ all. IsFilled no_leray
        (λ k. AreLerayRowsOf P (nth matrices.now k)) (length matrices.now) all.items) }
{
    let mut all = Vec::new(alloc);
    for matrix in matrices {
        all.push(splitting_of(alloc, field, matrix)?)?;
    }
    Ok(all)
}
