//! The lines of the matrices of a map.
ghost use Rattle.std.specs.Prelude.{◌≡◌, ◌++◌, ◌≤◌, length, OnOk};
ghost use Rattle.witness_writing.specs.Runs.{rows_text, matrix_text, matrices_text};

use leray_conley::Matrix;
use std::alloc::AllocError as NoMemory;
use witness_lines::put_row_line;

// Adds the lines of the rows of a matrix.
fn put_rows<const P: u16>(to: &mut Vec<u8>, degree: u8, matrix: &Matrix<P>) -> Result<(), NoMemory>
    ensures { OnOk result (to.new.items ≡ to.old.items ++ rows_text degree matrix.now) }
{
    for row in 0..matrix.rows() {
        put_row_line(to, degree, matrix, row)?;
    }
    Ok(())
}

// Adds the lines of the matrix of a degree, where it has columns.
fn put_matrix<const P: u16>(
    to: &mut Vec<u8>,
    degree: u8,
    matrix: &Matrix<P>,
) -> Result<(), NoMemory>
    ensures { OnOk result (to.new.items ≡ to.old.items ++ matrix_text degree matrix.now) }
{
    if matrix.columns() == 0 {
        return Ok(());
    }
    put_rows(to, degree, matrix)
}

/// Adds the lines of the matrices by degree, of which there are few.
pub(crate) fn put_matrices<const P: u16>(
    to: &mut Vec<u8>,
    matrices: &[Matrix<P>],
) -> Result<(), NoMemory>
    requires { length matrices.now ≤ 255 }
    ensures { OnOk result (to.new.items ≡ to.old.items ++ matrices_text matrices.now) }
{
    for degree in 0..matrices.len() {
        put_matrix(to, degree as u8, &matrices[degree])?;
    }
    Ok(())
}
