//! The matrices of all degrees.
ghost use Rattle.std.specs.Prelude.{◌≡◌, ◌++◌, ◌∷◌, [], ◌<◌, OnOk, IfOk, IfErr, IfSome};
ghost use Rattle.witness_runs.specs.Rows.{StopsRows};
ghost use Rattle.witness_reading.specs.Ends.{IfTold};
ghost use Rattle.map_lines.specs.Matrices.{size_in, row_lines, HasMatrix, HasAllMatrices, StopsInMatrices};

use chains::Chain;
use matrix_rows::MatrixRows;
use std::alloc::{AllocError as NoMemory, Global};
use witness_runs::{Stop, rows_due};

// How many cycles have this degree; none where they are too many to be counted.
fn count_in<const P: u16>(cycles: &[(u8, Chain<P>)], degree: u8) -> Option<u32>
    ensures { IfSome result (λ count. count ≡ size_in cycles.now degree) }
{
    let mut count: u32 = 0;
    for place in 0..cycles.len() {
        if cycles[place].0 == degree {
            count = count.checked_add(1)?;
        }
    }
    Some(count)
}

// The matrix of a degree, of this height and width, and what stands behind its lines.
fn read_matrix<const P: u16>(
    alloc: Global,
    bytes: &[u8],
    degree: u8,
    height: u32,
    width: u32,
) -> Result<(MatrixRows<P>, &[u8]), Stop>
    ensures ok { IfOk result (λ r. HasMatrix P degree height width bytes.now r.0 r.1.now) }
    ensures err { IfErr result
        (StopsRows P degree width (row_lines height width) bytes.now) }
{
    let lines = if width == 0 { 0 } else { height };
    match rows_due(alloc, bytes, u32::from(degree), lines, width, P) {
        Ok((entries, rest)) => Ok((MatrixRows::new(height, width, entries), rest)),
        Err(stop) => Err(stop),
    }
}

// One more matrix.
fn keep_matrix<const P: u16>(
    matrices: &mut Vec<MatrixRows<P>>,
    matrix: MatrixRows<P>,
) -> Result<(), NoMemory>
    ensures { OnOk result (matrices.new.items ≡ matrices.old.items ++ matrix.entry ∷ []) }
{
    matrices.push(matrix)?;
    Ok(())
}

/// The matrices of the degrees from 0 to `top`, with a row for each cycle of the range and a column
/// for each cycle of the domain; and what stands behind their lines.
pub(crate) fn read_matrices<'a, const P: u16>(
    alloc: Global,
    bytes: &'a [u8],
    domain: &[(u8, Chain<P>)],
    range: &[(u8, Chain<P>)],
    top: u8,
) -> Result<(Vec<MatrixRows<P>>, &'a [u8]), Stop>
    requires { top < 255 }
    ensures ok { IfOk result (λ r. HasAllMatrices P top (size_in range.now) (size_in domain.now)
        bytes.now r.0.items r.1.now) }
    ensures err { IfErr result
        (IfTold (StopsInMatrices P top (size_in range.now) (size_in domain.now) bytes.now)) }
{
    let mut matrices = Vec::new(alloc);
    let mut rest = bytes;
    for degree in 0..top + 1 {
        let (Some(height), Some(width)) = (count_in(range, degree), count_in(domain, degree)) else {
            return Err(Stop::NoMemory);
        };
        match read_matrix(alloc, rest, degree, height, width) {
            Ok((matrix, behind)) => {
                keep_matrix(&mut matrices, matrix)?;
                rest = behind;
            }
            Err(stop) => return Err(stop),
        }
    }
    Ok((matrices, rest))
}
