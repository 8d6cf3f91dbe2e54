//! The lines of the rows of one degree.
ghost use Rattle.std.specs.Prelude.{◌≡◌, ◌+◌, ◌<◌, ◌≤◌, ◌^◌, ◌↔◌, length, IfOk, IfErr, IsTrue};
ghost use Rattle.witness_rows.specs.Rows.{Agrees, RowsPassed, IsRowFault};

use chain_lists::combined;
use chains::Chain;
use field_mod::Field;
use matrix_rows::MatrixRows;
use std::alloc::Global;
use witness_types::{Law, WitnessFault};

// Whether a row of a matrix has these values.
fn agrees<const P: u16>(matrix: &MatrixRows<P>, row: u32, values: &Chain<P>) -> bool
    requires { row < matrix.now.rows }
    ensures { IsTrue result ↔ Agrees matrix.now row values.now }
{
    for column in 0..matrix.columns() {
        let entry = matrix.entry(row, column);
        let value = values.coefficient(column);
        if entry != value {
            return false;
        }
    }
    true
}

/// The lines of the rows of a matrix, of which the first has this number, against the cocycles of
/// the range and the images of the cycles of the domain: the number of the line behind them, or the
/// first row that is not that of the products.
pub fn test_rows<const P: u16>(
    alloc: Global,
    field: Field<P>,
    matrix: &MatrixRows<P>,
    rows: &[Chain<P>],
    cocycles: &[Chain<P>],
    line: u64,
) -> Result<u64, WitnessFault>
    requires cocycles { matrix.now.rows ≤ length cocycles.now }
    requires room { line + matrix.now.rows < 2 ^ 63 }
    ensures ok { IfOk result (RowsPassed P matrix.now rows.now cocycles.now line) }
    ensures next { IfOk result (λ next. next ≡ line + matrix.now.rows) }
    ensures err { IfErr result (IsRowFault P matrix.now rows.now cocycles.now line) }
{
    for row in 0..matrix.rows() {
        let values = combined(alloc, field, rows, &cocycles[row as usize])?;
        let right = agrees(matrix, row, &values);
        if !right {
            return Err(WitnessFault::At {
                line: line + u64::from(row),
                law: Law::Matrix,
            });
        }
    }
    Ok(line + u64::from(matrix.rows()))
}
