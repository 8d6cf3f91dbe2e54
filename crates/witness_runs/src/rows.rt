//! The rows of a matrix.
ghost use Rattle.std.specs.Prelude.{◌≡◌, ◌++◌, OnOk, IfOk, IfErr};
ghost use Rattle.witness_runs.specs.Rows.{HasRows, StopsRows};

use crate::miss::Stop;
use std::alloc::{AllocError, Global};
use witness_laws::Law;
use witness_scanning::row_line;

// The entries of one more row.
fn keep_row(entries: &mut Vec<u16>, row: &[u16]) -> Result<(), AllocError>
    ensures { OnOk result (entries.new.items ≡ entries.old.items ++ row.now) }
{
    entries.extend_from_slice(row)?;
    Ok(())
}

/// The entries of so many rows of the matrix of a degree, row after row, and what stands behind
/// their lines.
pub fn rows_due(
    alloc: Global,
    bytes: &[u8],
    degree: u32,
    height: u32,
    width: u32,
    modulus: u16,
) -> Result<(Vec<u16>, &[u8]), Stop>
    ensures ok { IfOk result
        (λ r. HasRows modulus degree width height bytes.now r.0.items r.1.now) }
    ensures err { IfErr result (StopsRows modulus degree width height bytes.now) }
{
    let mut entries = Vec::new(alloc);
    let mut rest = bytes;
    for line in 0..height {
        match row_line(alloc, rest, degree, width, modulus)? {
            Some((row, behind)) => {
                keep_row(&mut entries, &row)?;
                rest = behind;
            }
            None => {
                return Err(Stop::At {
                    left: rest.len(),
                    law: Law::Text,
                });
            }
        }
    }
    Ok((entries, rest))
}
