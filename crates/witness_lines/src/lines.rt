//! Lines of a word, numbers and, behind a colon, a chain or the row of a matrix.
ghost use Rattle.std.specs.Prelude.{◌≡◌, ◌<◌, ◌++◌, OnOk};
ghost use Rattle.witness_laws.specs.Lines.{chain_line, numbers_line, row_line};
ghost use Rattle.witness_types.specs.Rows.{row_of};

use crate::parts::{put_entries, put_number, put_numbers, put_terms};
use chains::Chain;
use leray_conley::Matrix;
use std::alloc::AllocError as NoMemory;

/// Adds a line of a word, numbers and a chain.
pub fn put_chain_line<const P: u16>(
    to: &mut Vec<u8>,
    word: &[u8],
    numbers: &[u32],
    chain: &Chain<P>,
) -> Result<(), NoMemory>
    ensures { OnOk result (to.new.items ≡ to.old.items
        ++ chain_line word.now numbers.now chain.now) }
{
    to.extend_from_slice(word)?;
    put_numbers(to, numbers)?;
    to.push(b':')?;
    put_terms(to, chain)?;
    to.push(b'\n')?;
    Ok(())
}

/// Adds a line of a word and numbers.
pub fn put_numbers_line(to: &mut Vec<u8>, word: &[u8], numbers: &[u32]) -> Result<(), NoMemory>
    ensures { OnOk result (to.new.items ≡ to.old.items ++ numbers_line word.now numbers.now) }
{
    to.extend_from_slice(word)?;
    put_numbers(to, numbers)?;
    to.push(b'\n')?;
    Ok(())
}

/// Adds the line of a row of the matrix of a degree.
pub fn put_row_line<const P: u16>(
    to: &mut Vec<u8>,
    degree: u8,
    matrix: &Matrix<P>,
    row: u32,
) -> Result<(), NoMemory>
    requires { row < matrix.now.rows }
    ensures { OnOk result (to.new.items ≡ to.old.items
        ++ row_line degree (row_of matrix.now row)) }
{
    to.push(b'm')?;
    put_number(to, u32::from(degree))?;
    to.push(b':')?;
    put_entries(to, matrix, row)?;
    to.push(b'\n')?;
    Ok(())
}
