//! Numbers, terms and entries, each behind a space.
ghost use Rattle.std.specs.Prelude.{◌≡◌, ◌<◌, ◌++◌, OnOk, codes};
ghost use Rattle.witness_laws.specs.Lines.{numeral, numbers_text, chain_text};
ghost use Rattle.witness_types.specs.Rows.{row_of};

use chains::Chain;
use itoa::Buffer;
use leray_conley::Matrix;
use std::alloc::AllocError as NoMemory;

// Adds the digits of a number.
#[tactic(auto, using(witness_laws::proofs::Numerals::printed))]
fn put_numeral(to: &mut Vec<u8>, number: u32) -> Result<(), NoMemory>
    ensures { OnOk result (to.new.items ≡ to.old.items ++ numeral number) }
{
    let mut buffer = Buffer::new();
    to.extend_from_slice(buffer.format(number).as_bytes())?;
    Ok(())
}

// Adds a number behind a space.
pub(crate) fn put_number(to: &mut Vec<u8>, number: u32) -> Result<(), NoMemory>
    ensures { OnOk result (to.new.items ≡ to.old.items ++ (codes " " ++ numeral number)) }
{
    to.push(b' ')?;
    put_numeral(to, number)?;
    Ok(())
}

/// Adds numbers, each behind a space.
pub(crate) fn put_numbers(to: &mut Vec<u8>, numbers: &[u32]) -> Result<(), NoMemory>
    ensures { OnOk result (to.new.items ≡ to.old.items ++ numbers_text numbers.now) }
{
    for number in numbers {
        put_number(to, *number)?;
    }
    Ok(())
}

// Adds a term behind a space.
fn put_term(to: &mut Vec<u8>, number: u32, coefficient: u16) -> Result<(), NoMemory>
    ensures { OnOk result (to.new.items ≡ to.old.items
        ++ (codes " " ++ numeral coefficient ++ codes "*" ++ numeral number)) }
{
    put_number(to, u32::from(coefficient))?;
    to.push(b'*')?;
    put_numeral(to, number)?;
    Ok(())
}

/// Adds the terms of a chain, each behind a space.
pub(crate) fn put_terms<const P: u16>(to: &mut Vec<u8>, chain: &Chain<P>) -> Result<(), NoMemory>
    ensures { OnOk result (to.new.items ≡ to.old.items ++ chain_text chain.now) }
{
    for place in 0..chain.len() {
        let (number, coefficient) = chain.term(place);
        put_term(to, number, coefficient)?;
    }
    Ok(())
}

/// Adds the entries of a row of a matrix, each behind a space.
pub(crate) fn put_entries<const P: u16>(
    to: &mut Vec<u8>,
    matrix: &Matrix<P>,
    row: u32,
) -> Result<(), NoMemory>
    requires { row < matrix.now.rows }
    ensures { OnOk result (to.new.items ≡ to.old.items ++ numbers_text (row_of matrix.now row)) }
{
    for column in 0..matrix.columns() {
        put_number(to, u32::from(matrix.entry(row, column)))?;
    }
    Ok(())
}
