//! What a witness claims that meets its laws.
ghost use Rattle.std.specs.Prelude.{◌≡◌, ◌<◌, ◌≤◌, ◌^◌, [], length, map, IfOk};
ghost use Rattle.witness_types.specs.Answers.{IsClaimWith};
ghost use Rattle.witness_types.specs.Parts.{beside, degrees_of, pair_tables};
ghost use Rattle.witness_types.specs.Rows.{rows_of};
ghost use Rattle.witness_testing.specs.Claims.{AreSmall, AreHigh, IsMadeOf, AreMadeOf};

use chains::Chain;
use leray_conley::Matrix;
use matrix_rows::MatrixRows;
use read_parts::ReadMap;
use std::alloc::{AllocError, Global};
use witness_types::{Claim, PairPart};

// How many cycles of a degree there are.
fn count_beside<const P: u16>(cycles: &[(u8, Chain<P>)], degree: u8) -> u32
    requires { length cycles.now < 2 ^ 32 }
    ensures { result
        ≡ length (beside degree (degrees_of cycles.now) (map (λ z. z.1) cycles.now)) }
{
    let mut count = 0;
    for place in 0..cycles.len() {
        if cycles[place].0 == degree {
            count += 1;
        }
    }
    count
}

// The same for all degrees up to a greatest.
fn dimensions<const P: u16>(
    alloc: Global,
    part: &PairPart<P>,
    top: u8,
) -> Result<Vec<u32>, AllocError>
    requires { length part.now.cycles.items < 2 ^ 32 }
    ensures { IfOk result (λ counts. counts.items ≡ map length (pair_tables top part.now).cycles) }
{
    let mut counts = Vec::new(alloc);
    for degree in 0..u16::from(top) + 1 {
        counts.push(count_beside(&part.cycles, degree as u8))?;
    }
    Ok(counts)
}

// The matrix that was read, with so many columns where it has no rows.
fn matrix_of<const P: u16>(alloc: Global, table: MatrixRows<P>, columns: u32) -> Matrix<P>
    requires rows { table.rows ≤ 4096 }
    requires few { columns ≤ 4096 }
    requires columns { 0 < table.rows → table.columns ≡ columns }
    ensures { IsMadeOf table.entry columns result }
{
    if table.rows() == 0 {
        return Matrix::new(0, columns, Vec::new(alloc));
    }
    table.into_matrix()
}

// All matrices that were read.
fn matrices_of<const P: u16>(
    alloc: Global,
    tables: Vec<MatrixRows<P>>,
    columns: &[u32],
) -> Result<Vec<Matrix<P>>, AllocError>
    requires small { AreSmall tables.items columns.now }
    ensures { IfOk result (λ ms. AreMadeOf tables.entry.items columns.now
        (length columns.now) ms.items) }
{
    let mut left = tables;
    let mut matrices = Vec::new(alloc);
    for degree in 0..columns.len() {
        let table = left.remove(0);
        matrices.push(matrix_of(alloc, table, columns[degree]))?;
    }
    Ok(matrices)
}

/// The claim of a pair.
pub(crate) fn pair_claim<const P: u16>(
    alloc: Global,
    part: &PairPart<P>,
    top: u8,
) -> Result<Claim<P>, AllocError>
    requires { length part.now.cycles.items < 2 ^ 32 }
    ensures domain { IfOk result
        (λ claim. claim.domain.items ≡ map length (pair_tables top part.now).cycles) }
    ensures range { IfOk result (λ claim. claim.range.items ≡ []) }
    ensures matrices { IfOk result (λ claim. claim.matrices.items ≡ []) }
{
    let domain = dimensions(alloc, part, top)?;
    Ok(Claim {
        domain,
        range: Vec::new(alloc),
        matrices: Vec::new(alloc),
    })
}

/// The claim of a map.
pub(crate) fn map_claim<const P: u16>(
    alloc: Global,
    part: &PairPart<P>,
    others: ReadMap<P>,
    top: u8,
) -> Result<Claim<P>, AllocError>
    requires domain { length part.now.cycles.items < 2 ^ 32 }
    requires range { length others.range.cycles.items < 2 ^ 32 }
    requires matrices { AreSmall others.rows.items (map length (pair_tables top part.now).cycles) }
    requires heights { AreHigh others.rows.items
        (map length (pair_tables top others.range).cycles) }
    ensures { IfOk result (λ claim. IsClaimWith claim
        (map length (pair_tables top part.now).cycles)
        (map length (pair_tables top others.entry.range).cycles)
        (map rows_of others.entry.rows.items)) }
{
    let domain = dimensions(alloc, part, top)?;
    let range = dimensions(alloc, &others.range, top)?;
    let matrices = matrices_of(alloc, others.rows, &domain)?;
    Ok(Claim {
        domain,
        range,
        matrices,
    })
}
