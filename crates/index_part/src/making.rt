//! The index part of a report on a map of pairs.
ghost use Rattle.std.specs.Prelude.{◌≡◌, ◌<◌, ◌⊎◌, ℕ, List, length, IfOk, IfErr, OnOk};
ghost use Rattle.elem_cubes.specs.Cells.{Factor};
ghost use Rattle.induced_map.specs.Matrices.{nth};
ghost use Rattle.index_map.specs.Inclusion.{IsInvertibleInclusion};
ghost use Rattle.index_map.specs.Pairs.{AreIncludedPairs, AreSized, IsIncludedPair};
ghost use Rattle.index_part.specs.Made.{IsMadeOf, IsIndexPart, TellsFault};

use crate::splittings::splittings_of;
use crate::tables::{ranks_of, tables_of};
use crate::told::told;
use cell_complex::Numbered;
use faults::Fault;
use field_mod::Field;
use homology_basis::{Basis, CycleBasis};
use index_map::index;
use leray_conley::Matrix;
use report::IndexPart;
use std::alloc::{AllocError as NoMemory, Global};

/// The index matrices of a map of pairs of which the first is included in the second, from the
/// matrices that the map induces, with their ranks and Leray splittings; else why the inclusion is
/// not invertible, in the least degree in which it is not.
pub fn index_part<const P: u16>(
    alloc: Global,
    field: Field<P>,
    domain: &CycleBasis<P>,
    domain_cells: &Numbered,
    range: &Basis<P>,
    range_cells: &Numbered,
    induced: &[Matrix<P>],
) -> Result<IndexPart, Fault>
    requires pairs { AreIncludedPairs P domain_cells.now domain.now range_cells.now range.now }
    requires sizes { AreSized domain.now range.now induced.now }
    ensures part { IfOk result (IsIndexPart P domain_cells.now domain.now range_cells.now
        range.now induced.now) }
    ensures invertible { OnOk result ((x a y b : List (List Factor))
        → IsIncludedPair P x a y b domain_cells.now domain.now range_cells.now range.now
        → (k : ℕ) → IsInvertibleInclusion P x a y b k) }
    ensures fault { IfErr result (λ fault. TellsFault P domain_cells.now domain.now
        range_cells.now range.now fault ⊎ (fault ≡ Fault.OutOfMemory)) }
{
    match index(
        alloc,
        field,
        domain,
        domain_cells,
        range,
        range_cells,
        induced,
    ) {
        Ok(all) => {
            let part = part_of(alloc, field, &all)?;
            Ok(part)
        }
        Err(fault) => Err(told(alloc, domain_cells, range_cells, &fault)?),
    }
}

// Square matrices with their ranks and Leray splittings.
fn part_of<const P: u16>(
    alloc: Global,
    field: Field<P>,
    all: &[Matrix<P>],
) -> Result<IndexPart, NoMemory>
    requires { (k : ℕ) → k < length all.now → (nth all.now k).rows ≡ (nth all.now k).columns }
    ensures { IfOk result (IsMadeOf P all.now) }
{
    let ranks = ranks_of(alloc, field, all)?;
    let matrices = tables_of(alloc, all)?;
    let leray = splittings_of(alloc, field, all)?;
    Ok(IndexPart {
        ranks,
        matrices,
        leray,
    })
}
