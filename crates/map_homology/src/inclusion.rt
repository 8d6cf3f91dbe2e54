//! The index part, where it is wanted.
ghost use Rattle.std.specs.Prelude.{◌≡◌, ◌⊎◌, IfOk, IfErr, OnOk, IsTrue};
ghost use Rattle.index_map.specs.Inclusion.{IsIncluded};
ghost use Rattle.index_map.specs.Pairs.{AreIncludedPairs, AreSized};
ghost use Rattle.index_part.specs.Made.{TellsFault};
ghost use Rattle.index_part.specs.Refusals.{RefusesInclusion};
ghost use Rattle.map_homology.specs.Bases.{IsIndexAsMade};

use cell_complex::Numbered;
use faults::Fault;
use field_mod::Field;
use homology_basis::{Basis, CycleBasis};
use index_part::{index_part, test_included};
use leray_conley::Matrix;
use pair_maps::PairMap;
use report::IndexPart;
use std::alloc::Global;

/// Nothing where the index part is not wanted or the pair of the domain is included in that of the
/// range, else the first cube that shows that it is not.
pub fn test_inclusion(input: &PairMap, wanted: bool) -> Result<(), Fault>
    ensures included { OnOk result (IsTrue wanted → IsIncluded input.now.x.cells input.now.a.cells
        input.now.y.cells input.now.b.cells) }
    ensures fault { IfErr result (λ fault. IsTrue wanted × RefusesInclusion input.now fault) }
{
    if wanted {
        return test_included(input);
    }
    Ok(())
}

/// The index part of some induced matrices where it is wanted.
pub(crate) fn index_of<const P: u16>(
    alloc: Global,
    field: Field<P>,
    domain: &CycleBasis<P>,
    domain_cells: &Numbered,
    range: &Basis<P>,
    range_cells: &Numbered,
    induced: &[Matrix<P>],
    wanted: bool,
) -> Result<Option<IndexPart>, Fault>
    requires pairs { IsTrue wanted
        → AreIncludedPairs P domain_cells.now domain.now range_cells.now range.now }
    requires sizes { IsTrue wanted → AreSized domain.now range.now induced.now }
    ensures part { IfOk result (IsIndexAsMade P wanted domain_cells.now domain.now
        range_cells.now range.now induced.now) }
    ensures fault { IfErr result (λ fault. (IsTrue wanted
        × TellsFault P domain_cells.now domain.now range_cells.now range.now fault)
        ⊎ (fault ≡ Fault.OutOfMemory)) }
{
    if !wanted {
        return Ok(None);
    }
    let part = index_part(
        alloc,
        field,
        domain,
        domain_cells,
        range,
        range_cells,
        induced,
    )?;
    Ok(Some(part))
}
