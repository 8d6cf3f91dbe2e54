//! The matrices that a map induces, and what is printed on them.
ghost use Rattle.std.specs.Prelude.{◌≡◌, ◌⊎◌, IfOk, IfErr, IsTrue};
ghost use Rattle.index_map.specs.Pairs.{AreIncludedPairs, AreSized};
ghost use Rattle.index_part.specs.Made.{TellsFault};
ghost use Rattle.induced_map.specs.Matrices.{HaveFewEntries};
ghost use Rattle.map_homology.specs.Bases.{AreBasesOfMap, AreMatricesOf, IsPrintedOf};

use crate::bases::PairCells;
use crate::inclusion::index_of;
use cell_complex::Numbered;
use chain_selector::Selector;
use faults::Fault;
use field_mod::Field;
use homology_basis::{Basis, CycleBasis};
use index_part::{ranks_of, tables_of};
use induced_map::matrices;
use leray_conley::Matrix;
use map_checks::Carrier;
use report::{Dimensions, IndexPart, Rows};
use std::alloc::Global;

/// What is printed on the matrices of a map.
#[derive(Drop)]
pub struct Printed {
    /// The index part, where it is wanted.
    pub index: Option<IndexPart>,
    /// The ranks, by degree.
    pub ranks: Dimensions,
    /// The rows, by degree.
    pub tables: Vec<Rows>,
}

/// The matrices that a map induces, by degree from 0, the selector that they were made with, and
/// what is printed on them.
#[derive(Drop)]
pub struct Induced<const P: u16> {
    /// The matrices.
    pub matrices: Vec<Matrix<P>>,
    /// The chain map, with the images that were asked for.
    pub selector: Selector<P>,
    /// What is printed.
    pub printed: Printed,
}

/// The matrices of the map of a carrier in the cycles of bases of its pairs, and what is printed on
/// them, with the index part where that is wanted.
pub fn induce<const P: u16>(
    alloc: Global,
    field: Field<P>,
    carrier: Carrier<P>,
    domain: &PairCells,
    cycles: &CycleBasis<P>,
    range: &PairCells,
    basis: &Basis<P>,
    wanted: bool,
) -> Result<Induced<P>, Fault>
    requires bases { AreBasesOfMap P wanted carrier domain.now cycles.now range.now basis.now }
    requires few { HaveFewEntries cycles.now basis.now carrier.dimension }
    ensures matrices { IfOk result (λ made. AreMatricesOf P carrier.entry domain.now.cells
        cycles.now range.now.cells basis.now made.matrices.items) }
    ensures carrying { IfOk result (λ made. made.selector.carrying ≡ carrier.entry) }
    ensures printed { IfOk result (λ made. IsPrintedOf P wanted domain.now.cells cycles.now
        range.now.cells basis.now made.matrices.items made.printed.index made.printed.ranks
        made.printed.tables.items) }
    ensures fault { IfErr result (λ fault. (IsTrue wanted
        × TellsFault P domain.now.cells cycles.now range.now.cells basis.now fault)
        ⊎ (fault ≡ Fault.OutOfMemory)) }
{
    // Its clauses say how large a dimension may be.
    let _last = carrier.dimension();
    let mut selector = Selector::new(alloc, field, carrier)?;
    let all = matrices(
        alloc,
        field,
        cycles,
        &domain.cells,
        basis,
        &range.cells,
        &mut selector,
    )?;
    let printed = printed_on(
        alloc,
        field,
        cycles,
        &domain.cells,
        basis,
        &range.cells,
        &all,
        wanted,
    )?;
    Ok(Induced {
        matrices: all,
        selector,
        printed,
    })
}

// What is printed on the matrices of a map, with the index part where that is wanted.
fn printed_on<const P: u16>(
    alloc: Global,
    field: Field<P>,
    domain: &CycleBasis<P>,
    domain_cells: &Numbered,
    range: &Basis<P>,
    range_cells: &Numbered,
    induced: &[Matrix<P>],
    wanted: bool,
) -> Result<Printed, Fault>
    requires pairs { IsTrue wanted
        → AreIncludedPairs P domain_cells.now domain.now range_cells.now range.now }
    requires sizes { IsTrue wanted → AreSized domain.now range.now induced.now }
    ensures printed { IfOk result (λ made. IsPrintedOf P wanted domain_cells.now domain.now
        range_cells.now range.now induced.now made.index made.ranks made.tables.items) }
    ensures fault { IfErr result (λ fault. (IsTrue wanted
        × TellsFault P domain_cells.now domain.now range_cells.now range.now fault)
        ⊎ (fault ≡ Fault.OutOfMemory)) }
{
    let index = index_of(
        alloc,
        field,
        domain,
        domain_cells,
        range,
        range_cells,
        induced,
        wanted,
    )?;
    let ranks = ranks_of(alloc, field, induced)?;
    let tables = tables_of(alloc, induced)?;
    Ok(Printed {
        index,
        ranks,
        tables,
    })
}
