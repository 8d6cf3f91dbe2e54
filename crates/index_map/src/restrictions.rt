//! Restrictions of the cycles of a basis to the cells of another pair.
ghost use Rattle.std.specs.Prelude.{◌≡◌, length, IfOk};
ghost use Rattle.homology_basis.specs.Bases.{in_degree};
ghost use Rattle.chain_selector.specs.Renumbered.{IsRenumbered};
ghost use Rattle.induced_map.specs.Lists.{AreEach};

use cell_complex::Numbered;
use chain_selector::renumbered;
use chains::Chain;
use field_mod::Field;
use homology_basis::CycleBasis;
use std::alloc::{AllocError as NoMemory, Global};

/// The cycles of a degree as chains over the numbers of other cells: terms at cells that are not
/// among these are dropped.
pub(crate) fn restricted_cycles<const P: u16>(
    alloc: Global,
    field: Field<P>,
    degree: u8,
    domain: &CycleBasis<P>,
    domain_cells: &Numbered,
    range_cells: &Numbered,
) -> Result<Vec<Chain<P>>, NoMemory>
    requires { length domain.now.log.complex.boundaries ≡ length domain_cells.now }
    ensures { IfOk result (λ chains.
        AreEach (IsRenumbered P domain_cells.now range_cells.now)
        (in_degree domain.now.cycles degree) (length (in_degree domain.now.cycles degree))
        chains.items) }
{
    let mut chains = Vec::new(alloc);
    for number in 0..domain.dimension(degree) {
        let cycle = domain.cycle(degree, number);
        chains.push(renumbered(alloc, field, cycle, domain_cells, range_cells)?)?;
    }
    Ok(chains)
}
