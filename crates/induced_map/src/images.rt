//! Images of cycles under the selector's map.
ghost use Rattle.std.specs.Prelude.{◌≡◌, ◌<◌, ◌≤◌, ℕ, length, true, IfOk};
ghost use Rattle.elem_cubes.specs.Laws.{cell_at};
ghost use Rattle.chains.specs.Terms.{coefficient};
ghost use Rattle.cube_sets.specs.Closures.{is_cell_of};
ghost use Rattle.homology_basis.specs.Bases.{in_degree};
ghost use Rattle.chain_selector.specs.Selections.{Extends};
ghost use Rattle.induced_map.specs.Images.{IsRestrictedImage};
ghost use Rattle.induced_map.specs.Lists.{AreEach};
ghost use Rattle.induced_map.specs.Within.{AreCellsOf, AreWithin};

use cell_complex::Numbered;
use chain_selector::{Selector, renumbered};
use chains::Chain;
use field_mod::Field;
use homology_basis::CycleBasis;
use std::alloc::{AllocError as NoMemory, Global};

/// The images of the cycles of a degree, restricted to some cells of the range.
pub(crate) fn images_of<const P: u16>(
    alloc: Global,
    field: Field<P>,
    degree: u8,
    domain: &CycleBasis<P>,
    domain_cells: &Numbered,
    range_cells: &Numbered,
    selector: &mut Selector<P>,
) -> Result<Vec<Chain<P>>, NoMemory>
    requires cells { AreCellsOf selector.old.carrying.range range_cells.now }
    requires complex { length domain.now.log.complex.boundaries ≡ length domain_cells.now }
    ensures extends { Extends selector.old selector.new }
    ensures images { IfOk result (λ images.
        AreEach
        (IsRestrictedImage P selector.old.carrying domain_cells.now range_cells.now)
        (in_degree domain.now.cycles degree) (length (in_degree domain.now.cycles degree))
        images.items) }
{
    let mut images = Vec::new(alloc);
    for number in 0..domain.dimension(degree) {
        let cycle = domain.cycle(degree, number);
        let image = image_of(alloc, field, cycle, domain_cells, range_cells, selector)?;
        images.push(image)?;
    }
    Ok(images)
}

// The image of a chain over the numbers of cells of the domain, restricted to some cells of the
// range.
fn image_of<const P: u16>(
    alloc: Global,
    field: Field<P>,
    chain: &Chain<P>,
    domain_cells: &Numbered,
    range_cells: &Numbered,
    selector: &mut Selector<P>,
) -> Result<Chain<P>, NoMemory>
    requires cells { AreCellsOf selector.old.carrying.range range_cells.now }
    requires chain { AreWithin domain_cells.now chain.now }
    ensures extends { Extends selector.old selector.new }
    ensures image { IfOk result (IsRestrictedImage P selector.old.carrying domain_cells.now
        range_cells.now chain.now) }
{
    let cycle = renumbered(alloc, field, chain, domain_cells, selector.domain_cells())?;
    let image = selector.image_of_chain(field, &cycle)?;
    // Its clauses hand out what a selector keeps.
    let _dimension = selector.dimension();
    let restricted = renumbered(alloc, field, &image, selector.range_cells(), range_cells)?;
    Ok(restricted)
}
