//! Images of cells under one carried map, by the numbers of a witness file.
ghost use Rattle.std.specs.Prelude.{◌≡◌, ◌<◌, ◌≤◌, true, length, IfOk, OnOk};
ghost use Rattle.elem_cubes.specs.Laws.{cell_at};
ghost use Rattle.chain_selector.specs.Selections.{domain_cells, range_cells};
ghost use Rattle.chain_selector.specs.Selections.{is_kept, kept_image, Extends};
ghost use Rattle.witness_parts.specs.Filed.{IsFiled};
ghost use Rattle.map_parts.specs.Images.{AreFiledImages};

use cell_complex::Numbered;
use chain_selector::Selector;
use chains::Chain;
use field_mod::Field;
use std::alloc::{AllocError as NoMemory, Global};
use witness_parts::filed;

// The image of the cell of the domain in this place.
fn image_at<const P: u16>(
    alloc: Global,
    field: Field<P>,
    place: u32,
    cells: &Numbered,
    all: &Numbered,
    selector: &mut Selector<P>,
) -> Result<Chain<P>, NoMemory>
    requires cells { cells.now ≡ domain_cells selector.old }
    requires all { all.now ≡ range_cells selector.old }
    requires inside { place < length cells.now }
    requires few { length all.now ≤ 4096 }
    ensures extends { Extends selector.old selector.new }
    ensures kept { OnOk result (is_kept selector.new (cell_at cells.now place) ≡ true) }
    ensures image { IfOk result (IsFiled P all.now
        (kept_image selector.new (cell_at cells.now place))) }
{
    let image = selector.image(field, &cells.cell(place))?;
    // Its clauses hand out what a selector keeps.
    let _dimension = selector.dimension();
    let chain = filed(alloc, field, &image, all, all)?;
    Ok(chain)
}

/// The images of all cells of the domain. They are those of one carried map.
pub(crate) fn images_of<const P: u16>(
    alloc: Global,
    field: Field<P>,
    cells: &Numbered,
    all: &Numbered,
    selector: &mut Selector<P>,
) -> Result<Vec<Chain<P>>, NoMemory>
    requires cells { cells.now ≡ domain_cells selector.old }
    requires all { all.now ≡ range_cells selector.old }
    requires few { length all.now ≤ 4096 }
    ensures { IfOk result (λ images. AreFiledImages P selector.old.carrying images.items) }
{
    let mut images = Vec::new(alloc);
    for place in 0..cells.len() {
        images.push(image_at(alloc, field, place, cells, all, selector)?)?;
    }
    // Its clauses hand out what a selector keeps.
    let _dimension = selector.dimension();
    Ok(images)
}
