//! The line of the image of a cell.
ghost use Rattle.std.specs.Prelude.{◌≡◌, ℕ, ◌%◌, ◌<◌, ◌↔◌, length, slice_index, slice_index_or, IfOk, IsTrue};
ghost use Rattle.std.specs.List.{Contains};
ghost use Rattle.chains.specs.Terms.{augmentation};
ghost use Rattle.witness_sections.specs.Readings.{IsNamed};
ghost use Rattle.witness_values.specs.Images.{IsCarriedBy, AugmentsBy, CommutesBy, IsImageOutcome};

use cell_complex::Numbered;
use chain_lists::combined;
use chains::{Chain, Complex};
use elem_cubes::Cell;
use field_mod::Field;
use std::alloc::{AllocError, Global};
use witness_sections::cell_of;
use witness_types::Law;

// Whether a cell is one of the value.
fn has(value: &Numbered, cell: &Cell) -> bool
    ensures { IsTrue result ↔ Contains value.now cell.now }
{
    value.number(cell).is_some()
}

// Whether each term of a chain, by its number among the cells, is a cell of the value.
fn is_carried<const P: u16>(cells: &Numbered, value: &Numbered, chain: &Chain<P>) -> bool
    requires { IsNamed (length cells.now) chain.now }
    ensures { IsTrue result ↔ IsCarriedBy cells.now value.now chain.now }
{
    for place in 0..chain.len() {
        let (number, _) = chain.term(place);
        let there = has(value, &cell_of(cells, number));
        if !there {
            return false;
        }
    }
    true
}

// The sum of the coefficients of a chain.
fn augmentation<const P: u16>(field: Field<P>, chain: &Chain<P>) -> u16
    ensures below { result < P }
    ensures value { result ≡ augmentation chain.now % P }
{
    let mut sum = 0;
    for place in 0..chain.len() {
        let (_, number) = chain.term(place);
        sum = field.add(sum, number);
    }
    sum
}

// Whether the image of a vertex has augmentation 1.
fn augments<const P: u16>(
    field: Field<P>,
    domain: &Complex<P>,
    images: &[Chain<P>],
    cell: u32,
) -> bool
    requires cell { cell < length domain.now.boundaries }
    requires images { length images.now ≡ length domain.now.boundaries }
    ensures { IsTrue result ↔ AugmentsBy P domain.now.degrees images.now cell }
{
    if domain.degree(cell) != 0 {
        return true;
    }
    augmentation(field, &images[cell as usize]) == 1
}

// Whether the boundary of the image of a cell is the image of its boundary.
fn commutes<const P: u16>(
    alloc: Global,
    field: Field<P>,
    domain: &Complex<P>,
    range: &Complex<P>,
    images: &[Chain<P>],
    cell: u32,
) -> Result<bool, AllocError>
    requires cell { cell < length domain.now.boundaries }
    requires images { length images.now ≡ length domain.now.boundaries }
    ensures { IfOk result
        (λ b. IsTrue b ↔ CommutesBy P domain.now range.now images.now cell) }
{
    let around = range.boundary_of(alloc, field, &images[cell as usize])?;
    let mut image = combined(alloc, field, images, domain.boundary(cell))?;
    image.add_scaled(field, field.neg(1), &around)?;
    Ok(image.is_empty())
}

/// The law that the line of the image of a cell fails by first. The image is given as it stands in
/// the file, and all images by the numbers of the cells of the range from 0 on.
pub fn image_fault<const P: u16>(
    alloc: Global,
    field: Field<P>,
    domain: &Complex<P>,
    range: &Complex<P>,
    cells: &Numbered,
    value: &Numbered,
    image: &Chain<P>,
    images: &[Chain<P>],
    cell: u32,
) -> Result<Option<Law>, AllocError>
    requires cell { cell < length domain.now.boundaries }
    requires images { length images.now ≡ length domain.now.boundaries }
    requires named { IsNamed (length cells.now) image.now }
    ensures outcome { IfOk result (IsImageOutcome P domain.now range.now cells.now value.now
        image.now images.now cell) }
{
    let carried = is_carried(cells, value, image);
    if !carried {
        return Ok(Some(Law::Carried));
    }
    let augmented = augments(field, domain, images, cell);
    if !augmented {
        return Ok(Some(Law::Augmentation));
    }
    let commuting = commutes(alloc, field, domain, range, images, cell)?;
    if !commuting {
        return Ok(Some(Law::Commutes));
    }
    Ok(None)
}
