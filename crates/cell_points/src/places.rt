//! Lists of places: of sorted cells, of two lists together, and of all faces.
ghost use Rattle.std.specs.Prelude.{◌≡◌, ◌<◌, ◌≤◌, ◌^◌, ◌||◌, ◌++◌, ℤ, ℕ, List, drop, length, map, true, IsTrue, IfOk, OnOk, IfSome, IfNone};
ghost use Rattle.std.specs.List.{list_all, AllByRecursion};
ghost use Rattle.elem_cubes.specs.Cells.{is_cell, cell_of};
ghost use Rattle.cube_sets.specs.Sets.{is_member};
ghost use Rattle.cube_sets.specs.Closures.{cells_of};
ghost use Rattle.cell_points.specs.Sorted.{IsSortedCells};
ghost use Rattle.cell_points.specs.Places.{ArePlaces, CanRise, cells_of_places, firsts_from, holds_at, lowered, raised, raised_all, up_along, with_cell};

use crate::mask::{narrowed, rank_of};
use crate::place::Place;
use elem_cubes::{Cell, Corner, MAX_EMBEDDING};
use std::alloc::{AllocError, Global};
use std::cmp::Ordering;

// The place of one cell.
fn place_of(cell: &Cell) -> Place
    ensures place { result ≡ with_cell cell.now 0 }
    ensures few { length cell.now ≤ MAX_EMBEDDING }
{
    // Read here so that its length is known to be small.
    let _ = cell.embedding();
    Place {
        corner: cell.lower(),
        mask: 1 << rank_of(cell),
    }
}

// The place with one more cell at its corner.
fn joined(place: &Place, cell: &Cell) -> Place
    ensures place { result ≡ with_cell cell.now place.now.mask }
    ensures few { length cell.now ≤ MAX_EMBEDDING }
{
    // Read here so that its length is known to be small.
    let _ = cell.embedding();
    Place {
        corner: cell.lower(),
        mask: place.mask | 1 << rank_of(cell),
    }
}

/// The places of sorted cells.
pub(crate) fn places_of(alloc: Global, cells: &[Cell]) -> Result<Vec<Place>, AllocError>
    requires { IsSortedCells cells.now }
    ensures are { IfOk result (λ places. ArePlaces places.items) }
    ensures cells { IfOk result (λ places. cells_of_places places.items ≡ cells.now) }
{
    let mut places = Vec::new(alloc);
    if cells.is_empty() {
        return Ok(places);
    }
    let mut group = place_of(&cells[0]);
    for i in 1..cells.len() {
        let cell = cells[i];
        match group.corner.cmp(&cell.lower()) {
            Ordering::Equal => group = joined(&group, &cell),
            _ => {
                places.push(group)?;
                group = place_of(&cell);
            }
        }
    }
    places.push(group)?;
    Ok(places)
}

// What is left of the two lists, one of which is at its end.
fn rest_of<'a>(left: &'a [Place], i: usize, right: &'a [Place], j: usize) -> &'a [Place]
    requires left { i ≤ length left.now }
    requires right { j ≤ length right.now }
    ensures left { i < length left.now → result.now ≡ drop i left.now }
    ensures right { length left.now ≤ i → result.now ≡ drop j right.now }
{
    if i < left.len() {
        &left[i..]
    } else {
        &right[j..]
    }
}

/// The cells of both lists, in one pass over both.
pub(crate) fn union(
    alloc: Global,
    left: &[Place],
    right: &[Place],
) -> Result<Vec<Place>, AllocError>
    requires left { ArePlaces left.now }
    requires right { ArePlaces right.now }
    ensures are { IfOk result (λ all. ArePlaces all.items) }
    ensures cells { IfOk result (λ all. (c : List ℤ) (r : ℕ)
        → holds_at all.items c r ≡ (holds_at left.now c r || holds_at right.now c r)) }
{
    let mut all = Vec::with_capacity(alloc, left.len().saturating_add(right.len()))?;
    let mut i = 0;
    let mut j = 0;
    'merge: while i < left.len() && j < right.len() {
        let x = left[i];
        let y = right[j];
        match x.corner.cmp(&y.corner) {
            Ordering::Less => {
                all.push(x)?;
                i += 1;
            }
            Ordering::Equal => {
                all.push(Place {
                    corner: x.corner,
                    mask: x.mask | y.mask,
                })?;
                i += 1;
                j += 1;
            }
            Ordering::Greater => {
                all.push(y)?;
                j += 1;
            }
        }
    }
    all.extend_from_slice(rest_of(left, i, right, j))?;
    Ok(all)
}

// The corner one step up along an axis.
fn up_along(corner: &Corner, axis: usize) -> Corner
    requires axis { axis < length corner.now }
    requires range { IsTrue (is_cell (cell_of corner.now (2 ^ axis))) }
    ensures { result ≡ up_along axis corner.now }
{
    // Read here so that the number of its coordinates is known to be small.
    let _ = corner.len();
    let edge = Cell::new(*corner, 1 << axis).unwrap();
    edge.upper()
}

// One more place, with the upper ends of the cells at this one, where there are any.
fn push_raised(to: &mut Vec<Place>, place: &Place, axis: usize) -> Result<(), AllocError>
    requires { CanRise axis place.now }
    ensures { OnOk result (to.new.items ≡ to.old.items ++ raised axis place.now) }
{
    let mask = narrowed(axis, place.mask);
    if mask == 0 {
        return Ok(());
    }
    to.push(Place {
        corner: up_along(&place.corner, axis),
        mask,
    })?;
    Ok(())
}

// The upper ends of the cells along an axis.
fn raised_all(alloc: Global, places: &[Place], axis: usize) -> Result<Vec<Place>, AllocError>
    requires { AllByRecursion (CanRise axis) places.now }
    ensures { IfOk result (λ all. all.items ≡ raised_all axis places.now) }
{
    let mut all = Vec::with_capacity(alloc, places.len())?;
    for place in places {
        push_raised(&mut all, place, axis)?;
    }
    Ok(all)
}

fn lowered(place: &Place, axis: usize) -> Place
    ensures { result ≡ lowered axis place.now }
{
    Place {
        corner: place.corner,
        mask: place.mask | narrowed(axis, place.mask),
    }
}

// The cells, and their lower ends along an axis.
fn lowered_all(alloc: Global, places: &[Place], axis: usize) -> Result<Vec<Place>, AllocError>
    ensures { IfOk result (λ all. all.items ≡ map (lowered axis) places.now) }
{
    let mut all = Vec::with_capacity(alloc, places.len())?;
    for place in places {
        all.push(lowered(place, axis))?;
    }
    Ok(all)
}

/// All faces of the cells, which have so many factors each, or nothing where they are more than so
/// many. That there are too many is seen after each axis, before the places of the next are made.
pub(crate) fn closed_within(
    alloc: Global,
    places: Vec<Place>,
    axes: usize,
    limit: u32,
) -> Result<Option<Vec<Place>>, AllocError>
    requires axes { axes ≤ MAX_EMBEDDING }
    requires are { ArePlaces places.items }
    requires alike { list_all (is_member axes) (cells_of_places places.items) ≡ true }
    ensures are { IfOk result (λ all. IfSome all (λ all. ArePlaces all.items)) }
    ensures cells { IfOk result (λ all. IfSome all (λ all.
        cells_of_places all.items ≡ cells_of (cells_of_places places.items))) }
    ensures more { IfOk result (λ all. IfNone all
        (limit < length (cells_of (cells_of_places places.items)))) }
{
    let mut all = places;
    for axis in 0..axes {
        let lower = lowered_all(alloc, &all, axis)?;
        let upper = raised_all(alloc, &all, axis)?;
        all = union(alloc, &lower, &upper)?;
        let Some(_) = count_within(&all, limit) else {
            return Ok(None);
        };
    }
    Ok(Some(all))
}

/// How many cells there are, or nothing where they are more than so many.
pub(crate) fn count_within(places: &[Place], limit: u32) -> Option<u32>
    requires { ArePlaces places.now }
    ensures some { IfSome result (λ count. (count ≡ length (cells_of_places places.now))
        × (count ≤ limit)) }
    ensures none { IfNone result (limit < length (cells_of_places places.now)) }
{
    let mut count = 0;
    for place in places {
        let more = place.mask.count_ones();
        if limit - count < more {
            return None;
        }
        count += more;
    }
    Some(count)
}

/// The number of the first cell of each place; there are fewer than 2^32 cells.
pub(crate) fn firsts_of(alloc: Global, places: &[Place]) -> Result<Vec<u32>, AllocError>
    requires are { ArePlaces places.now }
    requires few { length (cells_of_places places.now) < 2 ^ 32 }
    ensures { IfOk result (λ firsts. firsts.items ≡ firsts_from 0 places.now) }
{
    let mut firsts = Vec::with_capacity(alloc, places.len())?;
    let mut first = 0;
    for place in places {
        firsts.push(first)?;
        first += place.mask.count_ones();
    }
    Ok(firsts)
}
