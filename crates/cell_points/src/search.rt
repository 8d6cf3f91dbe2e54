//! Searches of places: by corner, and by the number of a cell.
ghost use Rattle.std.specs.Prelude.{◌≡◌, ◌<◌, ◌≤◌, ◌↔◌, ◌^◌, ℕ, length, false, IsTrue, IsSome, IfSome, IfNone, Some, slice_get, slice_index_or};
ghost use Rattle.std.specs.List.{Contains};
ghost use Rattle.elem_cubes.specs.Cells.{lower_of};
ghost use Rattle.cell_points.specs.Places.{ArePlaces, IsPlaceOf, IsLastFrom, cells_of_places, firsts_from, holds_at};

use crate::mask::{has_bit, rank_of, ranks_below};
use crate::place::Place;
use elem_cubes::{Cell, Corner};
use std::cmp::Ordering;

// How many places are looked at one by one before a search of all.
const FEW: usize = 16;

/// The place with this corner, where there is one.
pub(crate) fn place_of_corner(places: &[Place], corner: &Corner) -> Option<usize>
    requires { ArePlaces places.now }
    ensures some { IfSome result (IsPlaceOf places.now corner.now) }
    ensures none { IfNone result ((r : ℕ) → holds_at places.now corner.now r ≡ false) }
{
    let mut low = 0;
    let mut high = places.len();
    while low < high {
        let middle = low + (high - low) / 2;
        match places[middle].corner.cmp(corner) {
            Ordering::Less => low = middle + 1,
            Ordering::Equal => return Some(middle),
            Ordering::Greater => high = middle,
        }
    }
    None
}

/// The same, found sooner where it is one of the few from a place on, or would stand among them.
pub(crate) fn place_from(places: &[Place], corner: &Corner, near: usize) -> Option<usize>
    requires { ArePlaces places.now }
    ensures some { IfSome result (IsPlaceOf places.now corner.now) }
    ensures none { IfNone result ((r : ℕ) → holds_at places.now corner.now r ≡ false) }
{
    let end = near.saturating_add(FEW).min(places.len());
    let mut below = false;
    for place in near..end {
        match places[place].corner.cmp(corner) {
            Ordering::Less => below = true,
            Ordering::Equal => return Some(place),
            Ordering::Greater => {
                if below {
                    return None;
                }
                return place_of_corner(places, corner);
            }
        }
    }
    place_of_corner(places, corner)
}

// Whether the number is between that of the place and that of the next.
fn is_from(firsts: &[u32], number: u32, place: usize) -> bool
    ensures { IsTrue result → IsLastFrom firsts.now number place }
{
    if place >= firsts.len() || number < firsts[place] {
        return false;
    }
    place + 1 == firsts.len() || number < firsts[place + 1]
}

// The place whose first number is the last that is not above a number, by a search of all.
fn searched(firsts: &[u32], number: u32) -> usize
    requires some { 0 < length firsts.now }
    requires first { slice_index_or firsts.now 0 0 ≤ number }
    ensures { IsLastFrom firsts.now number result }
{
    let mut low = 0;
    let mut high = firsts.len();
    while low + 1 < high {
        let middle = low + (high - low) / 2;
        if firsts[middle] <= number {
            low = middle;
        } else {
            high = middle;
        }
    }
    low
}

/// The place whose first number is the last that is not above a number, found sooner where it is
/// one of the few from a place on.
pub(crate) fn place_of_number(firsts: &[u32], number: u32, near: usize) -> usize
    requires some { 0 < length firsts.now }
    requires first { slice_index_or firsts.now 0 0 ≤ number }
    ensures { IsLastFrom firsts.now number result }
{
    let end = near.saturating_add(FEW).min(firsts.len());
    for place in near..end {
        if is_from(firsts, number, place) {
            return place;
        }
    }
    searched(firsts, number)
}

/// The number of a cell whose corner is that of a place.
pub(crate) fn number_at(places: &[Place], firsts: &[u32], cell: &Cell, place: usize) -> Option<u32>
    requires are { ArePlaces places.now }
    requires firsts { firsts.now ≡ firsts_from 0 places.now }
    requires few { length (cells_of_places places.now) < 2 ^ 32 }
    requires here { IsPlaceOf places.now (lower_of cell.now) place }
    ensures found { IsSome result ↔ Contains (cells_of_places places.now) cell.now }
    ensures place { IfSome result (λ number.
        slice_get (cells_of_places places.now) number ≡ Some cell.now) }
{
    // Read here so that its length is known to be small.
    let _ = cell.embedding();
    let rank = rank_of(cell);
    let mask = places[place].mask;
    if !has_bit(mask, rank) {
        return None;
    }
    Some(firsts[place] + ranks_below(mask, rank))
}
