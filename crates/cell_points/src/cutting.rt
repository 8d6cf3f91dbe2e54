//! Places without the cells of other places.
ghost use Rattle.std.specs.Prelude.{◌≡◌, ◌<◌, map, IfOk};
ghost use Rattle.cell_points.specs.Places.{ArePlaces, cut, mask_of};

use crate::place::Place;
use crate::search::place_from;
use elem_cubes::Corner;
use std::alloc::{AllocError, Global};

// The mask of the cells at a corner, found sooner where its place is `near` or soon after it.
fn mask_at(places: &[Place], corner: &Corner, near: &mut usize) -> u16
    requires { ArePlaces places.now }
    ensures { result ≡ mask_of places.now corner.now }
{
    match place_from(places, corner, *near) {
        Some(place) => {
            *near = place;
            places[place].mask
        }
        None => 0,
    }
}

// The place without the cells at others.
fn cut(place: &Place, others: &[Place], near: &mut usize) -> Place
    requires { ArePlaces others.now }
    ensures { result ≡ cut others.now place.now }
{
    Place {
        corner: place.corner,
        mask: place.mask & !mask_at(others, &place.corner, near),
    }
}

/// The places without the cells at others.
pub(crate) fn cut_all(
    alloc: Global,
    places: &[Place],
    others: &[Place],
) -> Result<Vec<Place>, AllocError>
    requires { ArePlaces others.now }
    ensures { IfOk result (λ all. all.items ≡ map (cut others.now) places.now) }
{
    let mut all = Vec::with_capacity(alloc, places.len())?;
    let mut near = 0;
    for place in places {
        all.push(cut(place, others, &mut near))?;
    }
    Ok(all)
}
