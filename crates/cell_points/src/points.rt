//! Distinct cells in their order.
ghost use Rattle.std.specs.Prelude.{◌≡◌, ◌<◌, ◌≤◌, ◌↔◌, [], length, IsTrue, slice_get, IsSome, IfSome, IfOk, OnOk, Err, Some};
ghost use Rattle.std.specs.List.{Contains};
ghost use Rattle.elem_cubes.specs.Laws.{cell_at};
ghost use Rattle.cube_sets.specs.Closures.{cells_of};
ghost use Rattle.cell_points.specs.Sorted.{IsSortedCells, without};
ghost use Rattle.cell_points.specs.Places.{ArePlaces, cells_of_places};

use crate::cutting::cut_all;
use crate::fault::PointsFault;
use crate::mask::{rank_at, turned};
use crate::place::Place;
use crate::places::{closed_within, count_within, firsts_of, places_of};
use crate::search::{number_at, place_from, place_of_corner, place_of_number};
use cube_sets::CubeSet;
use elem_cubes::Cell;
use std::alloc::{AllocError, Global};
use std::marker::Model;

/// Distinct cells in the order of cells, seen as their list: fewer than 2^32, with as many factors
/// as each other and within the range of the files. The number of a cell is its place in that list,
/// counted from 0. They are kept by their lower corners, each with the mask of the cells at it.
#[derive(Drop)]
pub struct Points {
    places: Vec<Place>,
    firsts: Vec<u32>,
    count: u32,
}

impl Model for Points {
    ghost use Rattle.std.specs.Prelude.{List};
    ghost use Rattle.elem_cubes.specs.Cells.{Factor};
    ghost use Rattle.cell_points.specs.Places.{cells_of_places, KeepsPoints};

    ghost Value = { List (List Factor) };

    ghost view = { λ s. cells_of_places s.places.items };

    ghost invariant = { λ s. KeepsPoints s.places.items s.firsts.items s.count };
}

impl Points {
    /// The faces of all members of a set, or `TooMany` exactly where they are more than so many.
    pub fn faces_within(alloc: Global, set: &CubeSet, limit: u32) -> Result<Points, PointsFault>
        ensures cells { IfOk result (λ points. points ≡ cells_of set.now.cells) }
        ensures few { OnOk result (length (cells_of set.now.cells) ≤ limit) }
        ensures many { result ≡ Err PointsFault.TooMany
            → limit < length (cells_of set.now.cells) }
    {
        let axes = set.dimension() as usize;
        let members = places_of(alloc, set.cells())?;
        let closed = closed_within(alloc, members, axes, limit)?;
        let Some(faces) = closed else {
            return Err(PointsFault::TooMany);
        };
        let Some(count) = count_within(&faces, limit) else {
            return Err(PointsFault::TooMany);
        };
        let points = Points::of_places(alloc, faces, count)?;
        Ok(points)
    }

    /// Cells that are sorted already.
    pub fn of_sorted(alloc: Global, cells: &[Cell]) -> Result<Points, AllocError>
        requires { IsSortedCells cells.now }
        ensures { IfOk result (λ points. points ≡ cells.now) }
    {
        let places = places_of(alloc, cells)?;
        Points::of_places(alloc, places, cells.len() as u32)
    }

    // The cells at these places, so many.
    fn of_places(alloc: Global, places: Vec<Place>, count: u32) -> Result<Points, AllocError>
        requires are { ArePlaces places.items }
        requires cells { IsSortedCells (cells_of_places places.items) }
        requires count { count ≡ length (cells_of_places places.items) }
        ensures { IfOk result (λ points. points ≡ cells_of_places places.items) }
    {
        let firsts = firsts_of(alloc, &places)?;
        Ok(Points {
            places,
            firsts,
            count,
        })
    }

    /// The cells that are not among the others.
    pub fn without(self, alloc: Global, others: &Points) -> Result<Points, AllocError>
        ensures { IfOk result (λ points. points ≡ without self others.now) }
    {
        if others.count == 0 {
            return Ok(self);
        }
        let places = cut_all(alloc, &self.places, &others.places)?;
        let count = count_within(&places, self.count).unwrap();
        Points::of_places(alloc, places, count)
    }

    /// How many cells there are.
    pub fn len(&self) -> u32
        ensures count { result ≡ length self.now }
        ensures sorted { IsSortedCells self.now }
    {
        self.count
    }

    /// Whether there are none.
    pub fn is_empty(&self) -> bool
        ensures { IsTrue result ↔ (self.now ≡ []) }
    {
        self.count == 0
    }

    /// The cell of a number below `len`.
    pub fn cell(&self, number: u32) -> Cell
        requires { number < length self.now }
        ensures { result ≡ cell_at self.now number }
    {
        let mut near = 0;
        self.cell_near(number, &mut near)
    }

    /// The same, found sooner where the cell stands at the place `near`, or at the next: it becomes
    /// the place of the cell.
    pub fn cell_near(&self, number: u32, near: &mut u32) -> Cell
        requires { number < length self.now }
        ensures { result ≡ cell_at self.now number }
    {
        let place = place_of_number(&self.firsts, number, *near as usize);
        if let Ok(place) = u32::try_from(place) {
            *near = place;
        }
        let here = self.places[place];
        // Read here so that the corner is known to have coordinates.
        let _ = here.corner.len();
        let rank = rank_at(here.mask, number - self.firsts[place]);
        Cell::new(here.corner, turned(rank)).unwrap()
    }

    /// The number of a cell, or `None` where it is not there.
    pub fn number(&self, cell: &Cell) -> Option<u32>
        ensures found { IsSome result ↔ Contains self.now cell.now }
        ensures place { IfSome result (λ number. slice_get self.now number ≡ Some cell.now) }
    {
        let Some(place) = place_of_corner(&self.places, &cell.lower()) else {
            return None;
        };
        number_at(&self.places, &self.firsts, cell, place)
    }

    /// The same, found sooner where the corner of the cell is that of the place `near`, or of one
    /// soon after it: it becomes the place of that corner.
    pub fn number_near(&self, cell: &Cell, near: &mut u32) -> Option<u32>
        ensures found { IsSome result ↔ Contains self.now cell.now }
        ensures place { IfSome result (λ number. slice_get self.now number ≡ Some cell.now) }
    {
        let Some(place) = place_from(&self.places, &cell.lower(), *near as usize) else {
            return None;
        };
        if let Ok(place) = u32::try_from(place) {
            *near = place;
        }
        number_at(&self.places, &self.firsts, cell, place)
    }
}
