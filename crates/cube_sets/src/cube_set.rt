//! Sets of cells.
ghost use Rattle.std.specs.Prelude.{◌≡◌, ◌≢◌, ◌<◌, ◌≤◌, ◌+◌, ◌^◌, ◌||◌, ◌&&◌, max, List, [], length, slice_get, vec_len, true, false, IsTrue, IsOk, IfOk, OnOk, Err, Some, ◌↔◌};
ghost use Rattle.std.specs.List.{list_all};
ghost use Rattle.elem_cubes.specs.Cells.{Factor, is_file_factor};
ghost use Rattle.elem_cubes.specs.Order.{cell_cmp};
ghost use Rattle.cube_sets.specs.Sorted.{set_of, union_of, intersection_of, has};
ghost use Rattle.cube_sets.specs.Sets.{is_member, IsCubeSet, IsUnion, IsIntersection, holds, dimensions_agree};
ghost use Rattle.cube_sets.specs.Changes.{spread_set};
ghost use Rattle.cube_sets.specs.Closures.{cells_of, closure};
ghost use Rattle.cube_sets.specs.Neighbours.{neighbours_of, neighbourhood, are_full, are_in_range};

use crate::change::Change;
use crate::fault::{CUBES, SetFault};
use crate::inner::are_inner;
use crate::sorted::{contains, intersection, sort_distinct, union_of_all};
use crate::spread::spread;
use elem_cubes::{Cell, MAX_EMBEDDING};
use std::alloc::{AllocError, Global};
use std::marker::Model;

/// A set of cells of one embedding dimension, from 1 to `MAX_EMBEDDING`, or 0 where that is unknown
/// and the set is empty. It is seen as its dimension and the sorted list of its members.
#[derive(Drop)]
pub struct CubeSet {
    dimension: u8,
    cells: Vec<Cell>,
}

impl Model for CubeSet {
    ghost use Rattle.cube_sets.specs.Sets.{Members, IsCubeSet};

    ghost Value = { Members };

    ghost view = { λ s. record { dimension = s.dimension; cells = s.cells.items } };

    ghost invariant = { λ s. IsCubeSet (record {
      dimension = s.dimension;
      cells = s.cells.items;
    }) };
}

/// Whether all of these cells lie in the range of the files and have this embedding dimension.
pub fn are_members(dimension: u8, cells: &[Cell]) -> bool
    ensures { result ≡ list_all (is_member dimension) cells.now }
{
    cells.iter().all(|cell| is_member(dimension, cell))
}

fn is_member(dimension: u8, cell: &Cell) -> bool
    ensures { result ≡ is_member dimension cell.now }
{
    cell.embedding() == u32::from(dimension) && cell.in_range()
}

impl CubeSet {
    /// The set of these cells; the same cell may stand more than once. All of them lie in the range
    /// of the files and have this embedding dimension, which is 0 for an empty list alone.
    pub fn of_cells(dimension: u8, cells: Vec<Cell>) -> Result<CubeSet, AllocError>
        requires axes { dimension ≤ MAX_EMBEDDING }
        requires few { vec_len cells < 2 ^ 32 }
        requires alike { IsTrue (list_all (is_member dimension) cells.items) }
        requires unknown { dimension ≡ 0 → cells.items ≡ [] }
        ensures ok { IsOk result }
        ensures dimension { IfOk result (λ s. s.dimension ≡ dimension) }
        ensures members { IfOk result (λ s. (c : List Factor)
            → holds s c ≡ has cell_cmp cells.items c) }
    {
        let mut cells = cells;
        sort_distinct(&mut cells);
        Ok(CubeSet { dimension, cells })
    }

    /// The embedding dimension, or 0 where it is unknown.
    pub fn dimension(&self) -> u8
        ensures dimension { result ≡ self.now.dimension }
        ensures axes { result ≤ MAX_EMBEDDING }
        ensures unknown { result ≡ 0 → self.now.cells ≡ [] }
    {
        self.dimension
    }

    /// The number of members.
    pub fn len(&self) -> u32
        ensures len { result ≡ length self.now.cells }
        ensures set { IsCubeSet self.now }
    {
        self.cells.len() as u32
    }

    /// Whether the set has no members.
    pub fn is_empty(&self) -> bool
        ensures { IsTrue result ↔ (self.now.cells ≡ []) }
    {
        self.cells.is_empty()
    }

    /// The members in order.
    pub fn cells(&self) -> &[Cell]
        ensures cells { result.now ≡ self.now.cells }
        ensures set { IsCubeSet self.now }
    {
        &self.cells
    }

    /// The member at a place of the order, counted from 0.
    pub fn cell(&self, i: u32) -> Cell
        requires { i < length self.now.cells }
        ensures cell { slice_get self.now.cells i ≡ Some result }
        ensures member { IsTrue (is_member self.now.dimension result) }
    {
        self.cells[i as usize]
    }

    /// Whether the cell is a member.
    pub fn holds(&self, cell: &Cell) -> bool
        ensures { result ≡ holds self.now cell.now }
    {
        contains(&self.cells, cell)
    }

    /// The members of either set. The dimensions are equal, or one of them is unknown.
    pub fn union(&self, alloc: Global, other: &CubeSet) -> Result<CubeSet, AllocError>
        requires agree { IsTrue (dimensions_agree self.now.dimension other.now.dimension) }
        requires few { length self.now.cells + length other.now.cells < 2 ^ 32 }
        ensures dimension { IfOk result
            (λ s. s.dimension ≡ max self.now.dimension other.now.dimension) }
        ensures members { IfOk result (IsUnion self.now other.now) }
        ensures cells { IfOk result (λ s. s.cells ≡ union_of cell_cmp self.now.cells
            other.now.cells) }
    {
        let cells = union_of_all(alloc, &self.cells, &other.cells)?;
        Ok(CubeSet {
            dimension: self.dimension.max(other.dimension),
            cells,
        })
    }

    /// The members of both sets. The dimensions are equal, or one of them is unknown.
    pub fn intersection(&self, alloc: Global, other: &CubeSet) -> Result<CubeSet, AllocError>
        requires agree { IsTrue (dimensions_agree self.now.dimension other.now.dimension) }
        requires few { length self.now.cells + length other.now.cells < 2 ^ 32 }
        ensures dimension { IfOk result
            (λ s. s.dimension ≡ max self.now.dimension other.now.dimension) }
        ensures members { IfOk result (IsIntersection self.now other.now) }
        ensures cells { IfOk result (λ s.
            s.cells ≡ intersection_of cell_cmp self.now.cells other.now.cells) }
    {
        let cells = intersection(alloc, &self.cells, &other.cells)?;
        Ok(CubeSet {
            dimension: self.dimension.max(other.dimension),
            cells,
        })
    }

    // The members and the cells to which they are changed along all axes, or `TooMany` exactly
    // where they are more than so many. All of these are of the set's dimension and in range.
    fn spread_within(
        &self,
        alloc: Global,
        changes: (Change, Change),
        limit: u32,
    ) -> Result<CubeSet, SetFault>
        requires { IsTrue (list_all (is_member self.now.dimension)
            (spread_set changes.0 changes.1 self.now).cells) }
        ensures cells { IfOk result (λ s. s ≡ spread_set changes.0 changes.1 self.now) }
        ensures few { OnOk result (length (spread_set changes.0 changes.1 self.now).cells ≤ limit) }
        ensures many { result ≡ Err SetFault.TooMany
            → limit < length (spread_set changes.0 changes.1 self.now).cells }
        ensures range { result ≢ Err SetFault.Coordinates }
    {
        let axes = self.dimension as usize;
        match spread(alloc, &self.cells, axes, changes, limit as usize)? {
            Some(cells) => Ok(CubeSet {
                dimension: self.dimension,
                cells,
            }),
            None => Err(SetFault::TooMany),
        }
    }

    /// The set of all faces of the members, or `TooMany` exactly where they are more than so many.
    pub fn closure_within(&self, alloc: Global, limit: u32) -> Result<CubeSet, SetFault>
        ensures cells { IfOk result (λ s. s ≡ closure self.now) }
        ensures few { OnOk result (length (cells_of self.now.cells) ≤ limit) }
        ensures many { result ≡ Err SetFault.TooMany → limit < length (cells_of self.now.cells) }
        ensures range { result ≢ Err SetFault.Coordinates }
    {
        // The set is read here so that its invariant is known at the call.
        let _ = &self.cells;
        self.spread_within(alloc, (Change::LowerEnd, Change::UpperEnd), limit)
    }

    /// The set of all faces of the members, or `TooMany` exactly where they are more than `CUBES`.
    pub fn closure(&self, alloc: Global) -> Result<CubeSet, SetFault>
        ensures cells { IfOk result (λ s. s ≡ closure self.now) }
        ensures few { OnOk result (length (cells_of self.now.cells) ≤ CUBES) }
        ensures many { result ≡ Err SetFault.TooMany → CUBES < length (cells_of self.now.cells) }
        ensures range { result ≢ Err SetFault.Coordinates }
    {
        self.closure_within(alloc, CUBES)
    }

    /// Whether all members are full cubes.
    pub fn is_full(&self) -> bool
        ensures { result ≡ are_full self.now.cells }
    {
        self.cells.iter().all(|cell| cell.is_full())
    }

    /// The set of all full cubes that share a point with a member; all members are full cubes.
    /// `Coordinates` comes exactly where one of them has an end outside the range of the files,
    /// else `TooMany` exactly where they are more than `CUBES`.
    pub fn neighbourhood(&self, alloc: Global) -> Result<CubeSet, SetFault>
        requires { IsTrue (are_full self.now.cells) }
        ensures cells { IfOk result (λ s. s ≡ neighbourhood self.now) }
        ensures range { OnOk result (IsTrue (are_in_range (neighbours_of self.now.cells))) }
        ensures few { OnOk result (length (neighbours_of self.now.cells) ≤ CUBES) }
        ensures coordinates { result ≡ Err SetFault.Coordinates
            → are_in_range (neighbours_of self.now.cells) ≡ false }
        ensures many { result ≡ Err SetFault.TooMany
            → IsTrue (are_in_range (neighbours_of self.now.cells))
            × (CUBES < length (neighbours_of self.now.cells)) }
    {
        if !are_inner(&self.cells) {
            return Err(SetFault::Coordinates);
        }
        self.spread_within(alloc, (Change::Down, Change::Up), CUBES)
    }
}
