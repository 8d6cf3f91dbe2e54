//! Sorted lists of cells spread along the axes: beside each cell those to which its intervals are
//! changed. A change keeps the order of the cells that it changes, so that no list is sorted again.
ghost use Rattle.std.specs.Prelude.{◌≡◌, ◌<◌, ◌≤◌, ◌++◌, length, vec_len, IsTrue, IfOk, OnOk, IfSome, IfNone};
ghost use Rattle.std.specs.List.{list_all};
ghost use Rattle.std.specs.List.Sorted.{IsStrictlySortedBy};
ghost use Rattle.elem_cubes.specs.Cells.{is_wide, is_file_factor};
ghost use Rattle.elem_cubes.specs.Order.{cell_cmp};
ghost use Rattle.elem_cubes.specs.Walks.{factor_at};
ghost use Rattle.cube_sets.specs.Sorted.{union_of};
ghost use Rattle.cube_sets.specs.Changes.{changed_one, changed, changed_both, spread_once, spread};

use crate::change::{Change, changed_cell};
use crate::sorted::union;
use elem_cubes::Cell;
use std::alloc::{AllocError, Global};

// Whether the cell has an interval along the axis.
fn is_wide_along(cell: &Cell, axis: usize) -> bool
    ensures wide { result ≡ is_wide (factor_at cell.now axis) }
    ensures within { IsTrue result → axis < length cell.now }
{
    axis < cell.embedding() as usize && cell.is_wide(axis)
}

// One more cell, changed, where it has an interval along the axis.
fn push_changed(
    to: &mut Vec<Cell>,
    cell: &Cell,
    axis: usize,
    change: Change,
) -> Result<(), AllocError>
    requires { IsTrue (list_all is_file_factor cell.now) }
    ensures { OnOk result (to.new.items ≡ to.old.items ++ changed_one change axis cell.now) }
{
    if !is_wide_along(cell, axis) {
        return Ok(());
    }
    to.push(changed_cell(cell, axis, change))?;
    Ok(())
}

// The cells that have an interval along the axis, each with that interval changed.
fn all_changed(
    alloc: Global,
    cells: &[Cell],
    axis: usize,
    change: Change,
) -> Result<Vec<Cell>, AllocError>
    requires { IsTrue (list_all (list_all is_file_factor) cells.now) }
    ensures { IfOk result (λ all. all.items ≡ changed change axis cells.now) }
{
    let mut all = Vec::with_capacity(alloc, cells.len())?;
    for cell in cells {
        push_changed(&mut all, cell, axis, change)?;
    }
    Ok(all)
}

// The cells that have an interval along the axis, each with that interval changed in either way;
// nothing where they are more than so many.
fn both_changed(
    alloc: Global,
    cells: &[Cell],
    axis: usize,
    changes: (Change, Change),
    limit: usize,
) -> Result<Option<Vec<Cell>>, AllocError>
    requires sorted { IsStrictlySortedBy cell_cmp cells.now }
    requires range { IsTrue (list_all (list_all is_file_factor) cells.now) }
    ensures all { IfOk result (λ all. IfSome all (λ all.
        all.items ≡ changed_both changes.0 changes.1 axis cells.now)) }
    ensures more { IfOk result (λ all. IfNone all
        (limit < length (changed_both changes.0 changes.1 axis cells.now))) }
{
    let first = all_changed(alloc, cells, axis, changes.0)?;
    let second = all_changed(alloc, cells, axis, changes.1)?;
    union(alloc, &first, &second, limit)
}

// The cells and those to which they are changed along one axis; nothing where they are more than so
// many.
fn spread_once(
    alloc: Global,
    cells: &[Cell],
    axis: usize,
    changes: (Change, Change),
    limit: usize,
) -> Result<Option<Vec<Cell>>, AllocError>
    requires sorted { IsStrictlySortedBy cell_cmp cells.now }
    requires range { IsTrue (list_all (list_all is_file_factor) cells.now) }
    ensures all { IfOk result (λ all. IfSome all (λ all.
        (all.items ≡ spread_once changes.0 changes.1 axis cells.now) × (vec_len all ≤ limit))) }
    ensures more { IfOk result (λ all. IfNone all
        (limit < length (spread_once changes.0 changes.1 axis cells.now))) }
{
    match both_changed(alloc, cells, axis, changes, limit)? {
        Some(changed) => union(alloc, cells, &changed, limit),
        None => Ok(None),
    }
}

/// The cells and those to which they are changed along so many axes, one after the other; nothing
/// where they are more than so many. All of them lie in the range of the files.
pub(crate) fn spread(
    alloc: Global,
    cells: &[Cell],
    axes: usize,
    changes: (Change, Change),
    limit: usize,
) -> Result<Option<Vec<Cell>>, AllocError>
    requires sorted { IsStrictlySortedBy cell_cmp cells.now }
    requires range { IsTrue (list_all (list_all is_file_factor)
        (spread changes.0 changes.1 axes cells.now)) }
    ensures all { IfOk result (λ all. IfSome all (λ all.
        (all.items ≡ spread changes.0 changes.1 axes cells.now) × (vec_len all ≤ limit))) }
    ensures more { IfOk result (λ all. IfNone all
        (limit < length (spread changes.0 changes.1 axes cells.now))) }
{
    if limit < cells.len() {
        return Ok(None);
    }
    let mut all = Vec::from_slice(alloc, cells)?;
    for axis in 0..axes {
        match spread_once(alloc, &all, axis, changes, limit)? {
            Some(more) => all = more,
            None => return Ok(None),
        }
    }
    Ok(Some(all))
}
