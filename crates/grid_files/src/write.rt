//! Sets as texts.
ghost use Rattle.std.specs.Prelude.{◌≡◌, ◌++◌, ◌≤◌, length, OnOk, IfOk, ◌∷◌, []};
ghost use Rattle.std.specs.List.{flat_map};
ghost use Rattle.grid_files.specs.Written.{cell_text, cell_line, written};

use crate::piece::DIMENSION;
use corner_texts::put_corner;
use cube_sets::{CUBES, CubeSet};
use elem_cubes::Cell;
use outside::put_number;
use std::alloc::{AllocError, Global};

// A cell.
fn put_cell(to: &mut Vec<u8>, cell: &Cell) -> Result<(), AllocError>
    ensures { OnOk result (to.new.items ≡ to.old.items ++ cell_text cell.now) }
{
    if cell.is_full() {
        return put_corner(to, &cell.lower());
    }
    to.push(b'[')?;
    put_corner(to, &cell.lower())?;
    put_corner(to, &cell.upper())?;
    to.push(b']')?;
    Ok(())
}

// A cell on a line of its own.
fn put_line(to: &mut Vec<u8>, cell: &Cell) -> Result<(), AllocError>
    ensures { OnOk result (to.new.items ≡ to.old.items ++ cell_line cell.now) }
{
    put_cell(to, cell)?;
    to.push(b'\n')?;
    Ok(())
}

/// The written form of a set of at most `CUBES` members.
pub fn write_set(alloc: Global, set: &CubeSet) -> Result<Vec<u8>, AllocError>
    requires { length set.now.cells ≤ CUBES }
    ensures { IfOk result (λ text. text.items ≡ written set.now) }
{
    let mut text = Vec::new(alloc);
    let dimension = set.dimension();
    if dimension == 0 {
        return Ok(text);
    }
    text.extend_from_slice(&DIMENSION)?;
    text.push(b' ')?;
    put_number(&mut text, i64::from(dimension))?;
    text.push(b'\n')?;
    for cell in set.cells() {
        put_line(&mut text, cell)?;
    }
    Ok(text)
}
