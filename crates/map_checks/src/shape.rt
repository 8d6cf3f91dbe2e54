//! What a value is cut out of: the values of the cubes round a cell.
ghost use Rattle.std.specs.Prelude.{◌≡◌, ◌++◌, [], ◌∷◌, true, IfOk, OnOk, IsTrue};
ghost use Rattle.cube_sets.specs.Closures.{is_cell_of};
ghost use Rattle.cube_maps.specs.CubeMaps.{names, value_of};
ghost use Rattle.map_checks.specs.Faults.{AreNamed};
ghost use Rattle.map_checks.specs.Shapes.{IsShapeAt};

use cell_complex::CellList;
use cube_maps::CubeMap;
use cube_sets::CubeSet;
use elem_cubes::Cell;
use std::alloc::{AllocError as NoMemory, Global};
use std::marker::Model;

/// Lists of cubes: the values of some cubes round a cell, of which the value at the cell has the
/// cells that all of them have.
#[derive(Drop)]
pub(crate) struct Shape {
    values: Vec<CellList>,
}

impl Model for Shape {
    ghost use Rattle.std.specs.Prelude.{List};
    ghost use Rattle.elem_cubes.specs.Cells.{Factor};

    ghost Value = { List (List (List Factor)) };

    ghost view = { λ s. s.values.items };
}

impl Shape {
    /// No values. It takes no memory.
    pub(crate) fn empty(alloc: Global) -> Shape
        ensures { result ≡ [] }
    {
        Shape {
            values: Vec::new(alloc),
        }
    }

    /// The values.
    pub(crate) fn values(&self) -> &[CellList]
        ensures { result.now ≡ self.now }
    {
        &self.values
    }

    // One more value.
    fn add(&mut self, alloc: Global, value: &[Cell]) -> Result<(), NoMemory>
        ensures { OnOk result (self.new ≡ self.old ++ value.now ∷ []) }
    {
        let list = list_of(alloc, value)?;
        self.values.push(list)?;
        Ok(())
    }
}

// Some cubes as a list.
fn list_of(alloc: Global, cubes: &[Cell]) -> Result<CellList, NoMemory>
    ensures { IfOk result (λ list. list ≡ cubes.now) }
{
    let mut list = CellList::new(alloc);
    for cube in cubes {
        list.push(*cube)?;
    }
    Ok(list)
}

// The value of a cube that the map names.
fn named_value<'a>(map: &'a CubeMap, cube: &Cell) -> &'a [Cell]
    requires { names map.now.named cube.now ≡ true }
    ensures { result.now ≡ value_of map.now.named cube.now }
{
    match map.value(cube) {
        Some(value) => value,
        None => unreachable!(),
    }
}

/// The values of the cubes of the domain that have a cell as a face.
pub(crate) fn shape_at(
    alloc: Global,
    map: &CubeMap,
    domain: &CubeSet,
    cell: &Cell,
) -> Result<Shape, NoMemory>
    requires cell { IsTrue (is_cell_of domain.now.cells cell.now) }
    requires named { AreNamed map.now.named domain.now.cells }
    ensures { IfOk result (IsShapeAt map.now.named domain.now.cells cell.now) }
{
    // Their clauses say what a map and a set are.
    let _cubes = map.len();
    let _members = domain.len();
    let mut shape = Shape::empty(alloc);
    for cube in cell.covers() {
        if domain.holds(&cube) {
            shape.add(alloc, named_value(map, &cube))?;
        }
    }
    Ok(shape)
}
