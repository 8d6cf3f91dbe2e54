//! Maps of full cubes.
ghost use Rattle.std.specs.Prelude.{◌≡◌, ◌<◌, length, slice_get, Some, IfSome, IfNone, IfOk, true, false};
ghost use Rattle.cube_maps.specs.CubeMaps.{IsCubeMap, names, value_of, cubes_of};

use elem_cubes::Cell;
use std::alloc::{AllocError, Global};
use std::marker::Model;

/// A named cube with its value in order.
#[derive(Drop)]
pub(crate) struct Entry {
    pub(crate) cube: Cell,
    pub(crate) value: Vec<Cell>,
}

impl Model for Entry {
    ghost use Rattle.cube_maps.specs.CubeMaps.{Naming};

    ghost Value = { Naming };

    ghost view = { λ e. record { cube = e.cube; value = e.value.items } };
}

/// A map that sends full cubes to sets of full cubes of the same dimension, 0 where that is unknown
/// and the map names no cube. It is seen as its dimension and the named cubes in order, each with
/// its value in order.
#[derive(Drop)]
pub struct CubeMap {
    pub(crate) dimension: u8,
    pub(crate) entries: Vec<Entry>,
}

impl Model for CubeMap {
    ghost use Rattle.cube_maps.specs.CubeMaps.{Mapping, IsCubeMap};

    ghost Value = { Mapping };

    ghost view = { λ m. record { dimension = m.dimension; named = m.entries.items } };

    ghost invariant = { λ m. IsCubeMap (record {
      dimension = m.dimension;
      named = m.entries.items;
    }) };
}

impl CubeMap {
    /// The dimension, 0 where it is unknown.
    pub fn dimension(&self) -> u8
        ensures dimension { result ≡ self.now.dimension }
        ensures map { IsCubeMap self.now }
    {
        self.dimension
    }

    /// The number of named cubes.
    pub fn len(&self) -> u32
        ensures len { result ≡ length self.now.named }
        ensures map { IsCubeMap self.now }
    {
        self.entries.len() as u32
    }

    /// The named cube at a place of the order, counted from 0.
    pub fn source(&self, i: u32) -> Cell
        requires { i < length self.now.named }
        ensures { slice_get (cubes_of self.now.named) i ≡ Some result }
    {
        self.entries[i as usize].cube
    }

    /// The value of a cube, or `None` exactly where the map does not name it.
    pub fn value(&self, cube: &Cell) -> Option<&[Cell]>
        ensures some { IfSome result (λ value. (names self.now.named cube.now ≡ true)
            × (value.now ≡ value_of self.now.named cube.now)) }
        ensures none { IfNone result (names self.now.named cube.now ≡ false) }
    {
        match self.entries.binary_search_by_key(cube, |entry| entry.cube) {
            Ok(at) => Some(&self.entries[at].value),
            Err(_) => None,
        }
    }

    /// An equal map.
    pub fn copy(&self, alloc: Global) -> Result<CubeMap, AllocError>
        ensures { IfOk result (λ m. m ≡ self.now) }
    {
        let mut entries = Vec::with_capacity(alloc, self.entries.len())?;
        for entry in &self.entries {
            let value = Vec::from_slice(alloc, &entry.value)?;
            entries.push(Entry {
                cube: entry.cube,
                value,
            })?;
        }
        Ok(CubeMap {
            dimension: self.dimension,
            entries,
        })
    }
}
