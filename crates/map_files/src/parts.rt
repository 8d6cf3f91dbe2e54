//! The distinct cubes and pairs of a map file, while it is read.
ghost use Rattle.std.specs.Prelude.{◌≡◌, [], length, List, OnOk, IfOk};
ghost use Rattle.cube_maps.specs.CubeMaps.{Naming};
ghost use Rattle.map_files.specs.Elements.{changed, joined};
ghost use Rattle.map_files.specs.Kept.{with_cube, with_pair, IsKept};

use cube_maps::Pair;
use elem_cubes::Cell;
use indexmap::IndexSet;
use std::alloc::{AllocError, Global};
use std::marker::Model;

/// Distinct cubes and pairs, in the order in which they came.
#[derive(Drop)]
pub(crate) struct Parts {
    cubes: IndexSet<Cell>,
    pairs: IndexSet<Pair>,
}

impl Model for Parts {
    ghost use Rattle.map_files.specs.Kept.{MapParts};

    ghost Value = { MapParts };

    ghost view = { λ p. record { cubes = p.cubes.keys; pairs = p.pairs.keys } };
}

impl Parts {
    /// No cubes and no pairs.
    pub(crate) fn new(alloc: Global) -> Parts
        ensures cubes { result.cubes ≡ [] }
        ensures pairs { result.pairs ≡ [] }
    {
        Parts {
            cubes: IndexSet::new(alloc),
            pairs: IndexSet::new(alloc),
        }
    }

    // One more cube, where it is not there.
    fn name(&mut self, cube: Cell) -> Result<(), AllocError>
        ensures cubes { OnOk result (self.new.cubes ≡ with_cube cube self.old.cubes) }
        ensures pairs { OnOk result (self.new.pairs ≡ self.old.pairs) }
    {
        self.cubes.insert(cube)?;
        Ok(())
    }

    // One more pair, where it is not there.
    fn pair(&mut self, pair: Pair) -> Result<(), AllocError>
        ensures cubes { OnOk result (self.new.cubes ≡ self.old.cubes) }
        ensures pairs { OnOk result (self.new.pairs ≡ with_pair pair self.old.pairs) }
    {
        self.pairs.insert(pair)?;
        Ok(())
    }

    /// One more element.
    pub(crate) fn join(&mut self, cube: Cell, values: &[Cell]) -> Result<(), AllocError>
        ensures { OnOk result ((named : List Naming) → IsKept self.old named
            → IsKept self.new (changed cube (joined values.now) named)) }
    {
        self.name(cube)?;
        for value in values {
            self.pair(Pair {
                cube,
                value: *value,
            })?;
        }
        Ok(())
    }

    /// The number of cubes.
    pub(crate) fn cube_count(&self) -> usize
        ensures { result ≡ length self.now.cubes }
    {
        self.cubes.len()
    }

    /// The number of pairs.
    pub(crate) fn pair_count(&self) -> usize
        ensures { result ≡ length self.now.pairs }
    {
        self.pairs.len()
    }

    /// The cubes as a list.
    pub(crate) fn cubes(&self, alloc: Global) -> Result<Vec<Cell>, AllocError>
        ensures { IfOk result (λ cubes. cubes.items ≡ self.now.cubes) }
    {
        Vec::from_slice(alloc, self.cubes.as_slice())
    }

    /// The pairs as a list.
    pub(crate) fn pairs(&self, alloc: Global) -> Result<Vec<Pair>, AllocError>
        ensures { IfOk result (λ pairs. pairs.items ≡ self.now.pairs) }
    {
        Vec::from_slice(alloc, self.pairs.as_slice())
    }
}
