//! What the files of a map of pairs give.
ghost use Rattle.std.specs.Prelude.{IfOk, option_copied};
ghost use Rattle.loading.specs.TwoSets.{two_bytes};
ghost use Rattle.loading.specs.Loads.{Loads};
ghost use Rattle.pair_maps.specs.Inputs.{ArePairIn, IsPairMapIn, IsFullPair, IsFitting, bytes_of};

use crate::dimensions::agreeing;
use cube_maps::CubeMap;
use faults::{Fault, Name};
use grid_files::{CubeSet, Kind};
use loading::{TwoSets, load_map, load_set, load_subset};
use outside::Files;
use std::alloc::Global;

/// The files of a map from the pair of x and a to that of y and b. A subset without a file is
/// empty.
#[derive(Drop)]
pub struct MapFiles {
    /// The file of the map.
    pub map: Name,
    /// The file of the domain.
    pub x: Name,
    /// The file of the domain's subset, where there is one.
    pub a: Option<Name>,
    /// The file of the range.
    pub y: Name,
    /// The file of the range's subset, where there is one.
    pub b: Option<Name>,
}

/// A map from the pair of x and a to that of y and b.
#[derive(Drop)]
pub struct PairMap {
    /// The map.
    pub map: CubeMap,
    /// The domain.
    pub x: CubeSet,
    /// The domain's subset.
    pub a: CubeSet,
    /// The range.
    pub y: CubeSet,
    /// The range's subset.
    pub b: CubeSet,
}

// The set of full cubes of a file, and the subset of another, where there is one.
fn load_pair<F: Files>(
    alloc: Global,
    files: &mut F,
    x: &Name,
    a: Option<&Name>,
) -> Result<TwoSets, Fault>
    ensures loads { Loads (two_bytes (option_copied a.entry))
        (ArePairIn x.now (option_copied a.entry)) (F.seen files.old) (F.seen files.new) result }
    ensures full { IfOk result IsFullPair }
{
    let first = load_set(alloc, files, x, Kind::Full)?;
    let second = load_subset(alloc, files, a, Kind::Full)?;
    Ok(TwoSets {
        x: first,
        y: second,
    })
}

/// The map and the sets of full cubes of its files, where all known dimensions are equal: the file
/// of the map, then those of the domain, then those of the range.
pub fn load_pair_map<F: Files>(
    alloc: Global,
    files: &mut F,
    names: &MapFiles,
) -> Result<PairMap, Fault>
    ensures loads { Loads (bytes_of names.now) (IsPairMapIn names.now)
        (F.seen files.old) (F.seen files.new) result }
    ensures fits { IfOk result IsFitting }
{
    let map = load_map(alloc, files, &names.map)?;
    let domain = load_pair(alloc, files, &names.x, names.a.as_ref())?;
    let range = load_pair(alloc, files, &names.y, names.b.as_ref())?;
    agreeing(alloc, names, map, domain, range)
}
