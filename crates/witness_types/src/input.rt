//! What a witness speaks of.
use cube_maps::CubeMap;
use cube_sets::CubeSet;

/// A pair of sets, or a map from the pair of x and a to that of y and b.
#[derive(Drop)]
pub enum Input<'a> {
    /// The pair of x and a.
    Pair {
        x: &'a CubeSet,
        a: &'a CubeSet,
    },
    /// The map, and both pairs.
    Map {
        map: &'a CubeMap,
        x: &'a CubeSet,
        a: &'a CubeSet,
        y: &'a CubeSet,
        b: &'a CubeSet,
    },
}
