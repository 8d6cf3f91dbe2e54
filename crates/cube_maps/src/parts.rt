//! Maps that are made of their parts: cubes, and pairs of a cube and a cube of its value.
ghost use Rattle.std.specs.Prelude.{◌≡◌, ◌+◌, ◌≤◌, List, [], length, drop, vec_len, IfOk, IsTrue};
ghost use Rattle.std.specs.List.{list_all};
ghost use Rattle.std.specs.List.Sorted.{IsStrictlySortedBy};
ghost use Rattle.elem_cubes.specs.Cells.{Factor};
ghost use Rattle.elem_cubes.specs.Order.{cell_cmp};
ghost use Rattle.cube_sets.specs.Sorted.{has};
ghost use Rattle.cube_maps.specs.CubeMaps.{IsCubeMap, names, value_of, pairs_of, is_full_member};
ghost use Rattle.cube_maps.specs.Parts.{is_pair, first_values, other_pairs, namings_in, pair_cmp};

use crate::cube_map::{CubeMap, Entry};
use crate::pair::Pair;
use cube_sets::sort_distinct;
use elem_cubes::{Cell, MAX_EMBEDDING};
use std::alloc::{AllocError, Global};

/// The most named cubes of a map, and the most pairs of a cube and a cube of its value.
pub const MAP_PAIRS: u32 = 1_048_576;

// The values of a cube: of the pairs from this place on, those that begin with it; and the place
// behind them.
fn first_values(
    alloc: Global,
    pairs: &[Pair],
    from: usize,
    cube: &Cell,
) -> Result<(Vec<Cell>, usize), AllocError>
    requires { from ≤ length pairs.now }
    ensures values { IfOk result (λ r. r.0.items ≡ first_values (drop from pairs.now) cube.now) }
    ensures others { IfOk result (λ r. drop r.1 pairs.now ≡ other_pairs
        (drop from pairs.now) cube.now) }
    ensures count { IfOk result (λ r. from + vec_len r.0 ≡ r.1) }
    ensures within { IfOk result (λ r. r.1 ≤ length pairs.now) }
{
    let mut values = Vec::new(alloc);
    let mut at = from;
    while at < pairs.len() && pairs[at].cube == *cube {
        values.push(pairs[at].value)?;
        at += 1;
    }
    Ok((values, at))
}

// The cubes with their values, by pairs in order.
fn entries(alloc: Global, cubes: &[Cell], pairs: &[Pair]) -> Result<Vec<Entry>, AllocError>
    requires cubes { IsStrictlySortedBy cell_cmp cubes.now }
    requires pairs { IsStrictlySortedBy pair_cmp pairs.now }
    requires named { IsTrue (list_all (λ p. has cell_cmp cubes.now p.cube) pairs.now) }
    ensures entries { IfOk result (λ entries. entries.items ≡ namings_in cubes.now pairs.now) }
    ensures count { IfOk result (λ entries. length (pairs_of entries.items) ≤ length pairs.now) }
{
    let mut entries = Vec::with_capacity(alloc, cubes.len())?;
    let mut at = 0;
    for cube in cubes {
        let (value, next) = first_values(alloc, pairs, at, cube)?;
        entries.push(Entry { cube: *cube, value })?;
        at = next;
    }
    Ok(entries)
}

impl CubeMap {
    /// The map that names these cubes, and in whose values these pairs are; each may stand more
    /// than once. The dimension is 0 for no cubes alone.
    pub fn of_parts(
        alloc: Global,
        dimension: u8,
        cubes: Vec<Cell>,
        pairs: Vec<Pair>,
    ) -> Result<CubeMap, AllocError>
        requires axes { dimension ≤ MAX_EMBEDDING }
        requires unknown { dimension ≡ 0 → cubes.items ≡ [] }
        requires cubes { IsTrue (list_all (is_full_member dimension) cubes.items) }
        requires values { IsTrue (list_all (λ p. is_full_member dimension p.value) pairs.items) }
        requires named { IsTrue (list_all (λ p. has cell_cmp cubes.items p.cube) pairs.items) }
        requires few { vec_len cubes ≤ MAP_PAIRS }
        requires few_pairs { vec_len pairs ≤ MAP_PAIRS }
        ensures map { IfOk result IsCubeMap }
        ensures dimension { IfOk result (λ m. m.dimension ≡ dimension) }
        ensures names { IfOk result (λ m. (q : List Factor)
            → names m.named q ≡ has cell_cmp cubes.items q) }
        ensures pairs { IfOk result (λ m. (q v : List Factor)
            → has cell_cmp (value_of m.named q) v ≡ is_pair pairs.items q v) }
    {
        let mut cubes = cubes;
        let mut pairs = pairs;
        sort_distinct(&mut cubes);
        sort_distinct(&mut pairs);
        let entries = entries(alloc, &cubes, &pairs)?;
        Ok(CubeMap { dimension, entries })
    }
}
