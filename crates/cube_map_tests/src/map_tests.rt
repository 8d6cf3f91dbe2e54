//! A map of the line, with a cube and a pair that stand twice.
ghost use Rattle.std.specs.Prelude.{◌≡◌, ◌∷◌, [], IfSome};
ghost use Rattle.elem_cubes.specs.Cells.{interval};

use cube_maps::{CubeMap, Pair};
use elem_cubes::{Cell, Corner};
use std::alloc::Global;
use std::test::Fail;

/// The unit interval from a place of the line on.
fn segment(lower: i32) -> Option<Cell>
    ensures { IfSome result (λ cell. cell ≡ interval lower ∷ []) }
{
    let corner = Corner::of(&[lower])?;
    Cell::full(&corner)
}

/// The map that sends the first segment to the second, and the second to nothing.
fn shift(alloc: Global) -> Result<CubeMap, Fail> {
    let (Some(first), Some(second)) = (segment(0), segment(1)) else {
        return Err(Fail::from("two segments"));
    };
    let pair = Pair {
        cube: first,
        value: second,
    };
    let cubes = vec![in alloc; second, first, second]?;
    let pairs = vec![in alloc; pair, pair]?;
    Ok(CubeMap::of_parts(alloc, 1, cubes, pairs)?)
}

#[test]
fn what_stands_twice_counts_once(rt: HostRuntime) -> Result<(), Fail> {
    let map = shift(rt.alloc())?;
    assert!(rt; map.dimension() == 1 && map.len() == 2);
    let first = segment(0).ok_or("a segment")?;
    let second = segment(1).ok_or("a segment")?;
    assert!(rt; map.value(&first) == Some([second].as_slice()));
    let is_empty = match map.value(&second) {
        Some(value) => value.is_empty(),
        None => false,
    };
    assert!(rt; is_empty);
    Ok(())
}
