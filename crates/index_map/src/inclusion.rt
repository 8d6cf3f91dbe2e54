//! Whether a pair of sets is included in another.
ghost use Rattle.std.specs.Prelude.{IfSome, IfNone};
ghost use Rattle.std.specs.List.{Contains};
ghost use Rattle.std.specs.List.Sorted.{IsStrictlySortedBy};
ghost use Rattle.elem_cubes.specs.Order.{cell_cmp};
ghost use Rattle.map_checks.specs.Firsts.{IsFirst};
ghost use Rattle.map_checks.specs.Faults.{together};
ghost use Rattle.index_map.specs.Faults.{IsNotIncluded};
ghost use Rattle.index_map.specs.Inclusion.{IsIncluded};

use cube_sets::CubeSet;
use elem_cubes::Cell;

/// Why a pair is not included in another.
#[derive(Drop)]
pub enum NotIncluded {
    /// The first cube of the domain that is not in the range.
    Whole { cube: Cell },
    /// The first cube of the domain's subset that is not in that of the range.
    Subset { cube: Cell },
}

/// Whether the pair of x and a is included in that of y and b: the first cube that shows that it is
/// not, or `None`. It takes no memory.
pub fn included(x: &CubeSet, a: &CubeSet, y: &CubeSet, b: &CubeSet) -> Option<NotIncluded>
    ensures none { IfNone result (IsIncluded x.now.cells a.now.cells y.now.cells b.now.cells) }
    ensures some { IfSome result (IsNotIncluded x.now.cells a.now.cells y.now.cells b.now.cells) }
{
    // Their clauses say that the members stand in order.
    let _subset = a.len();
    let _range_subset = b.len();
    if let Some(cube) = first_of_domain(x, a, y, b) {
        return Some(NotIncluded::Whole { cube });
    }
    if let Some(cube) = first_outside(a.cells(), b, b) {
        return Some(NotIncluded::Subset { cube });
    }
    None
}

// The first member of x or a that is in neither y nor b.
fn first_of_domain(x: &CubeSet, a: &CubeSet, y: &CubeSet, b: &CubeSet) -> Option<Cell>
    ensures { IsFirst (together x.now.cells a.now.cells)
        (λ q. Contains (together y.now.cells b.now.cells) q → ⊥) result }
{
    // Their clauses say that the members stand in order.
    let _members = x.len();
    let _subset = a.len();
    let left = first_outside(x.cells(), y, b);
    let right = first_outside(a.cells(), y, b);
    match (left, right) {
        (Some(cube), Some(other)) => Some(cube.min(other)),
        (Some(cube), None) => Some(cube),
        (None, _) => right,
    }
}

// The first of some cubes in order that is in neither of two sets.
fn first_outside(cubes: &[Cell], y: &CubeSet, b: &CubeSet) -> Option<Cell>
    requires { IsStrictlySortedBy cell_cmp cubes.now }
    ensures { IsFirst cubes.now (λ q. Contains (together y.now.cells b.now.cells) q → ⊥) result }
{
    for cube in cubes {
        if !y.holds(cube) && !b.holds(cube) {
            return Some(*cube);
        }
    }
    None
}
