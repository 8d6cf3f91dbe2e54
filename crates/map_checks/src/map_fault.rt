//! Why a map does not go from one pair to another with acyclic values.
use acyclic_values::Hole;
use elem_cubes::Cell;
use std::alloc::AllocError;

/// The first reason why a map does not go from one pair to another with acyclic values.
#[derive(Drop)]
pub enum MapFault<const P: u16> {
    /// The map does not name this cube of the domain.
    Undefined {
        cube: Cell,
    },
    /// This value of a cube of the domain is not in the range.
    LeavesRange {
        cube: Cell,
        value: Cell,
    },
    /// This value of a cube of the domain's subset is not in that of the range.
    NotCarried {
        cube: Cell,
        value: Cell,
    },
    /// The value at this cell of the domain is not acyclic, as the hole shows.
    NotAcyclic {
        cell: Cell,
        value: Vec<Cell>,
        hole: Hole<P>,
    },
    /// Memory ran out.
    NoMemory,
}

impl<const P: u16> From<AllocError> for MapFault<P> {
    ghost use Rattle.std.specs.Prelude.{◌≡◌};
    ghost use Rattle.map_checks.specs.declared.map_fault.MapFault.TheVariants.{NoMemory};

    ghost from_gives = { λ _ fault. fault ≡ NoMemory };

    fn from(_error: AllocError) -> MapFault<P> {
        MapFault::NoMemory
    }
}
