//! A cube with one cube of its value.
use elem_cubes::Cell;

/// A cube with one cube of its value.
#[derive(Clone, Copy, Debug, PartialEq, Eq, PartialOrd, Ord, Hash)]
pub struct Pair {
    pub cube: Cell,
    pub value: Cell,
}
