//! A corner with the cells at it.
use elem_cubes::Corner;

/// A corner, and the mask of the cells at it: the bit of each rank.
#[derive(Clone, Copy, Debug)]
pub(crate) struct Place {
    pub(crate) corner: Corner,
    pub(crate) mask: u16,
}
