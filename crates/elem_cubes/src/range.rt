//! The range of coordinates, and the greatest number of factors.

/// The least end of a factor in a file.
pub const LOW: i32 = -1_073_741_824;

/// The greatest end of a factor in a file.
pub const HIGH: i32 = 1_073_741_825;

/// The greatest embedding number: how many factors a cell has at most.
pub const MAX_EMBEDDING: usize = 4;
