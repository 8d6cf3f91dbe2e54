//! The corner of a cube that is being read.
ghost use Rattle.std.specs.Prelude.{◌≡◌, ◌+◌, ◌≤◌, ◌<◌, ◌++◌, ◌∷◌, [], List, ℤ, length, if◌then◌else◌, Option, None, Some, Bool, IsTrue, ◌↔◌, nat_lt, not};
ghost use Rattle.elem_cubes.specs.Corners.{is_corner, is_file_end};
ghost use Rattle.grid_files.specs.Items.{is_empty, is_full_end};
ghost use Rattle.grid_files.specs.Corners.{IsCorner, LeadsIn, end_test};

use crate::fault::TextCause;
use crate::piece::Piece;
use elem_cubes::{HIGH, LOW, MAX_EMBEDDING};

/// The first numbers of a corner, and how many it has, counted up to one more than a corner may
/// have.
#[derive(Clone, Copy)]
pub struct OpenCorner {
    pub numbers: [i32; MAX_EMBEDDING],
    pub count: usize,
}

/// What a piece does in a corner.
#[derive(Clone, Copy)]
pub enum CornerStep {
    More(OpenCorner),
    Close,
    Stop(TextCause),
}

impl OpenCorner {
    /// No numbers yet.
    pub fn new() -> OpenCorner
        ensures { IsCorner result [] }
    {
        OpenCorner {
            numbers: [0; MAX_EMBEDDING],
            count: 0,
        }
    }

    /// One more number.
    pub(crate) fn with(self, z: i32) -> OpenCorner
        ensures { (xs : List ℤ) → IsCorner self xs → IsCorner result (xs ++ z ∷ []) }
    {
        let mut numbers = self.numbers;
        if self.count < MAX_EMBEDDING {
            numbers[self.count] = z;
        }
        OpenCorner {
            numbers,
            count: self.count.saturating_add(1).min(MAX_EMBEDDING + 1),
        }
    }
}

/// A number of a full cube's corner, or of an elementary cube's, where it is in range.
fn end_of(full: bool, z: i64) -> Option<i32>
    ensures { result ≡ (if end_test full z then Some z else None) }
{
    let most = if full { HIGH - 1 } else { HIGH };
    if i64::from(LOW) <= z && z <= i64::from(most) {
        Some(z as i32)
    } else {
        None
    }
}

/// What a piece does in the corner of a full cube, or of an elementary one.
pub fn in_corner(full: bool, corner: OpenCorner, piece: Piece) -> CornerStep
    ensures { (xs : List ℤ) → IsCorner corner xs → LeadsIn full xs piece result }
{
    match piece {
        Piece::Number(z) => match end_of(full, z) {
            Some(z) => CornerStep::More(corner.with(z)),
            None => CornerStep::Stop(TextCause::CoordinateTooLarge),
        },
        Piece::Wide => CornerStep::Stop(TextCause::BadNumber),
        Piece::Mark(b) => {
            if b == b')' && corner.count > 0 {
                CornerStep::Close
            } else {
                CornerStep::Stop(TextCause::BadByte)
            }
        }
        Piece::Arrow
        | Piece::Strange
        | Piece::SkippedLine
        | Piece::DimensionWord
        | Piece::DimensionNumber(_)
        | Piece::NoNumber
        | Piece::Stray => CornerStep::Stop(TextCause::BadByte),
    }
}
