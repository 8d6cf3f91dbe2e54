//! What stands open in a set file while it is read, and what a piece does there.
ghost use Rattle.std.specs.Prelude.{◌≡◌, ℤ, List};
ghost use Rattle.grid_files.specs.Reading.{Step, step, for_mark};
ghost use Rattle.grid_files.specs.Items.{Open, nothing, behind_word};
ghost use Rattle.grid_files.specs.SetFile.{is_open};
ghost use Rattle.grid_files.specs.Openings.{IsOpening, StepsAs};

use crate::corner::{CornerStep, OpenCorner, in_corner};
use crate::fault::TextCause;
use crate::piece::Piece;

/// The beginning of an item, with what is kept of its corners.
#[derive(Clone, Copy)]
pub(crate) enum Opening {
    Nothing,
    InFull(OpenCorner),
    BeforeLower,
    InLower(OpenCorner),
    BeforeUpper(OpenCorner),
    InUpper(OpenCorner, OpenCorner),
    BeforeEnd(OpenCorner, OpenCorner),
    BehindWord,
}

impl Opening {
    /// Whether an item stands open.
    pub(crate) fn is_open(&self) -> bool
        ensures { (o : Open) → IsOpening self.now o → result ≡ is_open o }
    {
        match self {
            Opening::Nothing => false,
            Opening::InFull(_)
            | Opening::BeforeLower
            | Opening::InLower(_)
            | Opening::BeforeUpper(_)
            | Opening::InUpper(_, _)
            | Opening::BeforeEnd(_, _)
            | Opening::BehindWord => true,
        }
    }
}

/// A whole item.
#[derive(Clone, Copy)]
pub(crate) enum Closing {
    Full(OpenCorner),
    Elementary(OpenCorner, OpenCorner),
    Dimension(i64),
    Skipped,
}

/// What a piece does.
#[derive(Clone, Copy)]
pub(crate) enum Turn {
    Goes(Opening),
    Closes(Closing),
    Stops(TextCause),
}

// What a piece does between two items.
fn outside(piece: Piece) -> Turn
    ensures { StepsAs result (step nothing piece) }
{
    match piece {
        Piece::Mark(b) => {
            if b == b'(' {
                Turn::Goes(Opening::InFull(OpenCorner::new()))
            } else if b == b'[' {
                Turn::Goes(Opening::BeforeLower)
            } else {
                Turn::Stops(TextCause::BadByte)
            }
        }
        Piece::SkippedLine => Turn::Closes(Closing::Skipped),
        Piece::DimensionWord => Turn::Goes(Opening::BehindWord),
        Piece::Number(_)
        | Piece::Wide
        | Piece::Arrow
        | Piece::Strange
        | Piece::DimensionNumber(_)
        | Piece::NoNumber
        | Piece::Stray => Turn::Stops(TextCause::BadByte),
    }
}

// A mark that is wanted, and what it does.
fn wanting(mark: u8, piece: Piece, found: Turn) -> Turn
    ensures { (s : Step) → StepsAs found s → StepsAs result (for_mark mark s piece) }
{
    match piece {
        Piece::Mark(b) if b == mark => found,
        _ => Turn::Stops(TextCause::BadByte),
    }
}

// What a piece does behind the word `dimension`.
fn after_word(piece: Piece) -> Turn
    ensures { StepsAs result (step behind_word piece) }
{
    match piece {
        Piece::DimensionNumber(z) => Turn::Closes(Closing::Dimension(z)),
        Piece::Number(_)
        | Piece::Wide
        | Piece::Mark(_)
        | Piece::Arrow
        | Piece::Strange
        | Piece::SkippedLine
        | Piece::DimensionWord
        | Piece::NoNumber
        | Piece::Stray => Turn::Stops(TextCause::BadNumber),
    }
}

/// What a piece does behind the beginning of an item.
pub(crate) fn take_turn(opening: Opening, piece: Piece) -> Turn
    ensures { (o : Open) → IsOpening opening o → StepsAs result (step o piece) }
{
    match opening {
        Opening::Nothing => outside(piece),
        Opening::InFull(corner) => match in_corner(true, corner, piece) {
            CornerStep::More(corner) => Turn::Goes(Opening::InFull(corner)),
            CornerStep::Close => Turn::Closes(Closing::Full(corner)),
            CornerStep::Stop(cause) => Turn::Stops(cause),
        },
        Opening::BeforeLower => wanting(
            b'(',
            piece,
            Turn::Goes(Opening::InLower(OpenCorner::new())),
        ),
        Opening::InLower(lower) => match in_corner(false, lower, piece) {
            CornerStep::More(lower) => Turn::Goes(Opening::InLower(lower)),
            CornerStep::Close => Turn::Goes(Opening::BeforeUpper(lower)),
            CornerStep::Stop(cause) => Turn::Stops(cause),
        },
        Opening::BeforeUpper(lower) => wanting(
            b'(',
            piece,
            Turn::Goes(Opening::InUpper(lower, OpenCorner::new())),
        ),
        Opening::InUpper(lower, upper) => match in_corner(false, upper, piece) {
            CornerStep::More(upper) => Turn::Goes(Opening::InUpper(lower, upper)),
            CornerStep::Close => Turn::Goes(Opening::BeforeEnd(lower, upper)),
            CornerStep::Stop(cause) => Turn::Stops(cause),
        },
        Opening::BeforeEnd(lower, upper) => wanting(
            b']',
            piece,
            Turn::Closes(Closing::Elementary(lower, upper)),
        ),
        Opening::BehindWord => after_word(piece),
    }
}
