//! What stands open in a map file while it is read, and what a piece does there.
ghost use Rattle.std.specs.Prelude.{◌≡◌, ℤ, List, []};
ghost use Rattle.map_files.specs.Reading.{Step, step, for_arrow, for_marks};
ghost use Rattle.map_files.specs.Items.{Open, nothing, behind_word};
ghost use Rattle.map_files.specs.MapFile.{is_open};
ghost use Rattle.map_files.specs.Openings.{IsOpening, StepsAs, listed_in};

use grid_files::{CornerStep, OpenCorner, Piece, TextCause, in_corner};

/// The beginning of an item, with what is kept of its corners; those of a list are kept apart.
#[derive(Clone, Copy)]
pub(crate) enum Opening {
    Nothing,
    InLeft(OpenCorner),
    BeforeArrow(OpenCorner),
    BeforeValue(OpenCorner),
    InSingle(OpenCorner, OpenCorner),
    InList(OpenCorner),
    InListed(OpenCorner, OpenCorner),
    BehindWord,
}

impl Opening {
    /// Whether an item stands open.
    pub(crate) fn is_open(&self) -> bool
        ensures { (o : Open) → IsOpening self.now o → result ≡ is_open o }
    {
        match self {
            Opening::Nothing => false,
            Opening::InLeft(_)
            | Opening::BeforeArrow(_)
            | Opening::BeforeValue(_)
            | Opening::InSingle(_, _)
            | Opening::InList(_)
            | Opening::InListed(_, _)
            | Opening::BehindWord => true,
        }
    }
}

/// A whole item: a list's corners are kept apart.
#[derive(Clone, Copy)]
pub(crate) enum Closing {
    Single(OpenCorner, OpenCorner),
    Listed(OpenCorner),
    Dimension(i64),
    Skipped,
}

/// What a piece does.
#[derive(Clone, Copy)]
pub(crate) enum Turn {
    Goes(Opening),
    /// A corner of a list is whole: the left corner, and this one.
    Adds(OpenCorner, OpenCorner),
    Closes(Closing),
    Stops(TextCause),
}

// What a piece does between two items.
fn outside(piece: Piece) -> Turn
    ensures { StepsAs [] result (step nothing piece) }
{
    match piece {
        Piece::Mark(b) => {
            if b == b'(' {
                Turn::Goes(Opening::InLeft(OpenCorner::new()))
            } else {
                Turn::Stops(TextCause::BadByte)
            }
        }
        Piece::SkippedLine => Turn::Closes(Closing::Skipped),
        Piece::DimensionWord => Turn::Goes(Opening::BehindWord),
        Piece::Number(_)
        | Piece::Wide
        | Piece::Arrow
        | Piece::Strange
        | Piece::DimensionNumber(_)
        | Piece::NoNumber
        | Piece::Stray => Turn::Stops(TextCause::BadByte),
    }
}

// One of two marks that are wanted, and what each does.
fn wanting(one: u8, first: Turn, other: u8, second: Turn, piece: Piece) -> Turn
    ensures { (vs : List (List ℤ)) (s t : Step) → StepsAs vs first s → StepsAs vs second t
        → StepsAs vs result (for_marks one s other t piece) }
{
    match piece {
        Piece::Mark(b) => {
            if b == one {
                first
            } else if b == other {
                second
            } else {
                Turn::Stops(TextCause::BadByte)
            }
        }
        _ => Turn::Stops(TextCause::BadByte),
    }
}

// What a piece does where an arrow is wanted.
fn arrow(piece: Piece, found: Turn) -> Turn
    ensures { (vs : List (List ℤ)) (s : Step) → StepsAs vs found s
        → StepsAs vs result (for_arrow s piece) }
{
    match piece {
        Piece::Arrow => found,
        _ => Turn::Stops(TextCause::BadByte),
    }
}

// What a piece does behind the word `dimension`.
fn after_word(piece: Piece) -> Turn
    ensures { StepsAs [] result (step behind_word piece) }
{
    match piece {
        Piece::DimensionNumber(z) => Turn::Closes(Closing::Dimension(z)),
        _ => Turn::Stops(TextCause::BadNumber),
    }
}

/// What a piece does behind the beginning of an item.
pub(crate) fn take_turn(opening: Opening, piece: Piece) -> Turn
    ensures { (o : Open) → IsOpening opening o → StepsAs (listed_in o) result (step o piece) }
{
    match opening {
        Opening::Nothing => outside(piece),
        Opening::InLeft(corner) => match in_corner(true, corner, piece) {
            CornerStep::More(corner) => Turn::Goes(Opening::InLeft(corner)),
            CornerStep::Close => Turn::Goes(Opening::BeforeArrow(corner)),
            CornerStep::Stop(cause) => Turn::Stops(cause),
        },
        Opening::BeforeArrow(left) => arrow(piece, Turn::Goes(Opening::BeforeValue(left))),
        Opening::BeforeValue(left) => {
            let single = Turn::Goes(Opening::InSingle(left, OpenCorner::new()));
            wanting(b'(', single, b'{', Turn::Goes(Opening::InList(left)), piece)
        }
        Opening::InSingle(left, value) => match in_corner(true, value, piece) {
            CornerStep::More(value) => Turn::Goes(Opening::InSingle(left, value)),
            CornerStep::Close => Turn::Closes(Closing::Single(left, value)),
            CornerStep::Stop(cause) => Turn::Stops(cause),
        },
        Opening::InList(left) => {
            let more = Turn::Goes(Opening::InListed(left, OpenCorner::new()));
            wanting(b'(', more, b'}', Turn::Closes(Closing::Listed(left)), piece)
        }
        Opening::InListed(left, value) => match in_corner(true, value, piece) {
            CornerStep::More(value) => Turn::Goes(Opening::InListed(left, value)),
            CornerStep::Close => Turn::Adds(left, value),
            CornerStep::Stop(cause) => Turn::Stops(cause),
        },
        Opening::BehindWord => after_word(piece),
    }
}
