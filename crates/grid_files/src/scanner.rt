//! The scanner: a text, byte by byte, as the pieces of a set file.
ghost use Rattle.std.specs.Prelude.{◌≡◌, ◌+◌, ◌-◌, ◌*◌, ◌≤◌, ◌<◌, ◌^◌, ℕ, List, ◌∷◌, min, if◌then◌else◌, Option, None, Some, true};
ghost use Rattle.outside.specs.Tokens.{is_blank, is_mark, number_of, line_of};
ghost use Rattle.grid_files.specs.Pieces.{piece_of, pieces_behind};
ghost use Rattle.grid_files.specs.Scanning.{left, listed, number_in, behind_line, IsCarry, Scans};
ghost use Rattle.grid_files.specs.declared.scanner.Carry.TheVariants.{Between, Line, Dash, Digits, Word, Behind, BehindDash, BehindDigits, AfterNumber};
ghost use Rattle.std.specs.Char.{is_ascii_alphabetic};

use crate::piece::{DIMENSION, Piece};

/// What a scanner carries from byte to byte: the token that it stands in.
#[derive(Clone, Copy)]
pub enum Carry {
    /// Between two tokens.
    Between,
    /// In a comment, or in a line that is skipped.
    Line,
    /// Behind a `-`.
    Dash { at: u64 },
    /// In a number, as far as its value counts.
    Digits { at: u64, negative: bool, value: u64 },
    /// In a word whose letters so far are the first of `dimension`.
    Word { at: u64, matched: usize },
    /// Behind the word `dimension`.
    Behind,
    /// There, behind a `-`.
    BehindDash { at: u64 },
    /// There, in a number.
    BehindDigits { at: u64, negative: bool, value: u64 },
    /// Behind the number of a dimension line.
    AfterNumber,
}

/// A piece with the place of its first byte.
pub type Placed = (u64, Piece);

// A value that counts as being outside 64 bits, whatever digits follow.
const CAP: u64 = (1 << 63) + 1;

fn is_blank(b: u8) -> bool
    ensures { result ≡ is_blank b }
{
    b == b' ' || b == b'\t' || b == b'\r' || b == b'\n' || b == b','
}

fn is_mark(b: u8) -> bool
    ensures { result ≡ is_mark b }
{
    b == b'('
        || b == b')'
        || b == b'['
        || b == b']'
        || b == b'{'
        || b == b'}'
        || b == b':'
        || b == b'#'
        || b == b'='
        || b == b'*'
        || b == b'+'
}

// The value with one more digit, as far as it counts.
fn with_digit(value: u64, digit: u8) -> u64
    requires small { value ≤ CAP }
    requires digit { 48 ≤ digit }
    ensures { result ≡ min (10 * value + (digit - 48)) CAP }
{
    let next = u128::from(value) * 10 + u128::from(digit - b'0');
    next.min(u128::from(CAP)) as u64
}

// A whole number by its sign and its size, as far as it counts.
fn number(negative: bool, value: u64) -> Option<i64>
    ensures { result ≡ number_in (number_of negative value) }
{
    if !negative {
        return i64::try_from(value).ok();
    }
    if value <= 1 << 63 {
        Some(0i64.wrapping_sub_unsigned(value))
    } else {
        None
    }
}

// The piece of a number.
fn number_piece(negative: bool, value: u64) -> Piece
    ensures { result ≡ piece_of (number_of negative value) }
{
    match number(negative, value) {
        Some(z) => Piece::Number(z),
        None => Piece::Wide,
    }
}

// Behind a byte of a line that is skipped, or that ends it.
fn on_line(b: u8) -> Carry
    ensures pieces { (place : ℕ) (bs : List ℕ)
        → behind_line place (b ∷ bs) ≡ left result (place + 1) bs }
    ensures carry { IsCarry result }
    ensures line { b ≡ 10 → result ≡ Between }
{
    if b == b'\n' {
        Carry::Between
    } else {
        Carry::Line
    }
}

// Behind the first byte of what stands between two tokens.
fn begin(place: u64, b: u8) -> (Carry, Option<Placed>)
    ensures pieces { (bs : List ℕ)
        → pieces_behind 0 place (b ∷ bs) ≡ listed result.1 (left result.0 (place + 1) bs) }
    ensures carry { IsCarry result.0 }
    ensures line { b ≡ 10 → result.0 ≡ Between }
{
    if is_blank(b) {
        return (Carry::Between, None);
    }
    if b == b';' {
        return (Carry::Line, None);
    }
    if b.is_ascii_alphabetic() {
        return letter(place, 0, b);
    }
    if b.is_ascii_digit() {
        let value = u64::from(b - b'0');
        return (
            Carry::Digits {
                at: place,
                negative: false,
                value,
            },
            None,
        );
    }
    if b == b'-' {
        return (Carry::Dash { at: place }, None);
    }
    let piece = if is_mark(b) {
        Piece::Mark(b)
    } else {
        Piece::Strange
    };
    (Carry::Between, Some((place, piece)))
}

// Behind one more letter of a word: the word may still be `dimension`, or its line is skipped.
fn letter(at: u64, matched: usize, b: u8) -> (Carry, Option<Placed>)
    requires matched { matched ≤ 9 }
    requires letter { is_ascii_alphabetic b ≡ true }
    ensures pieces { (place : ℕ) (bs : List ℕ) → left (Word at matched) place (b ∷ bs)
        ≡ listed result.1 (left result.0 (place + 1) bs) }
    ensures carry { IsCarry result.0 }
    ensures line { b ≡ 10 → result.0 ≡ Between }
{
    if matched < DIMENSION.len() && DIMENSION[matched] == b {
        return (
            Carry::Word {
                at,
                matched: matched + 1,
            },
            None,
        );
    }
    (Carry::Line, Some((at, Piece::SkippedLine)))
}

// Behind a byte that stands behind the word `dimension`, before its number.
fn begin_number(place: u64, b: u8) -> (Carry, Option<Placed>)
    ensures pieces { (bs : List ℕ)
        → left Behind place (b ∷ bs) ≡ listed result.1 (left result.0 (place + 1) bs) }
    ensures carry { IsCarry result.0 }
    ensures line { b ≡ 10 → result.0 ≡ Between }
{
    if b == b'\n' {
        return (Carry::Between, Some((place, Piece::NoNumber)));
    }
    if is_blank(b) {
        return (Carry::Behind, None);
    }
    if b.is_ascii_digit() {
        let value = u64::from(b - b'0');
        return (
            Carry::BehindDigits {
                at: place,
                negative: false,
                value,
            },
            None,
        );
    }
    if b == b'-' {
        return (Carry::BehindDash { at: place }, None);
    }
    (Carry::Line, Some((place, Piece::NoNumber)))
}

// Behind a byte that stands behind the number of a dimension line.
fn after_number(place: u64, b: u8) -> (Carry, Option<Placed>)
    ensures pieces { (bs : List ℕ)
        → left AfterNumber place (b ∷ bs) ≡ listed result.1 (left result.0 (place + 1) bs) }
    ensures carry { IsCarry result.0 }
    ensures line { b ≡ 10 → result.0 ≡ Between }
{
    if b == b'\n' {
        return (Carry::Between, None);
    }
    if is_blank(b) {
        return (Carry::AfterNumber, None);
    }
    if b == b';' {
        return (Carry::Line, None);
    }
    (Carry::Line, Some((place, Piece::Stray)))
}

/// What one byte tells: at most two pieces, and the new carry.
#[derive(Clone, Copy)]
pub struct Scanned {
    pub carry: Carry,
    pub first: Option<Placed>,
    pub second: Option<Placed>,
}

// A piece, and then what the next token begins with.
fn then(first: Placed, next: (Carry, Option<Placed>)) -> Scanned
    ensures { result ≡ record { carry = next.0; first = Some first; second = next.1 } }
{
    Scanned {
        carry: next.0,
        first: Some(first),
        second: next.1,
    }
}

// One more byte behind a `-`.
fn after_dash(at: u64, place: u64, b: u8) -> Scanned
    ensures pieces { Scans (Dash at) place b result.carry result.first result.second }
    ensures carry { IsCarry result.carry }
    ensures line { b ≡ 10 → result.carry ≡ Between }
{
    if b.is_ascii_digit() {
        let value = u64::from(b - b'0');
        return going_on(Carry::Digits {
            at,
            negative: true,
            value,
        });
    }
    if b == b'>' {
        return then((at, Piece::Arrow), (Carry::Between, None));
    }
    then((at, Piece::Strange), begin(place, b))
}

// Nothing is told.
fn going_on(carry: Carry) -> Scanned
    ensures { result ≡ record { carry = carry; first = None; second = None } }
{
    Scanned {
        carry,
        first: None,
        second: None,
    }
}

// One more byte in a number.
fn in_digits(at: u64, negative: bool, value: u64, place: u64, b: u8) -> Scanned
    requires { value ≤ CAP }
    ensures pieces { Scans (Digits at negative value) place b result.carry result.first
        result.second }
    ensures carry { IsCarry result.carry }
    ensures line { b ≡ 10 → result.carry ≡ Between }
{
    if b.is_ascii_digit() {
        let value = with_digit(value, b);
        return going_on(Carry::Digits {
            at,
            negative,
            value,
        });
    }
    then((at, number_piece(negative, value)), begin(place, b))
}

// One more byte in a word.
fn in_word(at: u64, matched: usize, place: u64, b: u8) -> Scanned
    requires { matched ≤ 9 }
    ensures pieces { Scans (Word at matched) place b result.carry result.first result.second }
    ensures carry { IsCarry result.carry }
    ensures line { b ≡ 10 → result.carry ≡ Between }
{
    if b.is_ascii_alphabetic() {
        let (carry, first) = letter(at, matched, b);
        return Scanned {
            carry,
            first,
            second: None,
        };
    }
    if matched == DIMENSION.len() {
        return then((at, Piece::DimensionWord), begin_number(place, b));
    }
    then((at, Piece::SkippedLine), (on_line(b), None))
}

// One more byte behind the `-` of a dimension line.
fn after_number_dash(at: u64, place: u64, b: u8) -> Scanned
    ensures pieces { Scans (BehindDash at) place b result.carry result.first result.second }
    ensures carry { IsCarry result.carry }
    ensures line { b ≡ 10 → result.carry ≡ Between }
{
    if b.is_ascii_digit() {
        let value = u64::from(b - b'0');
        return going_on(Carry::BehindDigits {
            at,
            negative: true,
            value,
        });
    }
    then((at, Piece::NoNumber), (on_line(b), None))
}

// One more byte in the number of a dimension line.
fn in_number(at: u64, negative: bool, value: u64, place: u64, b: u8) -> Scanned
    requires { value ≤ CAP }
    ensures pieces { Scans (BehindDigits at negative value) place b result.carry result.first
        result.second }
    ensures carry { IsCarry result.carry }
    ensures line { b ≡ 10 → result.carry ≡ Between }
{
    if b.is_ascii_digit() {
        let value = with_digit(value, b);
        return going_on(Carry::BehindDigits {
            at,
            negative,
            value,
        });
    }
    match number(negative, value) {
        Some(z) => then((at, Piece::DimensionNumber(z)), after_number(place, b)),
        None => then((at, Piece::NoNumber), (on_line(b), None)),
    }
}

fn telling(next: (Carry, Option<Placed>)) -> Scanned
    ensures { result ≡ record { carry = next.0; first = next.1; second = None } }
{
    Scanned {
        carry: next.0,
        first: next.1,
        second: None,
    }
}

/// One more byte of a text, which stands at this place.
pub fn scan(carry: Carry, place: u64, b: u8) -> Scanned
    requires { IsCarry carry }
    ensures pieces { Scans carry place b result.carry result.first result.second }
    ensures carry { IsCarry result.carry }
    ensures line { b ≡ 10 → result.carry ≡ Between }
{
    match carry {
        Carry::Between => telling(begin(place, b)),
        Carry::Line => going_on(on_line(b)),
        Carry::Dash { at } => after_dash(at, place, b),
        Carry::Digits {
            at,
            negative,
            value,
        } => in_digits(at, negative, value, place, b),
        Carry::Word { at, matched } => in_word(at, matched, place, b),
        Carry::Behind => telling(begin_number(place, b)),
        Carry::BehindDash { at } => after_number_dash(at, place, b),
        Carry::BehindDigits {
            at,
            negative,
            value,
        } => in_number(at, negative, value, place, b),
        Carry::AfterNumber => telling(after_number(place, b)),
    }
}
