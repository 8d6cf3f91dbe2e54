//! The tokens of a text.
ghost use Rattle.std.specs.Prelude.{◌≡◌, ◌+◌, ◌-◌, ◌*◌, ◌^◌, ◌≤◌, ℕ, length, drop, Some, min};
ghost use Rattle.outside.specs.Tokens.{is_blank, is_mark, digits_of, digits_value, letters_of, line_of, number_of, dashed, dashed_size};
ghost use Rattle.outside.specs.Lexing.{said, size_of, token_of, further, FollowsBlanks, Lexes, StandsAt};

use std::marker::Model;

/// A token: a number, a number outside 64 bits, `->`, a word by its letters, one of the marks `( )
/// [ ] { } : # = * +`, any other byte, or the end of the text.
#[derive(Clone, Copy, Debug, PartialEq, Eq)]
pub enum Token<'a> {
    Number(i64),
    Wide,
    Arrow,
    Word(&'a [u8]),
    Mark(u8),
    Other(u8),
    End,
}

/// Reads a text token by token. It is seen as the place where it stands and the bytes from there
/// on.
#[derive(Drop)]
pub struct Lexer<'a> {
    place: u64,
    rest: &'a [u8],
}

impl<'a> Model for Lexer<'a> {
    ghost use Rattle.std.specs.Prelude.{◌+◌, ◌^◌, ◌<◌, length};
    ghost use Rattle.outside.specs.Standing.{Standing};

    ghost Value = { Standing };

    ghost view = { λ l. record { place = l.place; rest = l.rest.now } };

    ghost invariant = { λ l. l.place + length l.rest.now < 2 ^ 64 };
}

impl<'a> Lexer<'a> {
    /// Stands at the first byte of a text. Takes no memory.
    pub fn new(bytes: &'a [u8]) -> Lexer<'a>
        ensures { result ≡ record { place = 0; rest = bytes.now } }
    {
        Lexer {
            place: 0,
            rest: bytes,
        }
    }

    /// The next token with the place of its first byte, behind blanks and comments; the end has the
    /// length of the text as its place. The lexer then stands right behind the token. Takes no
    /// memory.
    pub fn next(&mut self) -> (u64, Token<'a>)
        ensures { Lexes self.old result.0 (said result.1) self.new }
    {
        let rest = skip_blanks(self.rest);
        let place = self.place + (self.rest.len() - rest.len()) as u64;
        let (token, behind) = first_token(rest);
        self.place = place + (rest.len() - behind.len()) as u64;
        self.rest = behind;
        (place, token)
    }

    /// The place where the lexer stands, and the bytes from there up to the next line feed or the
    /// end, where it then stands. Takes no memory.
    pub fn line_rest(&mut self) -> (u64, &'a [u8])
        ensures place { result.0 ≡ self.old.place }
        ensures line { result.1.now ≡ line_of self.old.rest }
        ensures behind { self.new ≡ further (length (line_of self.old.rest)) self.old }
    {
        let place = self.place;
        let (line, behind) = self.rest.split_at(line_len(self.rest));
        self.place = place + line.len() as u64;
        self.rest = behind;
        (place, line)
    }
}

fn is_blank(b: u8) -> bool
    ensures { result ≡ is_blank b }
{
    matches!(b, b' ' | b'\t' | b'\r' | b'\n' | b',')
}

fn is_mark(b: u8) -> bool
    ensures { result ≡ is_mark b }
{
    matches!(
        b,
        b'(' | b')' | b'[' | b']' | b'{' | b'}' | b':' | b'#' | b'=' | b'*' | b'+'
    )
}

// How many bytes there are up to the next line feed.
fn line_len(bytes: &[u8]) -> usize
    ensures { result ≡ length (line_of bytes.now) }
{
    bytes.iter().take_while(|b| **b != b'\n').count()
}

// How many letters stand at the front.
fn letters_len(bytes: &[u8]) -> usize
    ensures { result ≡ length (letters_of bytes.now) }
{
    bytes.iter().take_while(|b| b.is_ascii_alphabetic()).count()
}

// What is left behind the blanks and comments at the front.
fn skip_blanks(bytes: &[u8]) -> &[u8]
    ensures follows { FollowsBlanks bytes.now result.now }
    ensures stands { StandsAt result.now }
{
    let mut rest = bytes;
    while let [b, after @ ..] = rest {
        if *b == b';' {
            rest = &after[line_len(after)..];
        } else if is_blank(*b) {
            rest = after;
        } else {
            return rest;
        }
    }
    rest
}

// The number with one more digit, as far as it counts.
fn with_digit(value: u64, digit: u8) -> u64
    requires { 48 ≤ digit }
    ensures { result ≡ min (10 * value + (digit - 48)) (2 ^ 64 - 1) }
{
    value
        .saturating_mul(10)
        .saturating_add(u64::from(digit - b'0'))
}

// The digits at the front as a number, as far as it counts, and what follows them.
fn digits(bytes: &[u8]) -> (u64, &[u8])
    ensures value { result.0 ≡ min (digits_value 0 (digits_of bytes.now)) (2 ^ 64 - 1) }
    ensures rest { result.1.now ≡ drop (length (digits_of bytes.now)) bytes.now }
{
    let mut value = 0;
    let mut rest = bytes;
    while let [b, after @ ..] = rest {
        if !b.is_ascii_digit() {
            return (value, rest);
        }
        value = with_digit(value, *b);
        rest = after;
    }
    (value, rest)
}

// The token of a number.
fn number<'a>(negative: bool, value: u64) -> Token<'a>
    ensures { (n : ℕ) → value ≡ min n (2 ^ 64 - 1) → said result ≡ Some (number_of negative n) }
{
    if negative {
        if value <= 1 << 63 {
            Token::Number(0i64.wrapping_sub_unsigned(value))
        } else {
            Token::Wide
        }
    } else {
        match i64::try_from(value) {
            Ok(value) => Token::Number(value),
            Err(_) => Token::Wide,
        }
    }
}

// The token at the front of a text that begins with no blank and no comment, and what follows it.
fn first_token(bytes: &[u8]) -> (Token<'_>, &[u8])
    ensures token { said result.0 ≡ token_of bytes.now }
    ensures behind { result.1.now ≡ drop (size_of bytes.now) bytes.now }
{
    let [b, after @ ..] = bytes else {
        return (Token::End, bytes);
    };
    if b.is_ascii_digit() {
        let (value, behind) = digits(bytes);
        (number(false, value), behind)
    } else if *b == b'-' {
        dashed(after)
    } else if b.is_ascii_alphabetic() {
        let (word, behind) = bytes.split_at(letters_len(bytes));
        (Token::Word(word), behind)
    } else if is_mark(*b) {
        (Token::Mark(*b), after)
    } else {
        (Token::Other(*b), after)
    }
}

// The token that begins with `-`, by what stands behind that, and what follows it.
fn dashed(bytes: &[u8]) -> (Token<'_>, &[u8])
    ensures token { said result.0 ≡ Some (dashed bytes.now) }
    ensures behind { result.1.now ≡ drop (dashed_size bytes.now) bytes.now }
{
    match bytes {
        [b'>', behind @ ..] => (Token::Arrow, behind),
        [b, ..] if b.is_ascii_digit() => {
            let (value, behind) = digits(bytes);
            (number(true, value), behind)
        }
        _ => (Token::Other(b'-'), bytes),
    }
}
