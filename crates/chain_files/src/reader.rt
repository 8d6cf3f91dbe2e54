//! The reader of chain files: a machine of fixed size over tokens, beside what the file has said so
//! far.
ghost use Rattle.std.specs.Prelude.{◌≡◌, ℕ, Some, Result, Err, IfErr, if◌then◌else◌};
ghost use Rattle.outside.specs.Tokens.{Lexeme, number, word, mark, wide};
ghost use Rattle.outside.specs.Lexing.{said};
ghost use Rattle.chain_files.specs.Known.{Known, nothing_known, residue};
ghost use Rattle.chain_files.specs.Steps.{goes, stops, for_word, for_mark, judged, between, times, step, is_whole};
ghost use Rattle.chain_files.specs.Readers.{Makes, Turns, Takes, WantsNoMemory, MayCome};
ghost use Rattle.chain_files.specs.declared.due.Due.TheVariants.{Chain};
ghost use Rattle.chain_files.specs.declared.fault.ChainCause.{ChainCause};
ghost use Rattle.chain_files.specs.declared.fault.ChainCause.TheVariants.{BadByte, BadNumber};

use crate::due::Due;
use crate::fault::{ChainCause, TERMS};
use crate::gathered::{Gathered, Refusal};
use crate::words::{CHAIN, COMPLEX, DIMENSION, MAX};
use field_mod::Field;
use outside::Token;
use std::alloc::Global;

/// Where the reading of a chain file stands.
#[derive(Drop)]
pub(crate) struct Reader<const P: u16> {
    pub(crate) field: Field<P>,
    pub(crate) due: Due,
    pub(crate) known: Gathered,
}

// The text is refused at a place.
fn refused(place: u64, cause: ChainCause) -> Result<Due, Refusal>
    ensures { result ≡ Err (Refusal.At place cause) }
{
    Err(Refusal::At { place, cause })
}

// One word is wanted.
fn expect_word(wanted: &[u8], found: Due, place: u64, letters: &[u8]) -> Result<Due, Refusal>
    ensures turns { (s : Known) → Turns (for_word wanted.now (goes s found) place
        (word letters.now)) s result }
    ensures memory { IfErr result WantsNoMemory }
{
    if wanted == letters {
        Ok(found)
    } else {
        refused(place, ChainCause::BadByte)
    }
}

// One mark is wanted.
fn expect_mark(wanted: u8, found: Due, place: u64, b: u8) -> Result<Due, Refusal>
    ensures turns { (s : Known) → Turns (for_mark wanted (goes s found) place (mark b)) s result }
    ensures memory { IfErr result WantsNoMemory }
{
    if b == wanted {
        Ok(found)
    } else {
        refused(place, ChainCause::BadByte)
    }
}

// What a number makes is kept, and then this is due.
fn then(made: Result<(), Refusal>, due: Due) -> Result<Due, Refusal>
    ensures { (number : Result Known ChainCause) (place : ℕ) (s : Known) → Makes number place s made
        → Turns (judged place due number) s result }
{
    match made {
        Ok(()) => Ok(due),
        Err(refusal) => Err(refusal),
    }
}

// The word of the next degree, between two boundaries.
fn next_degree(known: &Gathered, place: u64, letters: &[u8]) -> Result<Due, Refusal>
    ensures turns { Turns (between known.now place (word letters.now)) known.now result }
    ensures memory { IfErr result WantsNoMemory }
{
    let degree = known.next();
    if DIMENSION.as_slice() == letters && degree <= u32::from(known.top()) {
        Ok(Due::Degree {
            degree: degree as u8,
        })
    } else {
        refused(place, ChainCause::BadByte)
    }
}

// The mark of a boundary, between two of them.
fn next_boundary(known: &Gathered, place: u64, b: u8) -> Result<Due, Refusal>
    ensures turns { Turns (between known.now place (mark b)) known.now result }
    ensures memory { IfErr result WantsNoMemory }
{
    if b == b'#' && known.next() > 0 {
        Ok(Due::Generator)
    } else {
        refused(place, ChainCause::BadByte)
    }
}

// The `*` behind the coefficient at a place.
fn times(known: &mut Gathered, place: u64, number: u16) -> Result<Due, Refusal>
    ensures turns { Turns (times known.old place number) known.new result }
    ensures memory { IfErr result WantsNoMemory }
{
    if known.terms() >= TERMS {
        return refused(place, ChainCause::TooManyTerms);
    }
    known.count_term();
    Ok(Due::Target { number })
}

// Whether a number is due.
fn wants_number(due: Due) -> bool
    ensures { (p : ℕ) (s : Known) (place : ℕ) → step p s due place wide
        ≡ stops place (if result then BadNumber else BadByte) }
{
    matches!(
        due,
        Due::Top
            | Due::Degree { .. }
            | Due::Count { .. }
            | Due::Generator
            | Due::First
            | Due::Target { .. }
            | Due::Coefficient
    )
}

impl<const P: u16> Reader<P> {
    /// Nothing is read.
    pub(crate) fn new(alloc: Global, field: Field<P>) -> Reader<P>
        ensures due { result.due ≡ Chain }
        ensures known { result.known ≡ nothing_known }
    {
        Reader {
            field,
            due: Due::Chain,
            known: Gathered::new(alloc),
        }
    }

    // A number at a place. Numbers alone want memory.
    fn number(&mut self, alloc: Global, place: u64, z: i64) -> Result<Due, Refusal>
        ensures { Turns (step P self.old.known self.old.due place (number z)) self.new.known
            result }
    {
        match self.due {
            Due::Top => then(self.known.set_top(place, z), Due::Between),
            Due::Degree { degree } if z == i64::from(degree) => Ok(Due::Colon { degree }),
            Due::Degree { .. } => refused(place, ChainCause::BadNumber),
            Due::Count { degree } => {
                let made = self.known.add_degree(alloc, degree, place, z);
                then(made, Due::Between)
            }
            Due::Generator => then(self.known.begin_boundary(alloc, place, z), Due::Equals),
            Due::First if z == 0 => Ok(Due::Zero { at: place }),
            Due::First | Due::Coefficient => Ok(Due::Times {
                at: place,
                number: self.field.of_i64(z),
            }),
            Due::Target { number } => then(self.known.add_term(number, place, z), Due::Further),
            _ => refused(place, ChainCause::BadByte),
        }
    }

    // A word at a place.
    fn word(&self, place: u64, letters: &[u8]) -> Result<Due, Refusal>
        ensures turns { Turns (step P self.now.known self.now.due place (word letters.now))
            self.now.known result }
        ensures memory { IfErr result WantsNoMemory }
    {
        match self.due {
            Due::Chain => expect_word(&CHAIN, Due::Complex, place, letters),
            Due::Complex => expect_word(&COMPLEX, Due::Max, place, letters),
            Due::Max => expect_word(&MAX, Due::Dimension, place, letters),
            Due::Dimension => expect_word(&DIMENSION, Due::Top, place, letters),
            Due::Between | Due::Zero { .. } | Due::Further => {
                next_degree(&self.known, place, letters)
            }
            _ => refused(place, ChainCause::BadByte),
        }
    }

    // A mark at a place.
    fn mark(&mut self, place: u64, b: u8) -> Result<Due, Refusal>
        ensures turns { Turns (step P self.old.known self.old.due place (mark b)) self.new.known
            result }
        ensures memory { IfErr result WantsNoMemory }
    {
        match self.due {
            Due::Colon { degree } => expect_mark(b':', Due::Count { degree }, place, b),
            Due::Equals => expect_mark(b'=', Due::First, place, b),
            Due::Zero { at } if b == b'*' => times(&mut self.known, at, 0),
            Due::Times { at, number } if b == b'*' => times(&mut self.known, at, number),
            Due::Further if b == b'+' => Ok(Due::Coefficient),
            Due::Between | Due::Zero { .. } | Due::Further => next_boundary(&self.known, place, b),
            _ => refused(place, ChainCause::BadByte),
        }
    }

    // The token at a place, and what is due behind it.
    fn turn(&mut self, alloc: Global, place: u64, token: Token<'_>) -> Result<Due, Refusal>
        ensures turns { (t : Lexeme) → said token.entry ≡ Some t
            → Turns (step P self.old.known self.old.due place t) self.new.known result }
        ensures memory { IfErr result (MayCome token.entry) }
    {
        match token {
            Token::Number(z) => self.number(alloc, place, z),
            Token::Word(letters) => self.word(place, letters),
            Token::Mark(b) => self.mark(place, b),
            Token::Wide if wants_number(self.due) => refused(place, ChainCause::BadNumber),
            Token::Wide | Token::Arrow | Token::Other(_) | Token::End => {
                refused(place, ChainCause::BadByte)
            }
        }
    }

    /// The token at a place.
    pub(crate) fn take(
        &mut self,
        alloc: Global,
        place: u64,
        token: Token<'_>,
    ) -> Result<(), Refusal>
        ensures takes { (t : Lexeme) → said token.entry ≡ Some t
            → Takes (step P self.old.known self.old.due place t)
            self.new.known self.new.due result }
        ensures memory { IfErr result (MayCome token.entry) }
    {
        match self.turn(alloc, place, token) {
            Ok(due) => {
                self.due = due;
                Ok(())
            }
            Err(refusal) => Err(refusal),
        }
    }

    /// Whether the text may end.
    pub(crate) fn is_whole(&self) -> bool
        ensures { result ≡ is_whole self.now.known self.now.due }
    {
        match self.due {
            Due::Between | Due::Zero { .. } | Due::Further => {
                self.known.next() == u32::from(self.known.top()) + 1
            }
            _ => false,
        }
    }
}
