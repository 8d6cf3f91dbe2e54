//! The text of a chain file, token by token.
ghost use Rattle.std.specs.Prelude.{◌≡◌, true, false, None, Some, IfOk, IfErr};
ghost use Rattle.outside.specs.Tokens.{Lexeme};
ghost use Rattle.outside.specs.Lexing.{said};
ghost use Rattle.chain_files.specs.ChainFile.{HasValue};
ghost use Rattle.chain_files.specs.Faults.{IsFaultOf};
ghost use Rattle.chain_files.specs.Readers.{Ends, fault_of};

use crate::fault::{ChainCause, ChainFault};
use crate::gathered::{Gathered, Refusal};
use crate::reader::Reader;
use field_mod::Field;
use outside::{Lexer, Token};
use std::alloc::Global;

/// What a chain file says.
pub(crate) fn gather<const P: u16>(
    alloc: Global,
    field: Field<P>,
    bytes: &[u8],
) -> Result<Gathered, ChainFault>
    ensures value { IfOk result (λ known. HasValue P bytes.now known.content) }
    ensures refusal { IfErr result (IsFaultOf P bytes.now) }
{
    let mut reader = Reader::new(alloc, field);
    let mut lexer = Lexer::new(bytes);
    'tokens: loop {
        let (place, token) = lexer.next();
        if is_end(token) {
            return ended(reader, bytes.len() as u64);
        }
        match reader.take(alloc, place, token) {
            Ok(()) => {}
            Err(refusal) => return Err(fault_of(refusal)),
        }
    }
}

// Whether the text is at its end.
fn is_end(token: Token<'_>) -> bool
    ensures end { result ≡ true → said token.entry ≡ None }
    ensures more { result ≡ false → (t : Lexeme) × (said token.entry ≡ Some t) }
{
    match token {
        Token::End => true,
        _ => false,
    }
}

// A refusal as a fault of the file.
fn fault_of(refusal: Refusal) -> ChainFault
    ensures { result ≡ fault_of refusal }
{
    match refusal {
        Refusal::At { place, cause } => ChainFault::At { place, cause },
        Refusal::NoMemory => ChainFault::NoMemory,
    }
}

// The text ends at this place.
fn ended<const P: u16>(reader: Reader<P>, place: u64) -> Result<Gathered, ChainFault>
    ensures { Ends reader.entry.known reader.entry.due place result }
{
    if reader.is_whole() {
        Ok(reader.known)
    } else {
        Err(ChainFault::At {
            place,
            cause: ChainCause::Unclosed,
        })
    }
}
