//! Laws of the definitions, each the contract of a function that does nothing.
ghost use Rattle.std.specs.Prelude.{◌≡◌};
ghost use Rattle.outside.specs.Tokens.{tokens};
ghost use Rattle.outside.specs.Scanning.{nothing, scanned};

/// The tokens of a text are those that reading it byte by byte gives, so a text may come in pieces
/// that cut a token.
pub fn tokens_by_byte(bytes: &[u8])
    ensures { tokens bytes.now ≡ scanned nothing 0 bytes.now }
{
    let _ = bytes;
}
