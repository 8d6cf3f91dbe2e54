//! Texts at the front of others.
ghost use Rattle.std.specs.Prelude.{◌≡◌, ◌++◌, MatchOption, codes};
ghost use Rattle.std.specs.List.{list_any};
ghost use Rattle.witness_laws.specs.Lines.{numeral};
ghost use Rattle.witness_texts.specs.Fronts.{BeginsOtherwise, NamesNone, IsNamed};
ghost use Rattle.witness_types.specs.Headers.{modulus_line};

use itoa::Buffer;

/// What stands behind a text, where the bytes begin with it.
pub(crate) fn after<'a>(bytes: &'a [u8], front: &[u8]) -> Option<&'a [u8]>
    ensures { MatchOption result (BeginsOtherwise bytes.now front.now)
        (λ rest. bytes.now ≡ front.now ++ rest.now) }
{
    bytes.strip_prefix(front)
}

// What stands behind a number at the end of its line.
fn after_number(bytes: &[u8], number: u16) -> Option<&[u8]>
    ensures { MatchOption result (BeginsOtherwise bytes.now (numeral number ++ codes "\n"))
        (λ rest. bytes.now ≡ (numeral number ++ codes "\n") ++ rest.now) }
{
    let mut buffer = Buffer::new();
    match after(bytes, buffer.format(number).as_bytes()) {
        Some(behind) => after(behind, b"\n"),
        None => None,
    }
}

// What stands behind the line of a modulus.
fn after_modulus(bytes: &[u8], modulus: u16) -> Option<&[u8]>
    ensures { MatchOption result (BeginsOtherwise bytes.now (modulus_line modulus))
        (λ rest. bytes.now ≡ modulus_line modulus ++ rest.now) }
{
    match after(bytes, b"mod ") {
        Some(behind) => after_number(behind, modulus),
        None => None,
    }
}

/// The first of these moduli whose line stands in front, and what stands behind that line.
pub(crate) fn after_one_of<'a>(bytes: &'a [u8], moduli: &[u16]) -> Option<(u16, &'a [u8])>
    ensures { MatchOption result (NamesNone bytes.now moduli.now)
        (λ named. IsNamed bytes.now moduli.now named.0 named.1.now) }
{
    for modulus in moduli {
        if let Some(rest) = after_modulus(bytes, *modulus) {
            return Some((*modulus, rest));
        }
    }
    None
}
