//! Known texts at the front of others.
ghost use Rattle.std.specs.Prelude.{◌≡◌, ◌++◌, MatchOption, codes};
ghost use Rattle.witness_laws.specs.Lines.{numeral, numbers_text};
ghost use Rattle.witness_scanning.specs.Fronts.{BeginsOtherwise, numbers_front};

use itoa::Buffer;

/// What stands behind a text, where the bytes begin with it.
pub fn after<'a>(bytes: &'a [u8], front: &[u8]) -> Option<&'a [u8]>
    ensures { MatchOption result (BeginsOtherwise bytes.now front.now)
        (λ rest. bytes.now ≡ front.now ++ rest.now) }
{
    bytes.strip_prefix(front)
}

// What stands behind the numeral of a number.
fn after_numeral(bytes: &[u8], number: u32) -> Option<&[u8]>
    ensures { MatchOption result (BeginsOtherwise bytes.now (numeral number))
        (λ rest. bytes.now ≡ numeral number ++ rest.now) }
{
    let mut buffer = Buffer::new();
    after(bytes, buffer.format(number).as_bytes())
}

// What stands behind a number and the space in front of it.
fn after_number(bytes: &[u8], number: u32) -> Option<&[u8]>
    ensures { MatchOption result (BeginsOtherwise bytes.now (codes " " ++ numeral number))
        (λ rest. bytes.now ≡ (codes " " ++ numeral number) ++ rest.now) }
{
    let behind = after(bytes, b" ")?;
    after_numeral(behind, number)
}

/// What stands behind numbers, each with a space in front of it.
pub(crate) fn after_numbers<'a>(bytes: &'a [u8], numbers: &[u32]) -> Option<&'a [u8]>
    ensures { MatchOption result (BeginsOtherwise bytes.now (numbers_text numbers.now))
        (λ rest. bytes.now ≡ numbers_text numbers.now ++ rest.now) }
{
    let mut rest = bytes;
    for number in numbers {
        let Some(behind) = after_number(rest, *number) else {
            return None;
        };
        rest = behind;
    }
    Some(rest)
}

/// What stands behind a word and numbers.
pub(crate) fn after_word<'a>(bytes: &'a [u8], word: &[u8], numbers: &[u32]) -> Option<&'a [u8]>
    ensures { MatchOption result (BeginsOtherwise bytes.now (word.now ++ numbers_text numbers.now))
        (λ rest. bytes.now ≡ (word.now ++ numbers_text numbers.now) ++ rest.now) }
{
    let behind = after(bytes, word)?;
    after_numbers(behind, numbers)
}

/// What stands behind a word, numbers and a mark.
pub(crate) fn after_front<'a>(
    bytes: &'a [u8],
    word: &[u8],
    numbers: &[u32],
    mark: &[u8],
) -> Option<&'a [u8]>
    ensures { MatchOption result
        (BeginsOtherwise bytes.now (numbers_front word.now numbers.now mark.now))
        (λ rest. bytes.now ≡ numbers_front word.now numbers.now mark.now ++ rest.now) }
{
    let behind = after_word(bytes, word, numbers)?;
    after(behind, mark)
}
