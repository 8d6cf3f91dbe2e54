//! Corners as texts: their coordinates in brackets, separated by one space.
#![tactic(auto)]

ghost use Rattle.std.specs.Prelude.{◌≡◌, ◌++◌, ◌∷◌, OnOk, drop};
ghost use Rattle.outside.specs.Decimal.{decimal};
ghost use Rattle.corner_texts.specs.CornerText.{spaced, corner_text};

use elem_cubes::Corner;
use outside::put_number;
use std::alloc::AllocError;

/// Adds the text of a corner.
pub fn put_corner(to: &mut Vec<u8>, corner: &Corner) -> Result<(), AllocError>
    ensures { OnOk result (to.new.items ≡ to.old.items ++ corner_text corner.now) }
{
    to.extend_from_slice(b"(")?;
    put_numbers(to, corner.coordinates())?;
    to.extend_from_slice(b")")
}

// Adds numbers separated by one space.
fn put_numbers(to: &mut Vec<u8>, numbers: &[i32]) -> Result<(), AllocError>
    ensures { OnOk result (to.new.items ≡ to.old.items ++ drop 1 (spaced numbers.now)) }
{
    let [first, rest @ ..] = numbers else {
        return Ok(());
    };
    put_number(to, i64::from(*first))?;
    put_spaced(to, rest)
}

// Adds numbers, each behind a space.
fn put_spaced(to: &mut Vec<u8>, numbers: &[i32]) -> Result<(), AllocError>
    ensures { OnOk result (to.new.items ≡ to.old.items ++ spaced numbers.now) }
{
    for number in numbers {
        put_next(to, *number)?;
    }
    Ok(())
}

// Adds a number behind a space.
fn put_next(to: &mut Vec<u8>, number: i32) -> Result<(), AllocError>
    ensures { OnOk result (to.new.items ≡ to.old.items ++ 32 ∷ decimal number) }
{
    to.extend_from_slice(b" ")?;
    put_number(to, i64::from(number))
}
