//! Numbers at the front of a text.
ghost use Rattle.std.specs.Prelude.{◌≡◌, ℕ, ◌+◌, ◌≤◌, ◌<◌, ◌↔◌, length, take_while, IsTrue, MatchOption};
ghost use Rattle.std.specs.Char.{is_ascii_digit};
ghost use Rattle.witness_laws.specs.Lines.{numeral};
ghost use Rattle.witness_scanning.specs.Numbers.{is_numeral, AreDigits, HasNumber, HasNoNumber, HasMarked, HasNoMarked, value_of, clipped, IsLast};

use std::cmp::Ordering;

// How many digits stand at the front.
fn digits_len(bytes: &[u8]) -> usize
    ensures count { result ≡ length (take_while is_ascii_digit bytes.now) }
    ensures within { result ≤ length bytes.now }
{
    bytes.iter().take_while(|b| b.is_ascii_digit()).count()
}

// Whether digits are a number without leading zeros.
fn is_numeral(digits: &[u8]) -> bool
    ensures { result ≡ is_numeral digits.now }
{
    match digits {
        [] => false,
        [_] => true,
        [first, ..] => *first != b'0',
    }
}

// The digits of the number at the front, and what stands behind it; none where no number stands
// there, or one with leading zeros.
fn number(bytes: &[u8]) -> Option<(&[u8], &[u8])>
    ensures { MatchOption result (HasNoNumber bytes.now)
        (λ read. HasNumber bytes.now read.0.now read.1.now) }
{
    let (digits, rest) = bytes.split_at(digits_len(bytes));
    if is_numeral(digits) {
        Some((digits, rest))
    } else {
        None
    }
}

/// The digits of the number behind a mark at the front, and what stands behind it.
pub(crate) fn marked_number(bytes: &[u8], mark: u8) -> Option<(&[u8], &[u8])>
    ensures { MatchOption result (HasNoMarked mark bytes.now)
        (λ read. HasMarked mark bytes.now read.0.now read.1.now) }
{
    let [first, behind @ ..] = bytes else {
        return None;
    };
    if *first != mark {
        return None;
    }
    number(behind)
}

/// The number that digits write, as far as it counts.
#[tactic(auto, using(crate::proofs::Digits::value_more, crate::proofs::Digits::clipped_more))]
pub(crate) fn value(digits: &[u8]) -> u32
    ensures { result ≡ clipped (value_of digits.now) }
{
    let mut value: u32 = 0;
    for digit in digits {
        value = value
            .saturating_mul(10)
            .saturating_add(u32::from(digit.saturating_sub(b'0')));
    }
    value
}

// Whether the number of the first digits is the lower one; there are as many of both.
fn is_less(a: &[u8], b: &[u8]) -> bool
    requires { length a.now ≡ length b.now }
    ensures { AreDigits a.now → AreDigits b.now
        → (IsTrue result ↔ (value_of a.now < value_of b.now)) }
{
    let mut order = Ordering::Equal;
    for i in 0..a.len() {
        order = order.then(a[i].cmp(&b[i]));
    }
    order.is_lt()
}

/// Whether the number of the digits is above the last one, where there was one.
pub(crate) fn is_above(last: &[u8], digits: &[u8]) -> bool
    ensures { (low n : ℕ) → IsLast last.now low → digits.now ≡ numeral n
        → (IsTrue result ↔ (low ≤ n)) }
{
    if last.len() == digits.len() {
        is_less(last, digits)
    } else {
        last.len() < digits.len()
    }
}
