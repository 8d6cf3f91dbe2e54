//! Coordinates as they are kept: padded to one length, and read two at a time.
ghost use Rattle.std.specs.Prelude.{◌≡◌, ◌≤◌, length};
ghost use Rattle.std.specs.List.{list_all};
ghost use Rattle.elem_cubes.specs.Corners.{is_end, is_corner};
ghost use Rattle.elem_cubes.specs.Packed.{padded, word, words_of};

use crate::range::{HIGH, LOW, MAX_EMBEDDING};

/// What stands behind the coordinates: less than each of them, so that the order is that of the
/// lists.
pub(crate) const PADDING: i32 = i32::MIN;

/// How many words the coordinates fill, two to a word.
pub(crate) const WORDS: usize = MAX_EMBEDDING / 2;

fn is_end(x: i32) -> bool
    ensures { result ≡ is_end x }
{
    LOW - 1 <= x && x <= HIGH + 1
}

pub(crate) fn is_corner(xs: &[i32]) -> bool
    ensures { result ≡ is_corner xs.now }
{
    1 <= xs.len() && xs.len() <= MAX_EMBEDDING && are_ends(xs)
}

fn are_ends(xs: &[i32]) -> bool
    ensures { result ≡ list_all is_end xs.now }
{
    xs.iter().all(|x| is_end(*x))
}

pub(crate) fn padded(xs: &[i32]) -> [i32; MAX_EMBEDDING]
    requires { length xs.now ≤ MAX_EMBEDDING }
    ensures { result ≡ padded MAX_EMBEDDING xs.now }
{
    let mut ends = [PADDING; MAX_EMBEDDING];
    for i in 0..xs.len() {
        ends[i] = xs[i];
    }
    ends
}

fn word(first: i32, second: i32) -> i64
    ensures { result ≡ word first second }
{
    i64::from(first) * 4_294_967_296 + (i64::from(second) + 2_147_483_648)
}

pub(crate) fn words(ends: &[i32; MAX_EMBEDDING]) -> [i64; WORDS]
    ensures { result ≡ words_of ends.now }
{
    let mut words = [0; WORDS];
    for i in 0..WORDS {
        words[i] = word(ends[2 * i], ends[2 * i + 1]);
    }
    words
}
