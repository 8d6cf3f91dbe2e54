//! Corners: points of the lattice.
ghost use Rattle.std.specs.Prelude.{◌≡◌, ◌<◌, ◌≤◌, List, ℤ, length, slice_get, IsTrue, if◌then◌else◌};
ghost use Rattle.std.proofs.Common.{rules, refl};
ghost use Rattle.std.specs.Hash as fed;
ghost use Rattle.std.specs.Cmp.Rules.{comparing, hashing};
ghost use Rattle.std.specs.Cmp.Lexicographic.{pointwise, lists_ties, lists_total};
ghost use Rattle.std.specs.Cmp.{po, int_cmp_total};
ghost use Rattle.std.specs.Ordering.{int_cmp, int_eq, as_partial_cmp};
ghost use Rattle.elem_cubes.specs.Corners.{is_corner, corner_cmp};

use crate::packed::{is_corner, padded, words};
use crate::range::MAX_EMBEDDING;
use std::cmp::Ordering;
use std::hash::{Hash, Hasher};
use std::marker::Model;

/// A point of the lattice, seen as the list of its coordinates: from one to `MAX_EMBEDDING`
/// numbers, each from `LOW - 1` to `HIGH + 1`.
#[derive(Clone, Copy, Debug)]
pub struct Corner {
    pub(crate) ends: [i32; MAX_EMBEDDING],
    pub(crate) len: u8,
}

impl Model for Corner {
    ghost use Rattle.std.specs.Prelude.{List, ℤ, length, take};
    ghost use Rattle.elem_cubes.specs.declared.range.TheConstants.{MAX_EMBEDDING};
    ghost use Rattle.elem_cubes.specs.Packed.{padded, KeepsCorner};

    ghost Value = { List ℤ };

    ghost view = { λ c. take c.len c.ends };

    ghost invariant = { λ c. KeepsCorner c.ends c.len };

    ghost inverse = { λ xs. record { ends = padded MAX_EMBEDDING xs; len = length xs } };

    ghost use Rattle.std.proofs.Common.{sym};

    ghost inverse_ok = { λ a h. λ i. record { ends = sym h.rest i; len = h.long i } };
}

impl Corner {
    /// The corner with these coordinates. `None` where there are none or more than `MAX_EMBEDDING`,
    /// or one is out of the range of corners.
    pub fn of(xs: &[i32]) -> Option<Corner>
        ensures { result ≡ (if is_corner xs.now then Some xs.now else None) }
    {
        if !is_corner(xs) {
            return None;
        }
        Some(Corner {
            ends: padded(xs),
            len: xs.len() as u8,
        })
    }

    /// The number of coordinates.
    pub fn len(&self) -> usize
        ensures len { result ≡ length self.now }
        ensures some { 1 ≤ result }
        ensures few { result ≤ MAX_EMBEDDING }
        ensures corner { IsTrue (is_corner self.now) }
    {
        self.len as usize
    }

    /// The coordinate on the axis `i`, counted from 0.
    pub fn at(&self, i: usize) -> i32
        requires { i < length self.now }
        ensures { slice_get self.now i ≡ Some result }
    {
        self.coordinates()[i]
    }

    /// The coordinates.
    pub fn coordinates(&self) -> &[i32]
        ensures coordinates { result.now ≡ self.now }
        ensures corner { IsTrue (is_corner self.now) }
    {
        &self.ends[..self.len as usize]
    }
}

impl PartialEq for Corner {
    ghost eq = { pointwise int_eq };

    ghost laws = { Prim.search (comparing, rules) };

    fn eq(&self, other: &Corner) -> bool {
        self.coordinates() == other.coordinates()
    }
}

impl Eq for Corner {
    ghost laws = { Prim.search (comparing, rules) };
}

impl Ord for Corner {
    ghost cmp = { corner_cmp };

    ghost total = { Prim.search (comparing, rules) };

    ghost matches_partial_cmp = { Prim.search (comparing, rules) };

    ghost matches_eq = { lists_ties int_cmp (λ x y. refl) };

    fn cmp(&self, other: &Corner) -> Ordering {
        words(&self.ends).cmp(&words(&other.ends))
    }
}

impl PartialOrd for Corner {
    ghost partial_cmp = { as_partial_cmp corner_cmp };

    ghost laws = { po (lists_total int_cmp_total) (lists_ties int_cmp (λ x y. refl)) };

    fn partial_cmp(&self, other: &Corner) -> Option<Ordering> {
        Some(self.cmp(other))
    }
}

impl Hash for Corner {
    ghost hash_input = { λ xs. fed.slice fed.i32 xs };

    ghost respects_eq = { Prim.search (hashing, rules) };

    fn hash<H: Hasher>(&self, state: &mut H) {
        self.coordinates().hash(state);
    }
}
