//! Cells: elementary cubes.
ghost use Rattle.std.specs.Prelude.{◌≡◌, ◌<◌, ◌≤◌, ◌^◌, ◌↔◌, ◌&&◌, ℤ, pos, negsuc, ◌+ℤ◌, List, length, slice_set, int_lt, true, ◌-◌, IsTrue, nat_lt, if◌then◌else◌};
ghost use Rattle.std.proofs.Common.{rules};
ghost use Rattle.std.specs.List.{list_all};
ghost use Rattle.std.specs.Cmp.Rules.{comparing};
ghost use Rattle.std.specs.Ordering.{as_partial_cmp};
ghost use Rattle.elem_cubes.specs.Cells.{point, interval, factor_of, low, high, moved, is_wide, is_factor, is_within, is_file_factor, is_cell, lower_of, upper_of, axes_of, cell_of, full_cell, checked, checked_of, dimension_of, same_cell};
ghost use Rattle.elem_cubes.specs.Faces.{IsFace, faces_of, cofaces_of, closure_of, is_part, is_face};
ghost use Rattle.elem_cubes.specs.Covers.{covers_of};
ghost use Rattle.elem_cubes.specs.Order.{cell_cmp};
ghost use Rattle.elem_cubes.specs.Walks.{factor_at};
ghost use Rattle.elem_cubes.specs.Packed.{OrdersUppers, cell_writes};

use crate::closure::Closure;
use crate::cofaces::Cofaces;
use crate::corner::Corner;
use crate::covers::Covers;
use crate::faces::Faces;
use crate::packed::words;
use crate::range::{HIGH, LOW, MAX_EMBEDDING};
use std::cmp::Ordering;
use std::hash::{Hash, Hasher};
use std::marker::Model;

/// An elementary cube, seen as the list of its factors: from one to `MAX_EMBEDDING` points and unit
/// intervals, whose ends lie from `LOW - 1` to `HIGH + 1`. It is kept as its lower corner and its
/// axes.
#[derive(Clone, Copy, Debug)]
pub struct Cell {
    ends: [i32; MAX_EMBEDDING],
    len: u8,
    axes: u8,
}

impl Model for Cell {
    ghost use Rattle.std.specs.Prelude.{List, length, take};
    ghost use Rattle.elem_cubes.specs.declared.range.TheConstants.{MAX_EMBEDDING};
    ghost use Rattle.elem_cubes.specs.Cells.{Factor, cell_of, lower_of, axes_of};
    ghost use Rattle.elem_cubes.specs.Packed.{padded, KeepsCell};

    ghost Value = { List Factor };

    ghost view = { λ c. cell_of (take c.len c.ends) c.axes };

    ghost invariant = { λ c. KeepsCell c.ends c.len c.axes };

    ghost inverse = { λ q. record {
      ends = padded MAX_EMBEDDING (lower_of q);
      len = length q;
      axes = axes_of q;
    } };

    ghost use Rattle.elem_cubes.specs.KeepingLemmas.{unpacked};

    ghost inverse_ok = { λ a h. λ i. record {
      ends = (unpacked a.ends a.len a.axes h).0 i;
      len = (unpacked a.ends a.len a.axes h).1 i;
      axes = (unpacked a.ends a.len a.axes h).2 i;
    } };
}

impl Cell {
    /// The cell with this lower corner that is an interval along the axes of these bits, the first
    /// axis in the lowest. `None` where a bit at or past the corner's length is set, or an interval
    /// begins at `HIGH + 1`.
    pub fn new(lower: Corner, axes: u8) -> Option<Cell>
        ensures { result ≡ checked_of lower axes }
    {
        if axes >> lower.len != 0 || !are_within(lower.coordinates(), axes, LOW - 1, HIGH + 1) {
            return None;
        }
        Some(Cell {
            ends: lower.ends,
            len: lower.len,
            axes,
        })
    }

    /// The full cube with this lower corner. `None` where a coordinate is `HIGH + 1`.
    pub fn full(lower: &Corner) -> Option<Cell>
        ensures { result ≡ checked (full_cell lower.now) }
    {
        Cell::new(*lower, all_axes(lower.len))
    }

    /// The lower corner.
    pub fn lower(&self) -> Corner
        ensures { result ≡ lower_of self.now }
    {
        Corner {
            ends: self.ends,
            len: self.len,
        }
    }

    /// The upper corner.
    pub fn upper(&self) -> Corner
        ensures { result ≡ upper_of self.now }
    {
        Corner {
            ends: upper_ends(&self.ends, self.axes),
            len: self.len,
        }
    }

    /// The axes along which the cell is an interval, the first axis in the lowest bit.
    pub fn axes(&self) -> u8
        ensures axes { result ≡ axes_of self.now }
        ensures parts { self.now ≡ cell_of (lower_of self.now) result }
        ensures few { result < 2 ^ length self.now }
    {
        self.axes
    }

    /// The dimension: the number of intervals.
    pub fn dim(&self) -> u32
        ensures dimension { result ≡ dimension_of self.now }
        ensures within { result ≤ length self.now }
        ensures few { result ≤ MAX_EMBEDDING }
    {
        self.axes.count_ones()
    }

    /// The embedding number: the number of factors.
    pub fn embedding(&self) -> u32
        ensures embedding { result ≡ length self.now }
        ensures some { 1 ≤ result }
        ensures few { result ≤ MAX_EMBEDDING }
        ensures cell { IsTrue (is_cell self.now) }
    {
        u32::from(self.len)
    }

    /// Whether all factors are intervals.
    pub fn is_full(&self) -> bool
        ensures { result ≡ list_all is_wide self.now }
    {
        self.axes == all_axes(self.len)
    }

    /// Whether every end lies from `LOW` to `HIGH`.
    pub fn in_range(&self) -> bool
        ensures { result ≡ list_all is_file_factor self.now }
    {
        are_within(self.low_ends(), self.axes, LOW, HIGH)
    }

    /// Whether the other cell is a face of this one.
    pub fn has_face(&self, other: &Cell) -> bool
        ensures { IsTrue result ↔ IsFace self.now other.now }
    {
        self.len == other.len && are_parts(self.low_ends(), self.axes, other.low_ends(), other.axes)
    }

    /// The faces of one dimension less, with their signs in the boundary: axes ascending, the upper
    /// end before the lower.
    pub fn faces(&self) -> Faces
        ensures { result ≡ faces_of self.now }
    {
        Faces::of(*self)
    }

    /// The cells of one dimension more that have this one as a face, with this cell's sign in their
    /// boundary: axes ascending, upward (at the own corner) before downward.
    pub fn cofaces(&self) -> Cofaces
        requires { IsTrue (list_all is_file_factor self.now) }
        ensures { result ≡ cofaces_of self.now }
    {
        Cofaces::of(*self)
    }

    /// The full cubes that have this cell as a face, each once.
    pub fn covers(&self) -> Covers
        requires { IsTrue (list_all is_file_factor self.now) }
        ensures { result ≡ covers_of self.now }
    {
        Covers::of(*self)
    }

    /// All faces, the cell itself among them, each once.
    pub fn closure(&self) -> Closure
        ensures { result ≡ closure_of self.now }
    {
        Closure::of(*self)
    }

    fn low_ends(&self) -> &[i32]
        ensures { result.now ≡ lower_of self.now }
    {
        &self.ends[..self.len as usize]
    }

    pub(crate) fn len(&self) -> usize
        ensures len { result ≡ length self.now }
        ensures few { result ≤ MAX_EMBEDDING }
    {
        self.len as usize
    }

    /// Whether the factor on the axis `i`, counted from 0, is an interval.
    pub fn is_wide(&self, i: usize) -> bool
        requires { i < length self.now }
        ensures { result ≡ is_wide (factor_at self.now i) }
    {
        self.axes >> i & 1 == 1
    }

    /// The cell with the lower end of the factor on the axis `i` in its place.
    pub fn lower_end(&self, i: usize) -> Cell
        requires { i < length self.now }
        ensures { result ≡ slice_set self.now i (point (low (factor_at self.now i))) }
    {
        self.with_point(i, self.low(i))
    }

    /// The cell with the upper end of the interval on the axis `i` in its place.
    pub fn upper_end(&self, i: usize) -> Cell
        requires axis { i < length self.now }
        requires wide { is_wide (factor_at self.now i) ≡ true }
        ensures { result ≡ slice_set self.now i (point (high (factor_at self.now i))) }
    {
        self.with_point(i, self.low(i) + 1)
    }

    /// The cell moved one step up along the axis `i`.
    pub fn moved_up(&self, i: usize) -> Cell
        requires axis { i < length self.now }
        requires range { IsTrue (list_all is_file_factor self.now) }
        ensures { result ≡ slice_set self.now i (moved (pos 1) (factor_at self.now i)) }
    {
        self.with_low(i, self.low(i) + 1)
    }

    /// The cell moved one step down along the axis `i`.
    pub fn moved_down(&self, i: usize) -> Cell
        requires axis { i < length self.now }
        requires range { IsTrue (list_all is_file_factor self.now) }
        ensures { result ≡ slice_set self.now i (moved (negsuc 0) (factor_at self.now i)) }
    {
        self.with_low(i, self.low(i) - 1)
    }

    /// The cell with the interval that begins at the point on the axis `i` in its place.
    pub(crate) fn upward(&self, i: usize) -> Cell
        requires axis { i < length self.now }
        requires range { IsTrue (list_all is_file_factor self.now) }
        ensures { result ≡ slice_set self.now i (interval (low (factor_at self.now i))) }
    {
        self.with_interval(i, self.low(i))
    }

    /// The cell with the interval that ends at the point on the axis `i` in its place.
    pub(crate) fn downward(&self, i: usize) -> Cell
        requires axis { i < length self.now }
        requires range { IsTrue (list_all is_file_factor self.now) }
        ensures { result ≡ slice_set self.now i
            (moved (negsuc 0) (interval (low (factor_at self.now i)))) }
    {
        self.with_interval(i, self.low(i) - 1)
    }

    /// The lower end of the factor on the axis `i`.
    pub(crate) fn low(&self, i: usize) -> i32
        requires { i < length self.now }
        ensures low { result ≡ low (factor_at self.now i) }
        ensures factor { IsTrue (is_factor (factor_at self.now i)) }
    {
        let _ = &self.ends;
        self.low_ends()[i]
    }

    /// The cell with its factor on the axis `i` moved to this lower end.
    fn with_low(&self, i: usize, end: i32) -> Cell
        requires axis { i < length self.now }
        requires fits { IsTrue (is_factor (factor_of (is_wide (factor_at self.now i)) end)) }
        ensures { result ≡ slice_set self.now i (factor_of (is_wide (factor_at self.now i)) end) }
    {
        if self.is_wide(i) {
            self.with_interval(i, end)
        } else {
            self.with_point(i, end)
        }
    }

    /// The cell with a point on the axis `i`.
    fn with_point(&self, i: usize, end: i32) -> Cell
        requires axis { i < length self.now }
        requires fits { IsTrue (is_factor (point end)) }
        ensures { result ≡ slice_set self.now i (point end) }
    {
        let mut ends = self.ends;
        ends[i] = end;
        Cell {
            ends,
            len: self.len,
            axes: self.axes & !(1 << i),
        }
    }

    /// The cell with an interval on the axis `i`.
    pub(crate) fn with_interval(&self, i: usize, end: i32) -> Cell
        requires axis { i < length self.now }
        requires fits { IsTrue (is_factor (interval end)) }
        ensures { result ≡ slice_set self.now i (interval end) }
    {
        let mut ends = self.ends;
        ends[i] = end;
        Cell {
            ends,
            len: self.len,
            axes: self.axes | 1 << i,
        }
    }
}

/// The bits of the first `len` axes.
fn all_axes(len: u8) -> u8
    requires { len ≤ MAX_EMBEDDING }
    ensures { result ≡ 2 ^ len - 1 }
{
    (1 << len) - 1
}

/// Whether these coordinates and axes give factors with both ends between two numbers.
fn are_within(ends: &[i32], axes: u8, least: i32, greatest: i32) -> bool
    ensures { result ≡ list_all (is_within least greatest) (cell_of ends.now axes) }
{
    let mut rest = axes;
    for end in ends {
        if !is_within(*end, rest % 2 == 1, least, greatest) {
            return false;
        }
        rest /= 2;
    }
    true
}

fn is_within(end: i32, wide: bool, least: i32, greatest: i32) -> bool
    ensures { result ≡ is_within least greatest (factor_of wide end) }
{
    least <= end && end <= greatest && (!wide || end < greatest)
}

/// The upper ends of the factors of these coordinates and axes.
fn upper_ends(ends: &[i32; MAX_EMBEDDING], axes: u8) -> [i32; MAX_EMBEDDING]
    requires { IsTrue (list_all (λ e. int_lt e i32.MAX) ends.now) }
    ensures { result ≡ upper_of (cell_of ends.now axes) }
{
    let mut uppers = *ends;
    let mut rest = axes;
    for i in 0..MAX_EMBEDDING {
        uppers[i] = ends[i] + i32::from(rest % 2);
        rest /= 2;
    }
    uppers
}

/// Whether the factors of the second coordinates and axes are parts of those of the first.
fn are_parts(ends: &[i32], axes: u8, other_ends: &[i32], other_axes: u8) -> bool
    requires { length ends.now ≡ length other_ends.now }
    ensures { result ≡ is_face (cell_of ends.now axes) (cell_of other_ends.now other_axes) }
{
    let mut rest = axes;
    let mut other_rest = other_axes;
    for i in 0..ends.len() {
        if !is_part(ends[i], rest % 2 == 1, other_ends[i], other_rest % 2 == 1) {
            return false;
        }
        rest /= 2;
        other_rest /= 2;
    }
    true
}

fn is_part(end: i32, wide: bool, other_end: i32, other_wide: bool) -> bool
    ensures { result ≡ is_part (factor_of wide end) (factor_of other_wide other_end) }
{
    if other_wide {
        wide && end == other_end
    } else {
        end == other_end || wide && i64::from(end) + 1 == i64::from(other_end)
    }
}

impl PartialEq for Cell {
    ghost use Rattle.elem_cubes.specs.OrderLemmas.{same_cell_partial};

    ghost eq = { same_cell };

    ghost laws = { same_cell_partial };

    fn eq(&self, other: &Cell) -> bool {
        words(&self.ends) == words(&other.ends) && self.axes == other.axes
    }
}

impl Eq for Cell {
    ghost use Rattle.elem_cubes.specs.OrderLemmas.{same_cell_equivalence};

    ghost laws = { same_cell_equivalence };
}

impl Ord for Cell {
    ghost use Rattle.elem_cubes.specs.OrderLemmas.{cell_cmp_total, cell_cmp_ties};

    ghost cmp = { cell_cmp };

    ghost total = { cell_cmp_total };

    ghost matches_partial_cmp = { Prim.search (comparing, rules) };

    ghost matches_eq = { cell_cmp_ties };

    fn cmp(&self, other: &Cell) -> Ordering {
        let lower = words(&self.ends).cmp(&words(&other.ends));
        let upper = compare_axes(self.axes, other.axes);
        lower.then(upper)
    }
}

impl PartialOrd for Cell {
    ghost use Rattle.elem_cubes.specs.OrderLemmas.{cell_cmp_partial};

    ghost partial_cmp = { as_partial_cmp cell_cmp };

    ghost laws = { cell_cmp_partial };

    fn partial_cmp(&self, other: &Cell) -> Option<Ordering> {
        Some(self.cmp(other))
    }
}

impl Hash for Cell {
    ghost use Rattle.elem_cubes.specs.OrderLemmas.{cell_hash_alike};

    ghost hash_input = { cell_writes };

    ghost respects_eq = { cell_hash_alike };

    fn hash<H: Hasher>(&self, state: &mut H) {
        i64::hash_slice(&words(&self.ends), state);
        state.write_u8(self.axes);
    }
}

/// The order of the upper corners of two cells with one lower corner: where their axes differ
/// first, the cell without the axis is less.
fn compare_axes(axes: u8, other: u8) -> Ordering
    ensures { OrdersUppers axes other result }
{
    let differing = axes ^ other;
    if differing == 0 {
        return Ordering::Equal;
    }
    if axes >> differing.trailing_zeros() & 1 == 1 {
        Ordering::Greater
    } else {
        Ordering::Less
    }
}
