//! Free pairs at a corner, by the words round it.
ghost use Rattle.std.specs.Prelude.{◌≡◌, ◌<◌, ◌≤◌, ◌+◌, ◌^◌, ◌⊎◌, ◌↔◌, ℕ, IsTrue, IfSome, IfNone, Some};
ghost use Rattle.packed_words.specs.Words.{nibble};
ghost use Rattle.word_sweeps.specs.FreeSlots.{IsPointAlong, HasCoface, IsSoleAxis, IsBlocked, IsFreeSlot, IsTold};

use elem_cubes::MAX_EMBEDDING;

/// The pair of the cell of a slot and of that with one axis more, counted from 0.
#[derive(Clone, Copy)]
pub(crate) struct SlotPair {
    pub(crate) slot: u8,
    pub(crate) axis: u8,
}

// Four bits of a word.
fn four_bits(word: u64, slot: u8) -> u8
    requires { slot < 16 }
    ensures { result ≡ nibble slot word }
{
    ((word >> (4 * slot)) % 16) as u8
}

// Whether the cell of a slot is a point along an axis.
fn is_point(slot: u8, axis: u8) -> bool
    requires { axis < 4 }
    ensures { IsTrue result ↔ IsPointAlong slot axis }
{
    (slot >> axis) % 2 == 0
}

/// The slot with an axis more.
pub(crate) fn with_axis(slot: u8, axis: u8) -> u8
    requires slot { slot < 16 }
    requires axis { axis < 4 }
    requires point { IsPointAlong slot axis }
    ensures sum { result ≡ slot + 2 ^ axis }
    ensures few { result < 16 }
{
    slot + (1 << axis)
}

// Whether the cell of a slot has a coface along an axis that is alive in a word.
fn has_coface(word: u64, slot: u8, axis: u8) -> bool
    requires slot { slot < 16 }
    requires axis { axis < 4 }
    ensures { IsTrue result ↔ HasCoface word slot axis }
{
    is_point(slot, axis) && four_bits(word, with_axis(slot, axis)) == 1
}

// Whether a coface one step down is alive.
fn is_blocked(below: &[u64; MAX_EMBEDDING], axes: u8, slot: u8) -> bool
    requires slot { slot < 16 }
    requires axes { axes ≤ 4 }
    ensures { IsTrue result ↔ IsBlocked below.now axes slot }
{
    'axes: for axis in 0..axes {
        if has_coface(below[axis as usize], slot, axis) {
            return true;
        }
    }
    false
}

// The axis of the one coface at the own corner that is alive.
fn sole_axis(own: u64, axes: u8, slot: u8) -> Option<u8>
    requires slot { slot < 16 }
    requires axes { axes ≤ 4 }
    ensures some { IfSome result (λ axis. IsSoleAxis own axes slot axis) }
    ensures none { IfNone result ((axis : ℕ) → ¬ IsSoleAxis own axes slot axis) }
{
    let mut found = None;
    'axes: for axis in 0..axes {
        if !has_coface(own, slot, axis) {
            continue;
        }
        if found.is_some() {
            return None;
        }
        found = Some(axis);
    }
    found
}

// The axis along which the cell of a slot is free.
fn free_axis(own: u64, below: &[u64; MAX_EMBEDDING], axes: u8, slot: u8) -> Option<u8>
    requires slot { slot < 16 }
    requires axes { axes ≤ 4 }
    ensures some { IfSome result (λ axis. IsFreeSlot own below.now axes slot axis) }
    ensures none { IfNone result ((axis : ℕ) → ¬ IsFreeSlot own below.now axes slot axis) }
{
    if four_bits(own, slot) != 1 {
        return None;
    }
    let Some(axis) = sole_axis(own, axes, slot) else {
        return None;
    };
    if is_blocked(below, axes, slot) {
        return None;
    }
    Some(axis)
}

// How many slots there are with so many axes.
fn slots(axes: u8) -> u8
    requires { axes ≤ 4 }
    ensures count { result ≡ 2 ^ axes }
    ensures few { result ≤ 16 }
{
    1 << axes
}

// Whether a strand goes on here: the cell is an interval along an axis, and so is the cell of the
// same slot one step down, which is alive. No clause speaks of it: it only says which of the free
// pairs is taken.
fn goes_on(below: &[u64; MAX_EMBEDDING], axes: u8, slot: u8) -> bool
    requires slot { slot < 16 }
    requires axes { axes ≤ 4 }
{
    if axes > 3 {
        return false;
    }
    'axes: for axis in 0..axes {
        if !is_point(slot, axis) && four_bits(below[axis as usize], slot) == 1 {
            return true;
        }
    }
    false
}

// The first axis in the highest of four bits.
fn turned(slot: u8) -> u8
    requires { slot < 16 }
{
    slot % 2 * 8 + slot / 2 % 2 * 4 + slot / 4 % 2 * 2 + slot / 8
}

// Whether the first of two free slots is taken before the second: one with which a strand goes on,
// and else the one that is an interval along later axes alone.
fn goes_before(below: &[u64; MAX_EMBEDDING], axes: u8, slot: u8, other: u8) -> bool
    requires slot { slot < 16 }
    requires other { other < 16 }
    requires axes { axes ≤ 4 }
{
    let goes_on_first = goes_on(below, axes, slot);
    if goes_on_first != goes_on(below, axes, other) {
        return goes_on_first;
    }
    turned(slot) < turned(other)
}

// Which of two free slots is taken: the one found before, if there is one, or this one.
fn better_of(
    found: &Option<SlotPair>,
    pair: SlotPair,
    below: &[u64; MAX_EMBEDDING],
    axes: u8,
) -> SlotPair
    requires slot { pair.slot < 16 }
    requires axes { axes ≤ 4 }
    requires found { IfSome found.now (λ t. t.slot < 16) }
    ensures { (result ≡ pair) ⊎ (found.now ≡ Some result) }
{
    match found {
        None => pair,
        Some(other) => {
            if goes_before(below, axes, pair.slot, other.slot) {
                pair
            } else {
                *other
            }
        }
    }
}

/// A free slot, if there is one.
pub(crate) fn free_slot(own: u64, below: &[u64; MAX_EMBEDDING], axes: u8) -> Option<SlotPair>
    requires { axes ≤ 4 }
    ensures some { IfSome result (λ t. IsFreeSlot own below.now axes t.slot t.axis) }
    ensures slot { IfSome result (λ t. t.slot < 2 ^ axes) }
    ensures none { IfNone result ((slot axis : ℕ) → slot < 2 ^ axes
        → ¬ IsFreeSlot own below.now axes slot axis) }
{
    let mut found: Option<SlotPair> = None;
    let count = slots(axes);
    'slots: for slot in 0..count {
        let Some(axis) = free_axis(own, below, axes, slot) else {
            continue;
        };
        found = Some(better_of(&found, SlotPair { slot, axis }, below, axes));
    }
    found
}

/// A free slot that the last word records as taken, if there is one.
pub(crate) fn taken_slot(
    own: u64,
    last: u64,
    below: &[u64; MAX_EMBEDDING],
    axes: u8,
) -> Option<SlotPair>
    requires { axes ≤ 4 }
    ensures some { IfSome result (λ t. IsFreeSlot own below.now axes t.slot t.axis) }
    ensures told { IfSome result (λ t. IsTold last t.slot t.axis) }
    ensures slot { IfSome result (λ t. t.slot < 2 ^ axes) }
    ensures none { IfNone result ((slot axis : ℕ) → slot < 2 ^ axes → IsTold last slot axis
        → ¬ IsFreeSlot own below.now axes slot axis) }
{
    let count = slots(axes);
    'slots: for slot in 0..count {
        let Some(axis) = free_axis(own, below, axes, slot) else {
            continue;
        };
        if four_bits(last, slot) == 3 + axis {
            return Some(SlotPair { slot, axis });
        }
    }
    None
}
