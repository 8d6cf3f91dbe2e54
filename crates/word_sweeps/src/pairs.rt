//! The words round a corner, and the removal of a pair.
ghost use Rattle.std.specs.Prelude.{◌≡◌, ◌<◌, ◌≤◌, ◌+◌, ◌*◌, ◌^◌, length, true, IfSome, IfNone};
ghost use Rattle.std.specs.List.{list_all};
ghost use Rattle.elem_cubes.specs.Cells.{is_cell, is_file_factor, cell_of};
ghost use Rattle.packed_words.specs.Words.{AreWords, place_of};
ghost use Rattle.word_sweeps.specs.Reached.{IsFreeIn, words_without};
ghost use Rattle.word_sweeps.specs.FreeSlots.{AreBelow, AreSlots, IsAround, NoneAlive, below_corner, first_key, slot_pair, word_of};

use crate::slots::{SlotPair, with_axis};
use elem_cubes::{Cell, Corner, MAX_EMBEDDING};
use packed_words::Words;

/// Where the words round a corner are looked for first: its own, and those one step down along each
/// axis. At first all are 0.
#[derive(Clone, Copy)]
pub(crate) struct Near {
    pub(crate) own: u32,
    pub(crate) below: [u32; MAX_EMBEDDING],
}

/// The place of a corner's word, the number of its axes, and the words one step down along each.
#[derive(Clone, Copy)]
pub(crate) struct Around {
    pub(crate) place: u32,
    pub(crate) axes: u8,
    pub(crate) below: [u64; MAX_EMBEDDING],
}

// The cell of no axes at a corner.
fn vertex_at(corner: Corner) -> Cell
    ensures { result ≡ cell_of corner 0 }
{
    let _ = corner.len();
    Cell::new(corner, 0).unwrap()
}

// The word of the corner one step down along an axis, by the vertex of the corner.
fn word_below(words: &Words, vertex: &Cell, corner: &Corner, axis: usize, near: &mut u32) -> u64
    requires vertex { vertex.now ≡ cell_of corner.now 0 }
    requires in_range { list_all is_file_factor vertex.now ≡ true }
    requires axis { axis < length corner.now }
    ensures { result ≡ word_of words.now (below_corner corner.now axis) }
{
    let _ = corner.len();
    words.word_near(&vertex.moved_down(axis), near)
}

// The words one step down along each axis.
fn words_below(
    words: &Words,
    vertex: &Cell,
    corner: &Corner,
    near: &mut Near,
) -> [u64; MAX_EMBEDDING]
    requires vertex { vertex.now ≡ cell_of corner.now 0 }
    requires in_range { list_all is_file_factor vertex.now ≡ true }
    ensures { AreBelow words.now corner.now result }
{
    let mut below = [0; MAX_EMBEDDING];
    'axes: for axis in 0..corner.len() {
        let mut at = near.below[axis];
        let word = word_below(words, vertex, corner, axis, &mut at);
        near.below[axis] = at;
        below[axis] = word;
    }
    below
}

/// The words round a corner; none where no cell at it is alive.
pub(crate) fn look_around(words: &Words, corner: &Corner, near: &mut Near) -> Option<Around>
    ensures some { IfSome result (λ a. IsAround words.now corner.now a.place a.axes a.below) }
    ensures none { IfNone result (NoneAlive words.now corner.now) }
    ensures words { AreWords words.now }
{
    let count = words.len();
    let axes = corner.len();
    let vertex = vertex_at(*corner);
    if !vertex.in_range() {
        return None;
    }
    let place = words.place_near(&vertex, &mut near.own);
    if place >= count {
        return None;
    }
    Some(Around {
        place,
        axes: axes as u8,
        below: words_below(words, &vertex, corner, near),
    })
}

// 16 to the power of a slot.
fn unit(slot: u8) -> u64
    requires { slot < 16 }
    ensures value { result ≡ 16 ^ slot }
    ensures some { 1 ≤ result }
{
    1 << (4 * slot)
}

// The word after the removal of a pair, where these are the units of the face and of the coface.
fn word_after(word: u64, axis: u64, face_unit: u64, coface_unit: u64) -> u64
    requires fits { word + (1 + axis) * face_unit + coface_unit < 2 ^ 64 }
    requires unit { 1 ≤ face_unit }
    ensures { result ≡ word + (1 + axis) * face_unit + coface_unit }
{
    word + (1 + axis) * face_unit + coface_unit
}

/// The removal of a free pair at a corner, whose word is at a place.
pub(crate) fn remove(words: &mut Words, corner: &Corner, place: u32, pair: &SlotPair)
    requires free { IsFreeIn words.old (slot_pair corner.now pair.now.slot pair.now.axis) }
    requires slots { AreSlots corner.now pair.now.slot pair.now.axis }
    requires place { place ≡ place_of words.old.keys (first_key corner.now) }
    ensures removed { words.new
        ≡ words_without (slot_pair corner.now pair.now.slot pair.now.axis) words.old }
    ensures words { AreWords words.new }
{
    let _ = words.len();
    let axis = u64::from(pair.axis) + 1;
    let face_unit = unit(pair.slot);
    let coface_unit = unit(with_axis(pair.slot, pair.axis));
    let word = word_after(words.word(place), axis, face_unit, coface_unit);
    words.put(place, word);
    let _ = words.len();
}

/// The cells of a pair at a corner.
pub(crate) fn cells_of(corner: &Corner, pair: &SlotPair) -> (Cell, Cell)
    requires slots { AreSlots corner.now pair.now.slot pair.now.axis }
    requires face { is_cell (cell_of corner.now pair.now.slot) ≡ true }
    requires coface { is_cell (cell_of corner.now (pair.now.slot + 2 ^ pair.now.axis)) ≡ true }
    ensures { result ≡ slot_pair corner.now pair.now.slot pair.now.axis }
{
    let coface_slot = with_axis(pair.slot, pair.axis);
    (
        Cell::new(*corner, pair.slot).unwrap(),
        Cell::new(*corner, coface_slot).unwrap(),
    )
}
