//! The states of cells packed into words.
ghost use Rattle.std.specs.Prelude.{◌≡◌, ℕ, ◌<◌, ◌≤◌, ◌+◌, ◌*◌, ◌^◌, List, true, length, vec_len, IsTrue, IfOk};
ghost use Rattle.std.specs.List.{list_all};
ghost use Rattle.std.specs.List.Sorted.{IsStrictlySortedBy};
ghost use Rattle.elem_cubes.specs.Cells.{Factor, is_file_factor, same_cell};
ghost use Rattle.cube_sets.specs.Sorted.{has};
ghost use Rattle.packed_words.specs.Words.{AreWords, AreKeysOf, IsWordOf, IsKey, AreFit, HaveStates, IsEnlivened, key_cmp, key_of, key_at, place_of, nibble, word_at, with_word, state_of};

use cell_complex::Numbered;
use elem_cubes::{Cell, Corner};
use std::alloc::{AllocError, Global};
use std::cmp::Ordering;
use std::marker::Model;

// How many places are looked at one by one before a search of all.
const FEW: usize = 16;

/// A lower corner with axes from the fifth on.
#[derive(Clone, Copy, PartialEq, Eq, PartialOrd, Ord)]
pub(crate) struct PackedKey {
    corner: Corner,
    upper: u8,
}

impl Model for PackedKey {
    ghost use Rattle.packed_words.specs.Words.{Key};

    ghost Value = { Key };

    ghost view = { λ k. record { corner = k.corner; upper = k.upper } };

    ghost inverse = { λ k. record { corner = k.corner; upper = k.upper } };

    ghost use Rattle.std.proofs.Common.{refl};

    ghost inverse_ok = { λ a h. refl };
}

/// Packed words: keys in order, each a lower corner with axes from the fifth on, and a word for
/// each. The cell at the corner with these and some of the first four axes has its state in four
/// bits of the word: 0 not there, 1 alive, 2 taken as the coface of a pair, 2 + j taken as the face
/// of a coface along the axis j, counted from 1.
#[derive(Drop)]
pub struct Words {
    keys: Vec<PackedKey>,
    words: Vec<u64>,
}

impl Model for Words {
    ghost use Rattle.packed_words.specs.Words.{PackedWords, AreWords};

    ghost Value = { PackedWords };

    ghost view = { λ w. record { keys = w.keys.items; words = w.words.items } };

    ghost invariant = { λ w. AreWords (record { keys = w.keys.items; words = w.words.items }) };
}

/// The words of numbered cells, with a flag for each: state 1 where the flag is set, else 0. There
/// is a word for each key of a cell.
pub fn words_of(alloc: Global, cells: &Numbered, alive: &[bool]) -> Result<Words, AllocError>
    requires { length alive.now ≡ length cells.now }
    ensures keys { IfOk result (λ w. AreKeysOf cells.now w.keys) }
    ensures states { IfOk result (λ w. HaveStates cells.now alive.now w) }
{
    let _ = cells.len();
    let keys = keys_of(alloc, cells)?;
    let mut words = zero_words(alloc, keys)?;
    let mut near = 0;
    let mut at = 0;
    'cells: for number in 0..cells.len() {
        if !alive[number as usize] {
            continue;
        }
        words.enliven(&cells.cell_near(number, &mut near), &mut at);
    }
    Ok(words)
}

// The keys of numbered cells, in order.
fn keys_of(alloc: Global, cells: &Numbered) -> Result<Vec<PackedKey>, AllocError>
    ensures keys { IfOk result (λ v. AreKeysOf cells.now v.items) }
    ensures sorted { IfOk result (λ v. IsStrictlySortedBy key_cmp v.items) }
    ensures fit { IfOk result (λ v. AreFit v.items) }
    ensures few { IfOk result (λ v. vec_len v < 2 ^ 32) }
{
    let _ = cells.len();
    let mut keys = Vec::new(alloc);
    let mut near = 0;
    'cells: for number in 0..cells.len() {
        let key = packed_key(&cells.cell_near(number, &mut near));
        if ends_with(&keys, &key) {
            continue;
        }
        keys.push(key)?;
    }
    sort_distinct(&mut keys);
    Ok(keys)
}

// Whether the key is the last of the list; then it is in the list.
#[tactic(auto, using(crate::proofs::Keys::last_has))]
fn ends_with(keys: &[PackedKey], key: &PackedKey) -> bool
    ensures { IsTrue result → has key_cmp keys.now key.now ≡ true }
{
    let count = keys.len();
    if count == 0 {
        return false;
    }
    keys[count - 1].cmp(key).is_eq()
}

// Sorts the values, and keeps one of those that are equal.
fn sort_distinct<T: Ord + Drop>(values: &mut Vec<T>)
    ensures sorted { IsStrictlySortedBy T.cmp values.new.items }
    ensures members { (x : T) → has T.cmp values.new.items x ≡ has T.cmp values.old.items x }
    ensures bound { vec_len values.new ≤ vec_len values.old }
{
    values.sort_unstable();
    values.dedup();
}

// Words in which no cell is alive.
fn zero_words(alloc: Global, keys: Vec<PackedKey>) -> Result<Words, AllocError>
    requires sorted { IsStrictlySortedBy key_cmp keys.items }
    requires fit { AreFit keys.items }
    requires few { vec_len keys < 2 ^ 32 }
    ensures keys { IfOk result (λ w. w.keys ≡ keys.items) }
    ensures zero { IfOk result (λ w. (c : List Factor) → state_of w c ≡ 0) }
{
    let mut words = Vec::with_capacity(alloc, keys.len())?;
    for _ in 0..keys.len() {
        words.push(0)?;
    }
    Ok(Words { keys, words })
}

// The place of a key in a sorted list, or how many keys there are. `near` becomes that place, or that
// of the last key below.
fn place_in(keys: &[PackedKey], key: &PackedKey, near: &mut usize) -> usize
    requires { IsStrictlySortedBy key_cmp keys.now }
    ensures place { result ≡ place_of keys.now key.now }
    ensures within { result ≤ length keys.now }
{
    match keys.binary_search(key) {
        Ok(place) => {
            *near = place;
            place
        }
        Err(place) => {
            *near = place.saturating_sub(1);
            keys.len()
        }
    }
}

// The same, found sooner where it is one of the few from `near` on, or would stand among them.
fn place_from(keys: &[PackedKey], key: &PackedKey, near: &mut usize) -> usize
    requires { IsStrictlySortedBy key_cmp keys.now }
    ensures place { result ≡ place_of keys.now key.now }
    ensures within { result ≤ length keys.now }
{
    let end = near.saturating_add(FEW).min(keys.len());
    let mut below = false;
    'few: for place in *near..end {
        match keys[place].cmp(key) {
            Ordering::Less => {
                below = true;
                *near = place;
            }
            Ordering::Equal => {
                *near = place;
                return place;
            }
            Ordering::Greater => {
                if below || place == 0 {
                    return keys.len();
                }
                return place_in(keys, key, near);
            }
        }
    }
    place_in(keys, key, near)
}

// The key of a cell.
fn packed_key(cell: &Cell) -> PackedKey
    ensures key { result ≡ key_of cell.now }
    ensures fits { IsKey (key_of cell.now) }
{
    let corner = cell.lower();
    let _ = corner.len();
    PackedKey {
        corner,
        upper: 16 * (cell.axes() / 16),
    }
}

// Four bits of a word.
fn four_bits(word: u64, slot: u8) -> u8
    requires { slot < 16 }
    ensures { result ≡ nibble slot word }
{
    ((word >> (4 * slot)) % 16) as u8
}

impl Words {
    /// How many words there are.
    pub fn len(&self) -> u32
        ensures count { result ≡ length self.now.keys }
        ensures words { AreWords self.now }
    {
        self.keys.len() as u32
    }

    /// The corner of the word at a place below `len`.
    pub fn point(&self, i: u32) -> Corner
        requires { i < length self.now.keys }
        ensures { result ≡ (key_at self.now i).corner }
    {
        self.keys[i as usize].corner
    }

    /// The axes from the fifth on of the word at a place below `len`.
    pub fn upper(&self, i: u32) -> u8
        requires { i < length self.now.keys }
        ensures { result ≡ (key_at self.now i).upper }
    {
        self.keys[i as usize].upper
    }

    /// The word at a place below `len`.
    pub fn word(&self, i: u32) -> u64
        requires { i < length self.now.keys }
        ensures value { result ≡ word_at self.now i }
        ensures fits { IsWordOf (key_at self.now i) result }
    {
        self.words[i as usize]
    }

    /// The place of the word that has a cell's state, or how many words there are.
    pub fn place(&self, cell: &Cell) -> u32
        ensures place { result ≡ place_of self.now.keys (key_of cell.now) }
        ensures within { result ≤ length self.now.keys }
    {
        let mut near = 0;
        place_in(&self.keys, &packed_key(cell), &mut near) as u32
    }

    /// The same, found sooner where the place is one of the few from the one that was found with
    /// this `near` before; at first `near` is 0.
    pub fn place_near(&self, cell: &Cell, near: &mut u32) -> u32
        ensures place { result ≡ place_of self.now.keys (key_of cell.now) }
        ensures within { result ≤ length self.now.keys }
    {
        let mut at = *near as usize;
        let place = place_from(&self.keys, &packed_key(cell), &mut at);
        if at < self.keys.len() {
            *near = at as u32;
        }
        place as u32
    }

    /// The word that has a cell's state, found as its place is; 0 where there is none.
    pub fn word_near(&self, cell: &Cell, near: &mut u32) -> u64
        ensures { result ≡ word_at self.now (place_of self.now.keys (key_of cell.now)) }
    {
        let place = self.place_near(cell, near);
        if place >= self.len() {
            return 0;
        }
        self.word(place)
    }

    // The state of a cell whose key is at a place, or has none.
    fn state_at(&self, cell: &Cell, place: u32) -> u8
        requires place { place ≡ place_of self.now.keys (key_of cell.now) }
        requires within { place ≤ length self.now.keys }
        ensures { result ≡ state_of self.now cell.now }
    {
        if place >= self.len() {
            return 0;
        }
        four_bits(self.word(place), cell.axes() % 16)
    }

    /// The state of a cell; 0 where it has no word.
    pub fn state(&self, cell: &Cell) -> u8
        ensures { result ≡ state_of self.now cell.now }
    {
        self.state_at(cell, self.place(cell))
    }

    /// The same, found sooner where the cell's word is soon after the place that was found with this
    /// `near` before; at first `near` is 0.
    pub fn state_near(&self, cell: &Cell, near: &mut u32) -> u8
        ensures { result ≡ state_of self.now cell.now }
    {
        let place = self.place_near(cell, near);
        self.state_at(cell, place)
    }

    // Makes a cell alive that has a word, where its state is 0.
    fn enliven(&mut self, cell: &Cell, near: &mut u32)
        requires placed { place_of self.old.keys (key_of cell.now) < length self.old.keys }
        requires in_range { list_all is_file_factor cell.now ≡ true }
        requires dead { state_of self.old cell.now ≡ 0 }
        ensures keys { self.new.keys ≡ self.old.keys }
        ensures states { IsEnlivened cell.now self.old self.new }
    {
        let _ = self.len();
        let place = self.place_near(cell, near);
        let unit = 16u64.pow(u32::from(cell.axes() % 16));
        let word = self.word(place) + unit;
        self.put(place, word);
    }

    /// The same words once more.
    pub fn copy(&self, alloc: Global) -> Result<Words, AllocError>
        ensures { IfOk result (λ w. w ≡ self.now) }
    {
        let keys = Vec::from_slice(alloc, &self.keys)?;
        let words = Vec::from_slice(alloc, &self.words)?;
        Ok(Words { keys, words })
    }

    /// Another word at a place below `len`; its bits that belong to no cell in range are 0.
    pub fn put(&mut self, i: u32, word: u64)
        requires place { i < length self.now.keys }
        requires fits { IsWordOf (key_at self.now i) word }
        ensures { self.new ≡ with_word self.old i word }
    {
        self.words[i as usize] = word;
    }
}
