//! Free one-point pairs of packed words, removed and put in order.
ghost use Rattle.std.specs.Prelude.{◌≡◌, length, OnOk, IfOk};
ghost use Rattle.cell_complex.specs.FreePairs.{AreFreeInTurn};
ghost use Rattle.packed_words.specs.Words.{AreWords, is_alive};
ghost use Rattle.word_sweeps.specs.Reached.{IsFreeIn, IsTurn, GoesOn, AreReached, AreUntaken, HasNoOnePointPair, AreTakenPairs, Leave};
ghost use Rattle.word_sweeps.specs.FreeSlots.{NoneAtCorner};

use crate::pairs::{Near, cells_of, look_around, remove};
use crate::slots::{free_slot, taken_slot};
use elem_cubes::{Cell, Corner, MAX_EMBEDDING};
use packed_words::Words;
use std::alloc::{AllocError, Global};

/// The words after removals of free one-point pairs, until there is none. No cell is taken at the
/// start.
pub fn sweep(alloc: Global, start: &Words) -> Result<Words, AllocError>
    requires { AreUntaken start.now }
    ensures reached { IfOk result (λ w. AreReached start.now w) }
    ensures none_free { IfOk result HasNoOnePointPair }
{
    let _ = start.len();
    let mut words = start.copy(alloc)?;
    let mut near = first_near();
    'points: for i in 0..start.len() {
        sweep_point(&mut words, &start.point(i), &mut near);
    }
    Ok(words)
}

// Where words are looked for at first.
fn first_near() -> Near {
    Near {
        own: 0,
        below: [0; MAX_EMBEDDING],
    }
}

// Removes free pairs whose faces are at a corner, until there is none.
fn sweep_point(words: &mut Words, corner: &Corner, near: &mut Near)
    ensures reached { AreReached words.old words.new }
    ensures none { NoneAtCorner corner.now (IsFreeIn words.new) }
    ensures words { AreWords words.old }
{
    let Some(around) = look_around(words, corner, near) else {
        return;
    };
    'pairs: while let Some(pair) = free_slot(words.word(around.place), &around.below, around.axes) {
        remove(words, corner, around.place, &pair);
    }
}

/// The pairs that were removed between the words, each a face and its coface, in an order in which
/// each is free.
pub fn order(alloc: Global, start: &Words, last: &Words) -> Result<Vec<(Cell, Cell)>, AllocError>
    requires { AreReached start.now last.now }
    ensures free { IfOk result (λ pairs. AreFreeInTurn (is_alive start.now) pairs.items) }
    ensures taken { IfOk result (λ pairs. AreTakenPairs start.now last.now pairs.items) }
    ensures left { IfOk result (λ pairs. Leave start.now last.now pairs.items) }
{
    let _ = start.len();
    let mut words = start.copy(alloc)?;
    let mut pairs = Vec::new(alloc);
    let mut near = first_near();
    'points: for i in 0..start.len() {
        order_point(&mut words, &mut pairs, last, &start.point(i), &mut near)?;
    }
    Ok(pairs)
}

// Goes on with the taken pairs whose faces are at a corner, each as soon as it is free.
fn order_point(
    words: &mut Words,
    pairs: &mut Vec<(Cell, Cell)>,
    last: &Words,
    corner: &Corner,
    near: &mut Near,
) -> Result<(), AllocError>
    requires { last.now.keys ≡ words.old.keys }
    ensures on { OnOk result (GoesOn last.now words.old pairs.old.items words.new pairs.new.items) }
    ensures none { OnOk result (NoneAtCorner corner.now (IsTurn words.new last.now)) }
{
    let Some(around) = look_around(words, corner, near) else {
        return Ok(());
    };
    let end = last.word(around.place);
    'pairs: while let Some(pair) = taken_slot(
        words.word(around.place),
        end,
        &around.below,
        around.axes,
    ) {
        pairs.push(cells_of(corner, &pair))?;
        remove(words, corner, around.place, &pair);
    }
    Ok(())
}
