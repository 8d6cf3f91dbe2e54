//! What is remembered of values: shapes of which it is known that the value is acyclic. Acyclic
//! values stay so when they are moved, so a shape is looked for up to a move. How many shapes are
//! kept, and how large they are, is bounded.
ghost use Rattle.std.specs.Prelude.{IsTrue};
ghost use Rattle.map_checks.specs.Shapes.{IsAcyclicShape};

use crate::moves::is_moved_shape;
use crate::shape::Shape;
use crate::slots::{SLOTS, slot_of};
use cell_complex::CellList;
use std::alloc::{AllocError as NoMemory, Global};
use std::marker::Model;

// The most cubes of a shape that is kept.
const MOST_CUBES: usize = 2048;

/// Shapes whose values are acyclic modulo `P`, each in its slot; a slot without a shape has the
/// empty one.
#[derive(Drop)]
pub(crate) struct AcyclicShapes<const P: u16> {
    slots: Vec<Shape>,
}

impl<const P: u16> Model for AcyclicShapes<P> {
    ghost use Rattle.std.specs.Prelude.{List};
    ghost use Rattle.elem_cubes.specs.Cells.{Factor};
    ghost use Rattle.map_checks.specs.Shapes.{AreAcyclicShapes};

    ghost Value = { List (List (List (List Factor))) };

    ghost view = { λ s. s.slots.items };

    ghost invariant = { λ s. AreAcyclicShapes P s.slots.items };
}

impl<const P: u16> AcyclicShapes<P> {
    /// No shapes.
    pub(crate) fn none(alloc: Global) -> Result<AcyclicShapes<P>, NoMemory> {
        let mut slots = Vec::with_capacity(alloc, SLOTS)?;
        for _ in 0..SLOTS {
            slots.push(Shape::empty(alloc))?;
        }
        Ok(AcyclicShapes { slots })
    }

    /// Whether a shape is one of them but for a move. One that was kept may have been replaced.
    pub(crate) fn has(&self, shape: &Shape) -> bool
        ensures { IsTrue result → IsAcyclicShape P shape.now }
    {
        match self.slots.get(slot_of(shape.values())) {
            Some(kept) => is_moved_shape(kept, shape),
            None => false,
        }
    }

    /// Keeps a shape whose value is acyclic, in place of the one in its slot.
    pub(crate) fn keep(&mut self, shape: Shape)
        requires { IsAcyclicShape P shape }
    {
        let slot = slot_of(shape.values());
        if cube_count(shape.values()) <= MOST_CUBES && slot < self.slots.len() {
            self.slots[slot] = shape;
        }
    }
}

// How many cubes some values have in all.
fn cube_count(values: &[CellList]) -> usize {
    let mut count = 0usize;
    for value in values {
        count = count.saturating_add(value.len());
    }
    count
}
