//! The descent of a chain along the rows of the steps.
ghost use Rattle.std.specs.Prelude.{◌<◌, ◌≤◌, length, IfOk, OnOk, IfSome, IsTrue};
ghost use Rattle.algebraic_reduction.specs.Reduction.{IsUnpaired};
ghost use Rattle.algebraic_reduction.specs.Kept.{steps_of};
ghost use Rattle.algebraic_reduction.specs.LogWords.{Gives, left_at, projection};
ghost use Rattle.algebraic_reduction.specs.Parts.{only, multiple, Holds, seen, IsStepOf, FindsStep, AddsLeft, AddsLeftModulo, TakenStay, AddsPending, ArePendingIn, DescendsTo, AreLeftTerms, IsOffSteps};

use crate::numbers::Numbers;
use crate::parts::{Parts, place_of};
use crate::place::Place;
use chains::Chain;
use field_mod::Field;
use smallvec::SmallVec;
use std::alloc::{AllocError, Global};

/// Numbers, each with its generator or its step. Up to four of them need no allocation.
pub type Terms = SmallVec<(u32, u16), 4>;

/// The step from `from` on and before `bound` whose a the generator is.
fn step_of_a<const P: u16>(parts: &Parts<P>, generator: u32, from: u32, bound: u32) -> Option<u32>
    requires state { Holds P parts.now }
    ensures some { IfSome result (IsStepOf P parts.now generator from bound) }
    ensures found { FindsStep P parts.now generator from bound result }
{
    let place = place_of(&parts.places, generator)?;
    if from <= place && place < bound && parts.steps[place as usize].a() == generator {
        Some(place)
    } else {
        None
    }
}

/// Adds a number that stands at a generator: to what is pending at the step from `from` on and
/// before `bound` whose a it is, or to what is left where it is in no step. At the a of another
/// step and at a b it is dropped.
fn spread_one<const P: u16>(
    parts: &Parts<P>,
    field: Field<P>,
    generator: u32,
    number: u16,
    from: u32,
    bound: u32,
    pending: &mut Numbers<P>,
    left: &mut Terms,
) -> Result<(), AllocError>
    requires below { number < P }
    requires bounded { bound ≤ length parts.now.steps.items }
    requires state { Holds P parts.now }
    ensures left { OnOk result
        (AddsLeft P parts.now (only generator number) left.old.items left.new.items) }
    ensures dropped { OnOk result (TakenStay P parts.now left.old.items left.new.items) }
    ensures pending { OnOk result
        (AddsPending P parts.now (only generator number) from bound pending.old pending.new) }
    ensures inside { OnOk result (ArePendingIn from bound pending.old pending.new) }
{
    if place_of(&parts.places, generator).is_none() {
        left.push((generator, number))?;
    } else if let Some(place) = step_of_a(parts, generator, from, bound) {
        pending.add(field, place, number)?;
    }
    Ok(())
}

/// Adds a multiple of a chain, term by term.
fn spread<const P: u16>(
    parts: &Parts<P>,
    field: Field<P>,
    chain: &Chain<P>,
    scale: u16,
    from: u32,
    bound: u32,
    pending: &mut Numbers<P>,
    left: &mut Terms,
) -> Result<(), AllocError>
    requires below { scale < P }
    requires bounded { bound ≤ length parts.now.steps.items }
    requires state { Holds P parts.now }
    ensures left { OnOk result
        (AddsLeftModulo P parts.now (multiple scale chain.now) left.old.items left.new.items) }
    ensures dropped { OnOk result (TakenStay P parts.now left.old.items left.new.items) }
    ensures pending { OnOk result
        (AddsPending P parts.now (multiple scale chain.now) from bound pending.old pending.new) }
    ensures inside { OnOk result (ArePendingIn from bound pending.old pending.new) }
{
    for index in 0..chain.len() {
        let (generator, number) = chain.term(index);
        let scaled = field.mul(scale, number);
        spread_one(parts, field, generator, scaled, from, bound, pending, left)?;
    }
    Ok(())
}

/// What the descent of a chain comes to: terms at generators in no step, and for each step that was
/// made its number: what its homotopy gives its b.
#[derive(Drop)]
pub struct Descended {
    pub left: Terms,
    pub raised: Terms,
}

/// Moves what stands at the a of a step before `bound` along its row, step after step. Only steps
/// that the chain meets are made.
pub fn descend<const P: u16>(
    parts: &Parts<P>,
    alloc: Global,
    field: Field<P>,
    bound: u32,
    start: &Chain<P>,
) -> Result<Descended, AllocError>
    requires bounded { bound ≤ length parts.now.steps.items }
    requires state { Holds P parts.now }
    ensures { IfOk result
        (λ d. DescendsTo P parts.now bound start.now d.left.items d.raised.items) }
{
    let mut pending = Numbers::new(alloc, field);
    let mut left = SmallVec::new(alloc);
    let mut raised = SmallVec::new(alloc);
    spread(parts, field, start, 1, 0, bound, &mut pending, &mut left)?;
    let mut from = 0;
    'descending: while let Some((place, number)) = pending.take_first() {
        let step = &parts.steps[place as usize];
        let weight = field.mul(step.inverse(), number);
        from = place + 1;
        let scale = field.neg(weight);
        spread(
            parts,
            field,
            step.row(),
            scale,
            from,
            bound,
            &mut pending,
            &mut left,
        )?;
        raised.push((place, weight))?;
    }
    Ok(Descended { left, raised })
}

/// The terms at generators that are in no step.
pub fn left_terms<const P: u16>(
    places: &[Place],
    alloc: Global,
    field: Field<P>,
    chain: &Chain<P>,
) -> Result<Chain<P>, AllocError>
    ensures left { IfOk result (λ c. AreLeftTerms P places.now chain.now c) }
    ensures others { IfOk result (λ c. IsOffSteps places.now c) }
{
    let mut terms = Vec::new(alloc);
    for index in 0..chain.len() {
        let (generator, number) = chain.term(index);
        if place_of(places, generator).is_none() {
            terms.push((generator, number))?;
        }
    }
    let left = Chain::from_terms(alloc, field, &terms)?;
    Ok(left)
}

/// The projection of a chain.
pub fn project<const P: u16>(
    parts: &Parts<P>,
    alloc: Global,
    field: Field<P>,
    chain: &Chain<P>,
) -> Result<Chain<P>, AllocError>
    requires state { Holds P parts.now }
    ensures { IfOk result (λ c. Gives P c (projection P (seen P parts.now) chain.now)) }
{
    let count = parts.steps.len() as u32;
    let descended = descend(parts, alloc, field, count, chain)?;
    let Descended { left, raised } = descended;
    drop(raised);
    let projected = Chain::from_terms(alloc, field, left.as_slice())?;
    Ok(projected)
}

/// Whether a chain has terms at generators alone that are in no step.
fn is_off_steps<const P: u16>(places: &[Place], chain: &Chain<P>) -> bool
    ensures { IsTrue result → IsOffSteps places.now chain.now }
{
    for index in 0..chain.len() {
        let (generator, _) = chain.term(index);
        if place_of(places, generator).is_some() {
            return false;
        }
    }
    true
}

/// What the steps leave of the boundary of a generator that is in none: the projection of its
/// boundary. Most boundaries meet no step, and stay as they are.
pub fn left_boundary<const P: u16>(
    parts: &Parts<P>,
    alloc: Global,
    field: Field<P>,
    generator: u32,
) -> Result<Chain<P>, AllocError>
    requires inside { generator < length parts.now.complex.boundaries }
    requires alive { IsUnpaired (steps_of parts.now.steps.items) generator }
    requires state { Holds P parts.now }
    ensures { IfOk result (λ c. Gives P c (left_at P (seen P parts.now) generator)) }
{
    let boundary = parts.complex.boundary(generator);
    if is_off_steps(&parts.places, boundary) {
        let whole = boundary.copy(alloc)?;
        return Ok(whole);
    }
    let left = project(parts, alloc, field, boundary)?;
    Ok(left)
}
