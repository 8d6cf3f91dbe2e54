//! The maps of all steps, but for the projection.
ghost use Rattle.std.specs.Prelude.{◌≡◌, ◌<◌, length, IfOk, OnOk};
ghost use Rattle.chains.specs.Terms.{coefficient};
ghost use Rattle.algebraic_reduction.specs.Reduction.{IsOnLeft};
ghost use Rattle.algebraic_reduction.specs.Kept.{steps_of};
ghost use Rattle.algebraic_reduction.specs.LogWords.{Gives, inclusion, homotopy_at, IsTransposed, IsSamePast};
ghost use Rattle.algebraic_reduction.specs.Parts.{multiple, Holds, seen, AreNamesIn, AddsBack, ArePendingAt, ArePendingBefore, taken_back};

use crate::descending::{Descended, descend, left_terms};
use crate::generators::Generators;
use crate::numbers::Numbers;
use crate::parts::Parts;
use crate::settling::settle;
use chains::Chain;
use field_mod::Field;
use std::alloc::{AllocError, Global};

/// Adds a multiple of the numbers of steps to what is pending, where each step stands by how many
/// of so many steps come after it: so the last one comes first.
fn turn_back<const P: u16>(
    field: Field<P>,
    numbers: &[(u32, u16)],
    scale: u16,
    count: u32,
    pending: &mut Numbers<P>,
) -> Result<(), AllocError>
    requires below { scale < P }
    ensures sum { OnOk result
        (AddsBack P (multiple scale numbers.now) count count pending.old pending.new) }
    ensures inside { OnOk result (ArePendingAt numbers.now count pending.old pending.new) }
{
    for index in 0..numbers.len() {
        let (place, number) = numbers[index];
        if place < count && number != 0 {
            pending.add(field, count - 1 - place, field.mul(scale, number % P))?;
        }
    }
    Ok(())
}

/// Takes a multiple of the homotopy of the boundary of a step's b, along the steps before it, out
/// of what is pending.
fn go_back<const P: u16>(
    parts: &Parts<P>,
    alloc: Global,
    field: Field<P>,
    place: u32,
    number: u16,
    count: u32,
    pending: &mut Numbers<P>,
) -> Result<(), AllocError>
    requires inside { place < count }
    requires count { count ≡ length parts.now.steps.items }
    requires below { number < P }
    requires state { Holds P parts.now }
    ensures sum { OnOk result
        (AddsBack P (taken_back P parts.now place number) place count pending.old pending.new) }
    ensures inside { OnOk result (ArePendingBefore place count pending.old pending.new) }
{
    let b = parts.steps[place as usize].b();
    let descended = descend(parts, alloc, field, place, parts.complex.boundary(b))?;
    let Descended { left, raised } = descended;
    drop(left);
    turn_back(field, raised.as_slice(), field.neg(number), count, pending)?;
    Ok(())
}

/// The homotopy of a chain: down the rows first, and then back from the last step that was made;
/// for each the boundary of its b goes down the rows of the steps before it.
pub fn homotopy<const P: u16>(
    parts: &Parts<P>,
    alloc: Global,
    field: Field<P>,
    chain: &Chain<P>,
) -> Result<Chain<P>, AllocError>
    requires state { Holds P parts.now }
    ensures { IfOk result (λ c. Gives P c (homotopy_at P (seen P parts.now) chain.now)) }
{
    let count = parts.steps.len() as u32;
    let descended = descend(parts, alloc, field, count, chain)?;
    let Descended { left, raised } = descended;
    drop(left);
    let mut pending = Numbers::new(alloc, field);
    turn_back(field, raised.as_slice(), 1, count, &mut pending)?;
    let mut terms = Vec::new(alloc);
    let mut bound = count;
    'returning: while let Some((after, number)) = pending.take_first() {
        let place = count - 1 - after;
        go_back(parts, alloc, field, place, number, count, &mut pending)?;
        terms.push((parts.steps[place as usize].b(), number))?;
        bound = place;
    }
    let sum = Chain::from_terms(alloc, field, &terms)?;
    Ok(sum)
}

/// The inclusion of a chain on what is left: the chain less the homotopy of its boundary.
pub fn include<const P: u16>(
    parts: &Parts<P>,
    alloc: Global,
    field: Field<P>,
    chain: &Chain<P>,
) -> Result<Chain<P>, AllocError>
    requires state { Holds P parts.now }
    requires left { IsOnLeft P (steps_of parts.now.steps.items) (coefficient chain.now) }
    ensures { IfOk result (λ c. Gives P c (inclusion P (seen P parts.now) chain.now)) }
{
    let boundary = parts.complex.boundary_of(alloc, field, chain)?;
    let raised = homotopy(parts, alloc, field, &boundary)?;
    let mut included = chain.copy(alloc)?;
    included.add_scaled(field, field.neg(1), &raised)?;
    Ok(included)
}

/// The transposed projection of a chain, by an index of the rows.
pub fn transposed_projection<const P: u16>(
    parts: &Parts<P>,
    names: &[Generators],
    alloc: Global,
    field: Field<P>,
    chain: &Chain<P>,
) -> Result<Chain<P>, AllocError>
    requires names { AreNamesIn P parts.now names.now }
    requires state { Holds P parts.now }
    ensures value { IfOk result (λ c. IsTransposed P (seen P parts.now) chain.now c) }
    ensures past { IfOk result (λ c. IsSamePast P (seen P parts.now) chain.now c) }
{
    let start = left_terms(&parts.places, alloc, field, chain)?;
    let values = settle(parts, alloc, field, names, &start)?;
    Ok(values)
}
