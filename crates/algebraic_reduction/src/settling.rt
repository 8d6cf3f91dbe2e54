//! Solving the equations of the rows, the last ones first.
ghost use Rattle.std.specs.Prelude.{◌≡◌, ℕ, ◌<◌, ◌≤◌, true, length, IfOk, OnOk, IfSome, Some};
ghost use Rattle.std.specs.Ordering.{nat_cmp};
ghost use Rattle.std.specs.BTreeSet.{contains};
ghost use Rattle.chains.specs.Terms.{IsNormal};
ghost use Rattle.algebraic_reduction.specs.Kept.{b_at, nth};
ghost use Rattle.algebraic_reduction.specs.Parts.{Holds, AreNamesIn, StayDue, ComeDueBelow, NamingComeDue, NamingComeDueBy, AllNamingComeDue, IsSettledAt, NamingPivotComeDue, IsOffPivots, StaysOffPivots, AreSettled};

use crate::due::{insert_due, pop_due};
use crate::generators::Generators;
use crate::numbers::{Numbers, chain_of};
use crate::parts::{Parts, place_of};
use chains::Chain;
use field_mod::Field;
use std::alloc::{AllocError, Global};
use std::collections::BTreeSet;

/// The step before `bound` whose b the generator is.
fn step_of_b<const P: u16>(parts: &Parts<P>, generator: u32, bound: u32) -> Option<u32>
    requires inside { bound ≤ length parts.now.steps.items }
    requires state { Holds P parts.now }
    ensures below { IfSome result (λ i. i < bound) }
    ensures found { (i : ℕ) → i < bound → b_at parts.now.steps.items i ≡ generator
        → result ≡ Some i }
{
    let place = place_of(&parts.places, generator)?;
    if place < bound && parts.steps[place as usize].b() == generator {
        Some(place)
    } else {
        None
    }
}

/// Makes the step before `bound` due whose b the generator is.
fn make_one_due<const P: u16>(
    parts: &Parts<P>,
    generator: u32,
    bound: u32,
    due: &mut BTreeSet<u32>,
) -> Result<(), AllocError>
    requires inside { bound ≤ length parts.now.steps.items }
    requires state { Holds P parts.now }
    ensures kept { OnOk result (StayDue (contains nat_cmp due.old) (contains nat_cmp due.new)) }
    ensures added { OnOk result ((j : ℕ) → j < bound → b_at parts.now.steps.items j ≡ generator
        → contains nat_cmp due.new j ≡ true) }
    ensures below { OnOk result
        (ComeDueBelow bound (contains nat_cmp due.old) (contains nat_cmp due.new)) }
{
    match step_of_b(parts, generator, bound) {
        Some(step) => insert_due(due, step),
        None => Ok(()),
    }
}

/// Makes those steps before `bound` due in whose equation the generator stands.
fn make_due<const P: u16>(
    parts: &Parts<P>,
    names: &[Generators],
    generator: u32,
    bound: u32,
    due: &mut BTreeSet<u32>,
) -> Result<(), AllocError>
    requires names { AreNamesIn P parts.now names.now }
    requires inside { bound ≤ length parts.now.steps.items }
    requires state { Holds P parts.now }
    ensures kept { OnOk result (StayDue (contains nat_cmp due.old) (contains nat_cmp due.new)) }
    ensures added { OnOk result
        (NamingComeDue P parts.now generator bound (contains nat_cmp due.new)) }
    ensures below { OnOk result
        (ComeDueBelow bound (contains nat_cmp due.old) (contains nat_cmp due.new)) }
{
    let place = generator as usize;
    if place >= names.len() {
        return Ok(());
    }
    let list = &names[place];
    for k in 0..list.len() {
        make_one_due(parts, list.at(k), bound, due)?;
    }
    Ok(())
}

/// The same, where the number at the generator is not 0.
fn make_due_unless_zero<const P: u16>(
    parts: &Parts<P>,
    names: &[Generators],
    number: u16,
    generator: u32,
    bound: u32,
    due: &mut BTreeSet<u32>,
) -> Result<(), AllocError>
    requires names { AreNamesIn P parts.now names.now }
    requires inside { bound ≤ length parts.now.steps.items }
    requires state { Holds P parts.now }
    ensures kept { OnOk result (StayDue (contains nat_cmp due.old) (contains nat_cmp due.new)) }
    ensures added { OnOk result
        (NamingComeDueBy P parts.now number generator bound (contains nat_cmp due.new)) }
    ensures below { OnOk result
        (ComeDueBelow bound (contains nat_cmp due.old) (contains nat_cmp due.new)) }
{
    if number == 0 {
        return Ok(());
    }
    make_due(parts, names, generator, bound, due)?;
    Ok(())
}

/// Makes those steps due in whose equation a generator of the chain stands.
fn make_all_due<const P: u16>(
    parts: &Parts<P>,
    names: &[Generators],
    chain: &Chain<P>,
    count: u32,
    due: &mut BTreeSet<u32>,
) -> Result<(), AllocError>
    requires names { AreNamesIn P parts.now names.now }
    requires inside { count ≤ length parts.now.steps.items }
    requires state { Holds P parts.now }
    ensures added { OnOk result
        (AllNamingComeDue P parts.now chain.now count (contains nat_cmp due.new)) }
    ensures below { OnOk result
        (ComeDueBelow count (contains nat_cmp due.old) (contains nat_cmp due.new)) }
{
    for place in 0..chain.len() {
        let (generator, _) = chain.term(place);
        make_due(parts, names, generator, count, due)?;
    }
    Ok(())
}

/// Settles the equation of one step, by the value at its pivot, and makes those before it due in
/// which the pivot stands, unless its value is 0.
fn settle_one<const P: u16>(
    parts: &Parts<P>,
    field: Field<P>,
    names: &[Generators],
    place: u32,
    values: &mut Numbers<P>,
    due: &mut BTreeSet<u32>,
) -> Result<(), AllocError>
    requires names { AreNamesIn P parts.now names.now }
    requires inside { place < length parts.now.steps.items }
    requires state { Holds P parts.now }
    ensures values { OnOk result (IsSettledAt P parts.now place values.old values.new) }
    ensures normal { OnOk result (IsNormal P (nth parts.now.steps.items place).row) }
    ensures kept { OnOk result (StayDue (contains nat_cmp due.old) (contains nat_cmp due.new)) }
    ensures added { OnOk result
        (NamingPivotComeDue P parts.now place values.new (contains nat_cmp due.new)) }
    ensures below { OnOk result
        (ComeDueBelow place (contains nat_cmp due.old) (contains nat_cmp due.new)) }
{
    let step = &parts.steps[place as usize];
    let value = values.product(field, step.row());
    let change = field.neg(field.mul(step.inverse(), value));
    let pivot = step.a();
    values.add(field, pivot, change)?;
    make_due_unless_zero(parts, names, values.at(pivot), pivot, place, due)?;
    Ok(())
}

/// Settles all equations from the start on. Only those are touched at which anything stands, the
/// last ones first.
pub fn settle<const P: u16>(
    parts: &Parts<P>,
    alloc: Global,
    field: Field<P>,
    names: &[Generators],
    start: &Chain<P>,
) -> Result<Chain<P>, AllocError>
    requires names { AreNamesIn P parts.now names.now }
    requires state { Holds P parts.now }
    requires clean { IsOffPivots P parts.now start.now }
    ensures others { IfOk result (StaysOffPivots P parts.now start.now) }
    ensures settled { IfOk result (AreSettled P parts.now start.now) }
{
    let count = parts.steps.len() as u32;
    let mut due = BTreeSet::new(alloc);
    make_all_due(parts, names, start, count, &mut due)?;
    let mut values = Numbers::of(alloc, field, start)?;
    let mut bound = count;
    'settling: while let Some(place) = pop_due(&mut due) {
        settle_one(parts, field, names, place, &mut values, &mut due)?;
        bound = place;
    }
    let settled = chain_of(alloc, field, values)?;
    Ok(settled)
}
