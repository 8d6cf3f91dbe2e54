//! Reducing by pairs until no boundary is left.
ghost use Rattle.std.specs.Prelude.{◌<◌, length, OnOk};
ghost use Rattle.algebraic_reduction.specs.Laws.{NothingLeft};
ghost use Rattle.algebraic_reduction.specs.Kept.{steps_of};
ghost use Rattle.algebraic_reduction.specs.Parts.{Holds, Goes, IsDone};

use crate::descending::left_boundary;
use crate::parts::{Parts, place_of, take_row};
use crate::place::Place;
use chains::Complex;
use field_mod::Field;
use reduction_order::{Plan, Turn};
use std::alloc::{AllocError, Global};

/// Sees that nothing is left of the boundary of b: takes b in a pair, if anything is, with a where
/// a stands in what is left.
fn finish<const P: u16>(
    parts: &mut Parts<P>,
    alloc: Global,
    field: Field<P>,
    plan: &mut Plan,
    turn: Turn,
) -> Result<(), AllocError>
    requires inside { turn.b < length parts.old.complex.boundaries }
    requires state { Holds P parts.old }
    ensures state { OnOk result (Holds P parts.new) }
    ensures goes { OnOk result (Goes P parts.old parts.new) }
    ensures empty { OnOk result (IsDone P parts.new turn.b) }
{
    if place_of(&parts.places, turn.b).is_some() {
        return Ok(());
    }
    let row = left_boundary(parts, alloc, field, turn.b)?;
    if row.len() == 0 {
        return Ok(());
    }
    let place = plan.choose(&row, turn.a).min(row.len() - 1);
    let (a, _) = row.term(place);
    plan.weigh(&row, a);
    take_row(parts, field, a, turn.b, row)?;
    Ok(())
}

/// Makes the turns of the plan for one degree.
fn reduce_degree<const P: u16>(
    parts: &mut Parts<P>,
    alloc: Global,
    field: Field<P>,
    plan: &mut Plan,
    degree: usize,
) -> Result<(), AllocError>
    requires state { Holds P parts.old }
    ensures state { OnOk result (Holds P parts.new) }
    ensures goes { OnOk result (Goes P parts.old parts.new) }
{
    let count = plan.order(alloc, &parts.complex, degree)?;
    for place in 0..count {
        make_turn(parts, alloc, field, plan, place)?;
    }
    Ok(())
}

/// Makes the turn at a place of the plan's order, if it is one.
fn make_turn<const P: u16>(
    parts: &mut Parts<P>,
    alloc: Global,
    field: Field<P>,
    plan: &mut Plan,
    place: usize,
) -> Result<(), AllocError>
    requires state { Holds P parts.old }
    ensures state { OnOk result (Holds P parts.new) }
    ensures goes { OnOk result (Goes P parts.old parts.new) }
{
    let Some(turn) = plan.turn(place) else {
        return Ok(());
    };
    if turn.b >= parts.complex.len() {
        return Ok(());
    }
    finish(parts, alloc, field, plan, turn)?;
    Ok(())
}

/// Makes the turns of the plan, the highest degree first.
fn reduce_by_plan<const P: u16>(
    parts: &mut Parts<P>,
    alloc: Global,
    field: Field<P>,
    plan: &mut Plan,
) -> Result<(), AllocError>
    requires state { Holds P parts.old }
    ensures state { OnOk result (Holds P parts.new) }
    ensures goes { OnOk result (Goes P parts.old parts.new) }
{
    let degrees = plan.degrees();
    for done in 0..degrees {
        reduce_degree(parts, alloc, field, plan, degrees - 1 - done)?;
    }
    Ok(())
}

/// A plan for the generators of a complex; the places tell which are in a step.
fn plan_of<const P: u16>(
    alloc: Global,
    complex: &Complex<P>,
    places: &[Place],
) -> Result<Plan, AllocError> {
    let mut plan = Plan::new(alloc, complex.len())?;
    for generator in 0..complex.len() {
        let taken = place_of(places, generator).is_some();
        plan.add(alloc, complex, generator, taken)?;
    }
    Ok(plan)
}

/// Reduces by pairs until no boundary is left: by a plan, and then those that have no turn in it,
/// by their numbers.
pub fn reduce_parts<const P: u16>(
    parts: &mut Parts<P>,
    alloc: Global,
    field: Field<P>,
) -> Result<(), AllocError>
    requires state { Holds P parts.old }
    ensures state { OnOk result (Holds P parts.new) }
    ensures goes { OnOk result (Goes P parts.old parts.new) }
    ensures empty { OnOk result (NothingLeft P parts.new.complex (steps_of parts.new.steps.items)) }
{
    let mut plan = plan_of(alloc, &parts.complex, &parts.places)?;
    reduce_by_plan(parts, alloc, field, &mut plan)?;
    let count = parts.complex.len();
    for b in 0..count {
        finish(parts, alloc, field, &mut plan, Turn { b, a: b })?;
    }
    Ok(())
}
