//! The fields of a log, and one step more on them.
ghost use Rattle.std.specs.Prelude.{◌≡◌, ℕ, ◌<◌, ◌*◌, ◌%◌, [], length, OnOk, IfOk, None};
ghost use Rattle.field_mod.specs.Modular.{NonZero};
ghost use Rattle.algebraic_reduction.specs.Kept.{steps_of};
ghost use Rattle.algebraic_reduction.specs.LogWords.{IsOneMore, Gives, left_at};
ghost use Rattle.algebraic_reduction.specs.State.{IsState, place_at};
ghost use Rattle.algebraic_reduction.specs.Parts.{Holds, Goes, IsAlive, seen, IsDone};

use crate::kept::Kept;
use crate::place::Place;
use chains::{Chain, Complex};
use field_mod::Field;
use std::alloc::{AllocError, Global};

/// The fields of a log: the complex, as it was at the start, for each generator the step that it is
/// in, and the steps.
#[derive(Drop)]
pub struct Parts<const P: u16> {
    pub complex: Complex<P>,
    pub places: Vec<Place>,
    pub steps: Vec<Kept<P>>,
}

fn no_places(alloc: Global, count: u32) -> Result<Vec<Place>, AllocError>
    ensures count { IfOk result (λ v. length v.items ≡ count) }
    ensures none { IfOk result (λ v. (g : ℕ) → place_at v.items g ≡ None) }
{
    let mut places = Vec::with_capacity(alloc, count as usize)?;
    for _index in 0..count {
        places.push(Place::none())?;
    }
    Ok(places)
}

/// The fields of a log of the complex without steps. The complex is moved in; nothing of it is
/// copied. There is room for as many steps as there can be, so that the list of them never moves.
pub fn start_parts<const P: u16>(alloc: Global, complex: Complex<P>) -> Result<Parts<P>, AllocError>
    ensures state { IfOk result (λ p. IsState P p.complex p.places.items p.steps.items) }
    ensures complex { IfOk result (λ p. p.complex ≡ complex.entry) }
    ensures steps { IfOk result (λ p. p.steps.items ≡ []) }
{
    let places = no_places(alloc, complex.len())?;
    let steps = Vec::with_capacity(alloc, complex.len() as usize / 2)?;
    Ok(Parts {
        places,
        steps,
        complex,
    })
}

/// The step that a generator is in.
pub fn place_of(places: &[Place], generator: u32) -> Option<u32>
    ensures { result ≡ place_at places.now generator }
{
    let place = generator as usize;
    if place < places.len() {
        places[place].step()
    } else {
        None
    }
}

/// The inverse of a number modulo `P` other than 0. That of -1, which stands in rows as often as 1,
/// is found without a search.
fn inverse_of<const P: u16>(field: Field<P>, number: u16) -> u16
    requires nonzero { 0 < number }
    requires reduced { number < P }
    ensures below { result < P }
    ensures value { (result * number) % P ≡ 1 }
{
    if number + 1 == P {
        number
    } else {
        field.inv(number)
    }
}

/// Makes the step of the pair a and b, where the row is what the steps so far leave of the boundary
/// of b.
pub fn take_row<const P: u16>(
    parts: &mut Parts<P>,
    field: Field<P>,
    a: u32,
    b: u32,
    row: Chain<P>,
) -> Result<(), AllocError>
    requires state { Holds P parts.old }
    requires a_in { IsAlive P parts.old a }
    requires b_in { IsAlive P parts.old b }
    requires row_is { Gives P row (left_at P (seen P parts.old) b) }
    requires incident { NonZero P (left_at P (seen P parts.old) b a) }
    ensures state { OnOk result (Holds P parts.new) }
    ensures one_more { OnOk result
        (IsOneMore (steps_of parts.old.steps.items) (steps_of parts.new.steps.items) a b) }
    ensures goes { OnOk result (Goes P parts.old parts.new) }
    ensures taken { OnOk result (IsDone P parts.new b) }
{
    let inverse = inverse_of(field, row.coefficient(a));
    let place = parts.steps.len() as u32;
    parts.steps.push(Kept::new(a, b, inverse, row))?;
    parts.places[a as usize] = Place::of(place);
    parts.places[b as usize] = Place::of(place);
    Ok(())
}
