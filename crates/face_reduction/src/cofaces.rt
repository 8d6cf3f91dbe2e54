//! Of each generator how many of its cofaces are left, and the sum of their numbers: where one is
//! left, the sum tells which.
ghost use Rattle.std.specs.Prelude.{◌≡◌, ◌≢◌, ℕ, ◌<◌, ◌+◌, ◌-◌, ◌%◌, ◌*◌, ◌^◌, true, length, OnOk, IfOk};
ghost use Rattle.field_mod.specs.Modular.{Same};
ghost use Rattle.chains.specs.Terms.{coefficient};
ghost use Rattle.excision.specs.Left.{is_one_of};
ghost use Rattle.face_reduction.specs.Cofaces as told;
ghost use Rattle.face_reduction.specs.Cofaces.{AddsAt, CountCofaces, WaitsIfFree, count_at, only_at, sum_at};

use crate::front::Front;
use algebraic_reduction::Log;
use chains::Chain;
use std::alloc::{AllocError, Global};

/// How many numbers, and their sum, both modulo 2^32.
pub(crate) type Tally = (u32, u32);

fn no_tallies(alloc: Global, count: u32) -> Result<Vec<Tally>, AllocError>
    ensures count { IfOk result (λ v. length v.items ≡ count) }
    ensures none { IfOk result (λ v. (n : ℕ) → (count_at v.items n ≡ 0) × (sum_at v.items n ≡ 0)) }
{
    let mut tallies = Vec::with_capacity(alloc, count as usize)?;
    for _index in 0..count {
        tallies.push((0, 0))?;
    }
    Ok(tallies)
}

// The cofaces that a log leaves, of each generator.
pub(crate) fn cofaces_of<const P: u16>(
    alloc: Global,
    log: &Log<P>,
) -> Result<Vec<Tally>, AllocError>
    requires { length log.now.complex.boundaries < 2 ^ 32 }
    ensures { IfOk result (λ v. CountCofaces log.now.complex log.now.steps v.items) }
{
    let complex = log.complex();
    let mut tallies = no_tallies(alloc, complex.len())?;
    for coface in 0..complex.len() {
        if log.alive(coface) {
            change_faces(&mut tallies, complex.boundary(coface), 1, coface);
        }
    }
    Ok(tallies)
}

// One coface less at all generators that its boundary names.
pub(crate) fn take_coface<const P: u16>(tallies: &mut [Tally], boundary: &Chain<P>, coface: u32)
    ensures { AddsAt boundary.now (2 ^ 32 - 1) ((2 ^ 32 - coface) % 2 ^ 32) tallies.old
        tallies.new }
{
    change_faces(tallies, boundary, u32::MAX, 0u32.wrapping_sub(coface));
}

// Changes the tallies at all generators that a boundary names.
fn change_faces<const P: u16>(tallies: &mut [Tally], boundary: &Chain<P>, one: u32, number: u32)
    ensures { AddsAt boundary.now one number tallies.old tallies.new }
{
    for place in 0..boundary.len() {
        let (face, _) = boundary.term(place);
        change_at(tallies, face, one, number);
    }
}

fn change_at(tallies: &mut [Tally], face: u32, one: u32, number: u32)
    ensures length { length tallies.new ≡ length tallies.old }
    ensures count { face < length tallies.old → Same (2 ^ 32)
        (count_at tallies.new face) (count_at tallies.old face + one) }
    ensures sum { face < length tallies.old → Same (2 ^ 32)
        (sum_at tallies.new face) (sum_at tallies.old face + number) }
    ensures counts { (n : ℕ) → n ≢ face → count_at tallies.new n ≡ count_at tallies.old n }
    ensures sums { (n : ℕ) → n ≢ face → sum_at tallies.new n ≡ sum_at tallies.old n }
{
    let place = face as usize;
    if place < tallies.len() {
        let (count, sum) = tallies[place];
        tallies[place] = (count.wrapping_add(one), sum.wrapping_add(number));
    }
}

// The only coface that is left of a generator, if one alone is.
pub(crate) fn only_coface(tallies: &[Tally], face: u32) -> Option<u32>
    ensures { result ≡ only_at tallies.now face }
{
    let place = face as usize;
    if place < tallies.len() {
        only_of(tallies[place].0, tallies[place].1)
    } else {
        None
    }
}

fn only_of(count: u32, sum: u32) -> Option<u32>
    ensures { result ≡ told.only_of count sum }
{
    if count == 1 { Some(sum) } else { None }
}

// Those generators wait that a boundary names and of which one coface is left.
pub(crate) fn wake_faces<const P: u16>(
    boundary: &Chain<P>,
    tallies: &[Tally],
    waiting: &mut Front,
) -> Result<(), AllocError>
    ensures kept { OnOk result ((k : ℕ) → is_one_of waiting.old k ≡ true
        → is_one_of waiting.new k ≡ true) }
    ensures woken { OnOk result ((k : ℕ) → coefficient boundary.now k ≢ 0
        → WaitsIfFree tallies.now waiting.new k) }
{
    for place in 0..boundary.len() {
        let (face, _) = boundary.term(place);
        wake(tallies, face, waiting)?;
    }
    Ok(())
}

/// Those generators below a number wait that a boundary names and of which one coface is left.
pub(crate) fn wake_before<const P: u16>(
    boundary: &Chain<P>,
    tallies: &[Tally],
    waiting: &mut Front,
    below: u32,
) -> Result<(), AllocError> {
    for place in 0..boundary.len() {
        let (face, _) = boundary.term(place);
        if face < below && only_coface(tallies, face).is_some() {
            waiting.push(face)?;
        }
    }
    Ok(())
}

// Where the order of all matters, all wait that may come to be free.
fn wake(tallies: &[Tally], face: u32, waiting: &mut Front) -> Result<(), AllocError>
    ensures kept { OnOk result ((k : ℕ) → is_one_of waiting.old k ≡ true
        → is_one_of waiting.new k ≡ true) }
    ensures woken { OnOk result (WaitsIfFree tallies.now waiting.new face) }
{
    if !waiting.is_newest_first() || only_coface(tallies, face).is_some() {
        waiting.push(face)?;
    }
    Ok(())
}

// Those generators wait of which one coface is left, the least in front.
pub(crate) fn wake_all(
    alloc: Global,
    tallies: &[Tally],
    count: u32,
    newest_first: bool,
) -> Result<Front, AllocError>
    ensures { IfOk result (λ w. (k : ℕ) → k < count → WaitsIfFree tallies.now w k) }
{
    let room = if newest_first { 0 } else { count as usize };
    let mut waiting = Front::new(alloc, room, newest_first)?;
    for face in 0..count {
        wake_last(tallies, face, &mut waiting)?;
    }
    Ok(waiting)
}

fn wake_last(tallies: &[Tally], face: u32, waiting: &mut Front) -> Result<(), AllocError>
    ensures kept { OnOk result ((k : ℕ) → is_one_of waiting.old k ≡ true
        → is_one_of waiting.new k ≡ true) }
    ensures woken { OnOk result (WaitsIfFree tallies.now waiting.new face) }
{
    if !waiting.is_newest_first() || only_coface(tallies, face).is_some() {
        waiting.push_last(face)?;
    }
    Ok(())
}
