//! Terms as a chain keeps them: up to four in place, more of them in an allocation.
ghost use Rattle.std.specs.Prelude.{◌≡◌, ◌<◌, ◌≤◌, [], length, IfOk, slice_index_or};
ghost use Rattle.chains.specs.Terms.{IsNormal};
ghost use Rattle.chains.specs.Packed.{kept, opened, entry, IsFew, IsOpenedFew};

use crate::terms::Terms;
use field_mod::Field;
use smallvec::SmallVec;
use std::alloc::{AllocError, Global};
use std::mem::size_of;

/// How many terms stand in place.
const FEW: usize = 4;

/// The terms of a chain. Up to four stand in place, coefficients and generators apart; a
/// coefficient fits a byte, since each modulus does.
#[derive(Drop)]
pub enum Packed {
    Few {
        len: u8,
        numbers: [u8; FEW],
        generators: [u32; FEW],
    },
    Many(Box<Terms>),
}

const _: () = prove!(size_of::<Packed>() == 24);

/// The same terms as pairs.
#[derive(Clone, Copy)]
pub enum Opened<'a> {
    InPlace {
        len: usize,
        terms: [(u32, u16); FEW],
    },
    Elsewhere(&'a [(u32, u16)]),
}

impl Opened<'_> {
    /// The terms as a slice.
    pub fn as_slice(&self) -> &[(u32, u16)]
        requires { IsOpenedFew self.now }
        ensures { result.now ≡ opened self.now }
    {
        match self {
            Opened::InPlace { len, terms } => &terms[..*len],
            Opened::Elsewhere(terms) => terms,
        }
    }
}

/// No terms. It takes no memory.
pub fn no_terms() -> Packed
    ensures few { IsFew result }
    ensures none { kept result ≡ [] }
{
    Packed::Few {
        len: 0,
        numbers: [0; FEW],
        generators: [0; FEW],
    }
}

// The coefficient and the generator of the term at a place, 0 and 0 past the end.
fn entry(terms: &[(u32, u16)], place: usize) -> (u8, u32)
    requires { (slice_index_or terms.now place (0, 0)).1 < 256 }
    ensures { result ≡ entry terms.now place }
{
    match terms.get(place) {
        Some((generator, number)) => (*number as u8, *generator),
        None => (0, 0),
    }
}

/// The terms as a chain of the field keeps them.
pub fn pack<const P: u16>(
    alloc: Global,
    field: Field<P>,
    terms: Terms,
) -> Result<Packed, AllocError>
    requires { IsNormal P terms.items }
    ensures few { IfOk result IsFew }
    ensures kept { IfOk result (λ packed. kept packed ≡ terms.items) }
{
    if terms.len() > FEW {
        let many = Box::new(alloc, terms)?;
        return Ok(Packed::Many(many));
    }
    Ok(pack_few(field, &terms))
}

/// The same of terms that are copied.
pub fn pack_copy<const P: u16>(
    alloc: Global,
    field: Field<P>,
    terms: &[(u32, u16)],
) -> Result<Packed, AllocError>
    requires { IsNormal P terms.now }
    ensures few { IfOk result IsFew }
    ensures kept { IfOk result (λ packed. kept packed ≡ terms.now) }
{
    if terms.len() > FEW {
        let copy = SmallVec::from_slice(alloc, terms)?;
        let many = Box::new(alloc, copy)?;
        return Ok(Packed::Many(many));
    }
    Ok(pack_few(field, terms))
}

// No more terms than stand in place.
fn pack_few<const P: u16>(field: Field<P>, terms: &[(u32, u16)]) -> Packed
    requires normal { IsNormal P terms.now }
    requires few { length terms.now ≤ FEW }
    ensures few { IsFew result }
    ensures kept { kept result ≡ terms.now }
{
    let (first, a) = entry(terms, 0);
    let (second, b) = entry(terms, 1);
    let (third, c) = entry(terms, 2);
    let (fourth, d) = entry(terms, 3);
    Packed::Few {
        len: terms.len() as u8,
        numbers: [first, second, third, fourth],
        generators: [a, b, c, d],
    }
}

impl Packed {
    /// The terms as pairs.
    pub fn open(&self) -> Opened<'_>
        requires { IsFew self.now }
        ensures few { IsOpenedFew result }
        ensures opened { opened result ≡ kept self.now }
    {
        match self {
            Packed::Few {
                len,
                numbers,
                generators,
            } => Opened::InPlace {
                len: *len as usize,
                terms: [
                    (generators[0], u16::from(numbers[0])),
                    (generators[1], u16::from(numbers[1])),
                    (generators[2], u16::from(numbers[2])),
                    (generators[3], u16::from(numbers[3])),
                ],
            },
            Packed::Many(terms) => Opened::Elsewhere(terms.as_slice()),
        }
    }

    /// How many terms there are.
    pub fn len(&self) -> usize
        requires { IsFew self.now }
        ensures { result ≡ length (kept self.now) }
    {
        match self {
            Packed::Few { len, .. } => *len as usize,
            Packed::Many(terms) => terms.len(),
        }
    }

    /// The term at a place below `len`.
    pub fn term(&self, place: usize) -> (u32, u16)
        requires few { IsFew self.now }
        requires inside { place < length (kept self.now) }
        ensures { result ≡ slice_index_or (kept self.now) place (0, 0) }
    {
        match self {
            Packed::Few {
                numbers,
                generators,
                ..
            } => (generators[place], u16::from(numbers[place])),
            Packed::Many(terms) => terms[place],
        }
    }

    /// The same terms once more.
    pub fn copy(&self, alloc: Global) -> Result<Packed, AllocError>
        requires { IsFew self.now }
        ensures few { IfOk result IsFew }
        ensures kept { IfOk result (λ packed. kept packed ≡ kept self.now) }
    {
        match self {
            Packed::Few {
                len,
                numbers,
                generators,
            } => Ok(Packed::Few {
                len: *len,
                numbers: *numbers,
                generators: *generators,
            }),
            Packed::Many(terms) => {
                let copy = SmallVec::from_slice(alloc, terms.as_slice())?;
                let many = Box::new(alloc, copy)?;
                Ok(Packed::Many(many))
            }
        }
    }
}
