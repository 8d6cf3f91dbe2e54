//! Arithmetic modulo a prime of the table.
ghost use Rattle.std.specs.Prelude.{◌≡◌, ◌+◌, ◌-◌, ◌*◌, ◌%◌, ◌<◌, ◌↔◌, IsSome, pos};
ghost use Rattle.std.specs.Int.{int_rem_euclid};
ghost use Rattle.field_mod.specs.Moduli.{IsModulus};

use crate::moduli::MODULI;

/// The field of `P` elements, which are the numbers 0 to `P - 1`. A value of this type says that
/// `P` is in the table of moduli, and so that each number from 1 to `P - 1` has an inverse. No call
/// takes memory.
#[derive(Clone, Copy)]
pub struct Field<const P: u16> {
    seal: (),
    ghost listed: { IsModulus P },
}

impl<const P: u16> Field<P> {
    /// The field, or `None` exactly where `P` is not in the table of moduli.
    pub fn get() -> Option<Field<P>>
        ensures { IsSome result ↔ IsModulus P }
    {
        if MODULI.contains(&P) {
            Some(Field { seal: () })
        } else {
            None
        }
    }

    /// The field of a modulus that is known to be in the table.
    pub fn of_table() -> Field<P>
        requires { IsModulus P }
    {
        Field { seal: () }
    }

    /// The sum of two elements.
    pub fn add(self, a: u16, b: u16) -> u16
        requires left { a < P }
        requires right { b < P }
        ensures below { result < P }
        ensures value { result ≡ (a + b) % P }
    {
        (a + b) % P
    }

    /// The difference of two elements.
    pub fn sub(self, a: u16, b: u16) -> u16
        requires left { a < P }
        requires right { b < P }
        ensures below { result < P }
        ensures value { result ≡ (a + (P - b)) % P }
    {
        (a + (P - b)) % P
    }

    /// The product of two elements.
    pub fn mul(self, a: u16, b: u16) -> u16
        requires left { a < P }
        requires right { b < P }
        ensures below { result < P }
        ensures value { result ≡ (a * b) % P }
    {
        (a * b) % P
    }

    /// The negative of an element.
    pub fn neg(self, a: u16) -> u16
        requires { a < P }
        ensures below { result < P }
        ensures value { result ≡ (P - a) % P }
    {
        (P - a) % P
    }

    /// The inverse of an element other than 0.
    pub fn inv(self, a: u16) -> u16
        requires nonzero { 0 < a }
        requires reduced { a < P }
        ensures positive { 0 < result }
        ensures below { result < P }
        ensures value { (result * a) % P ≡ 1 }
    {
        for b in 1..P {
            if (b * a) % P == 1 {
                return b;
            }
        }
        unreachable!()
    }

    /// The element that a whole number is modulo `P`: its remainder, from 0 to `P - 1`.
    pub fn of_i64(self, n: i64) -> u16
        ensures below { result < P }
        ensures value { pos result ≡ int_rem_euclid n (pos P) }
    {
        n.rem_euclid(P as i64) as u16
    }
}
