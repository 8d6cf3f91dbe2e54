//! Laws over the definitions alone, each the contract of a function that does nothing.
ghost use Rattle.std.specs.Prelude.{◌≡◌};
ghost use Rattle.field_mod.specs.Moduli.{ModuliAreFields, moduli};
ghost use Rattle.field_mod.specs.Sums.{SumsAreLinear, SumsChangeOrder};

use crate::moduli::MODULI;

/// The table of the program is that of the definitions, in the same order.
pub fn moduli_are_the_table()
    ensures { MODULI ≡ moduli }
{}

/// Each modulus of the table is a prime: every number that is not 0 modulo it has an inverse.
#[tactic(auto, using(crate::proofs::Table::is_field))]
pub fn moduli_are_fields()
    ensures { ModuliAreFields }
{}

/// The sum of a combination is the combination of the sums.
#[tactic(auto, using(crate::proofs::Sums::linear))]
pub fn sums_are_linear()
    ensures { SumsAreLinear }
{}

/// A double sum may be taken in either order.
#[tactic(auto, using(crate::proofs::Sums::swap))]
pub fn sums_change_order()
    ensures { SumsChangeOrder }
{}
