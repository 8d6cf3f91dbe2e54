//! Laws that fail, as they are told.
ghost use Rattle.std.specs.Prelude.{◌≡◌, ◌⊎◌};
ghost use Rattle.replay_tool.specs.Refusals.{told_law};

use faults::{Fault, Law, Name};
use std::alloc::Global;
use witness_types::Law as WitnessLaw;

/// The refusal of a witness file by a law on one of its lines.
pub(crate) fn law_fails(alloc: Global, name: &Name, line: u64, law: Law) -> Fault
    ensures { (result ≡ Fault.LawFails name.now line law) ⊎ (result ≡ Fault.OutOfMemory) }
{
    match name.copy(alloc) {
        Ok(name) => Fault::LawFails { name, line, law },
        Err(_) => Fault::OutOfMemory,
    }
}

/// A law by the name that is told.
pub(crate) fn told_law(law: WitnessLaw) -> Law
    ensures { result ≡ told_law law }
{
    match law {
        WitnessLaw::Text => Law::Text,
        WitnessLaw::Header => Law::Header,
        WitnessLaw::Cell => Law::Cell,
        WitnessLaw::Cycle => Law::Cycle,
        WitnessLaw::Dual => Law::Dual,
        WitnessLaw::Cocycle => Law::Cocycle,
        WitnessLaw::Contraction => Law::Contraction,
        WitnessLaw::ValueContraction => Law::ValueContraction,
        WitnessLaw::Carried => Law::Carried,
        WitnessLaw::Augmentation => Law::Augmentation,
        WitnessLaw::Commutes => Law::Commutes,
        WitnessLaw::Matrix => Law::Matrix,
    }
}
