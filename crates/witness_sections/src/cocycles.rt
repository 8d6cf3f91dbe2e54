//! The lines of cocycles.
ghost use Rattle.std.specs.Prelude.{◌≡◌, ◌+◌, ◌<◌, ◌^◌, length, IfOk, IfErr};
ghost use Rattle.witness_sections.specs.Readings.{count_at, cycle_count, cocycles_in, cocycle_lines, ArePassedOf, IsFaultOf, IsWhole, IsCocycleOutcome};

use crate::section::Section;
use crate::tests::{is_dual, is_none};
use chains::Chain;
use field_mod::Field;
use std::alloc::{AllocError, Global};
use witness_types::{Law, WitnessFault};

// The law that a cocycle fails by first: its values on the cycles, then those on boundaries.
fn cocycle_fault<const P: u16>(
    alloc: Global,
    field: Field<P>,
    coboundaries: &[Chain<P>],
    at_cycles: &[Chain<P>],
    cocycle: &Chain<P>,
    index: u32,
) -> Result<Option<Law>, AllocError>
    ensures { IfOk result
        (IsCocycleOutcome P coboundaries.now at_cycles.now cocycle.now index) }
{
    let dual = is_dual(alloc, field, at_cycles, cocycle, index)?;
    if !dual {
        return Ok(Some(Law::Dual));
    }
    let closed = is_none(alloc, field, coboundaries, cocycle)?;
    if !closed {
        return Ok(Some(Law::Cocycle));
    }
    Ok(None)
}

// The lines of the cocycles of one degree: the number of the line behind them, or the first fault.
fn test_cocycles_in<const P: u16>(
    alloc: Global,
    field: Field<P>,
    section: &Section<P>,
    degree: usize,
    line: u64,
) -> Result<u64, WitnessFault>
    requires degree { degree < length section.now.degrees.items }
    requires whole { IsWhole section.now }
    requires room { line + count_at section.now.degrees.items degree < 2 ^ 63 }
    requires few { count_at section.now.degrees.items degree < 2 ^ 32 }
    ensures ok { IfOk result (ArePassedOf section.now (cocycles_in degree) line) }
    ensures next { IfOk result (λ next. next ≡ line + count_at section.now.degrees.items degree) }
    ensures err { IfErr result (IsFaultOf section.now (cocycles_in degree) line) }
{
    let kept = &section.degrees[degree];
    for index in 0..kept.cocycles.len() {
        let fault = cocycle_fault(
            alloc,
            field,
            &section.coboundaries,
            &kept.at_cycles,
            &kept.cocycles[index],
            index as u32,
        )?;
        if let Some(law) = fault {
            return Err(WitnessFault::At {
                line: line + index as u64,
                law,
            });
        }
    }
    Ok(line + kept.cocycles.len() as u64)
}

/// The lines of all cocycles: the number of the line behind them, or the first fault.
pub(crate) fn test_cocycles<const P: u16>(
    alloc: Global,
    field: Field<P>,
    section: &Section<P>,
    line: u64,
) -> Result<u64, WitnessFault>
    requires whole { IsWhole section.now }
    requires room { line + cycle_count section.now.degrees.items < 2 ^ 63 }
    requires few { cycle_count section.now.degrees.items < 2 ^ 32 }
    ensures ok { IfOk result (ArePassedOf section.now cocycle_lines line) }
    ensures next { IfOk result (λ next. next ≡ line + cycle_count section.now.degrees.items) }
    ensures err { IfErr result (IsFaultOf section.now cocycle_lines line) }
{
    let mut next = line;
    for degree in 0..section.degrees.len() {
        next = test_cocycles_in(alloc, field, section, degree, next)?;
    }
    Ok(next)
}
