//! The lines of cycles.
ghost use Rattle.std.specs.Prelude.{◌≡◌, ◌+◌, ◌<◌, ◌^◌, length, IfOk, IfErr};
ghost use Rattle.witness_sections.specs.Readings.{count_at, cycle_count, cycles_in, cycle_lines, ArePassedOf, IsFaultOf};

use crate::section::Section;
use crate::tests::is_closed;
use field_mod::Field;
use std::alloc::Global;
use witness_types::{Law, WitnessFault};

// The lines of the cycles of one degree: the number of the line behind them, or the first fault.
fn test_cycles_in<const P: u16>(
    alloc: Global,
    field: Field<P>,
    section: &Section<P>,
    degree: usize,
    line: u64,
) -> Result<u64, WitnessFault>
    requires degree { degree < length section.now.degrees.items }
    requires room { line + count_at section.now.degrees.items degree < 2 ^ 63 }
    ensures ok { IfOk result (ArePassedOf section.now (cycles_in degree) line) }
    ensures next { IfOk result (λ next. next ≡ line + count_at section.now.degrees.items degree) }
    ensures err { IfErr result (IsFaultOf section.now (cycles_in degree) line) }
{
    let cycles = &section.degrees[degree].cycles;
    for index in 0..cycles.len() {
        let closed = is_closed(alloc, field, &section.complex, &cycles[index])?;
        if !closed {
            return Err(WitnessFault::At {
                line: line + index as u64,
                law: Law::Cycle,
            });
        }
    }
    Ok(line + cycles.len() as u64)
}

/// The lines of all cycles: the number of the line behind them, or the first fault.
pub(crate) fn test_cycles<const P: u16>(
    alloc: Global,
    field: Field<P>,
    section: &Section<P>,
    line: u64,
) -> Result<u64, WitnessFault>
    requires room { line + cycle_count section.now.degrees.items < 2 ^ 63 }
    ensures ok { IfOk result (ArePassedOf section.now cycle_lines line) }
    ensures next { IfOk result (λ next. next ≡ line + cycle_count section.now.degrees.items) }
    ensures err { IfErr result (IsFaultOf section.now cycle_lines line) }
{
    let mut next = line;
    for degree in 0..section.degrees.len() {
        next = test_cycles_in(alloc, field, section, degree, next)?;
    }
    Ok(next)
}
