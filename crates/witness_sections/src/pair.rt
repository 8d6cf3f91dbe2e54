//! All lines of a pair.
ghost use Rattle.std.specs.Prelude.{◌≡◌, ◌+◌, ◌<◌, ◌^◌, IfOk, IfErr};
ghost use Rattle.witness_sections.specs.Readings.{cycle_count, line_count, section_lines, ArePassedOf, IsFaultOf, IsWhole};

use crate::cocycles::test_cocycles;
use crate::contractions::test_contractions;
use crate::cycles::test_cycles;
use crate::section::Section;
use field_mod::Field;
use std::alloc::Global;
use witness_types::WitnessFault;

/// The lines of a pair, of which the first has this number: the number of the line behind them, or
/// the first line and law that fail.
pub fn test_section<const P: u16>(
    alloc: Global,
    field: Field<P>,
    section: &Section<P>,
    line: u64,
) -> Result<u64, WitnessFault>
    requires whole { IsWhole section.now }
    requires room { line + line_count section.now < 2 ^ 63 }
    requires few { cycle_count section.now.degrees.items < 2 ^ 32 }
    ensures ok { IfOk result (ArePassedOf section.now section_lines line) }
    ensures next { IfOk result (λ next. next ≡ line + line_count section.now) }
    ensures err { IfErr result (IsFaultOf section.now section_lines line) }
{
    let first = test_cycles(alloc, field, section, line + 1)?;
    let second = test_cocycles(alloc, field, section, first)?;
    test_contractions(alloc, field, section, second)
}
