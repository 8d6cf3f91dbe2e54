//! The lines of the section of a pair.
ghost use Rattle.std.specs.Prelude.{◌≡◌, ◌+◌, ◌<◌, ◌≤◌, ◌^◌, length, IfOk, IfErr};
ghost use Rattle.cell_complex.specs.Numbering.{IsOfPair};
ghost use Rattle.witness_laws.specs.Inputs.{all_cells, relative_cells};
ghost use Rattle.witness_types.specs.Parts.{pair_tables};
ghost use Rattle.witness_sections.specs.Readings.{IsReadable};
ghost use Rattle.witness_testing.specs.Sides.{SidePassed, IsSideFault};

use cell_complex::Numbered;
use cube_sets::CubeSet;
use field_mod::Field;
use std::alloc::Global;
use witness_sections::{section_of, test_section};
use witness_types::{PairPart, WitnessFault};

/// The lines of the section of a pair, of which the first has this number: the number of the line
/// behind them, or the first line and law that fail. The cells of the pair are given, and its
/// relative cells.
pub(crate) fn test_side<const P: u16>(
    alloc: Global,
    field: Field<P>,
    x: &CubeSet,
    a: &CubeSet,
    cells: &Numbered,
    kept: &Numbered,
    part: &PairPart<P>,
    top: u8,
    line: u64,
) -> Result<u64, WitnessFault>
    requires cells { cells.now ≡ all_cells x.now.cells a.now.cells }
    requires relative { kept.now ≡ relative_cells x.now.cells a.now.cells }
    requires pair { IsOfPair kept.now }
    requires readable { length part.now.cycles.items < 2 ^ 32
        → IsReadable (length cells.now) (length kept.now) part.now }
    requires room { line ≤ 2 ^ 40 }
    ensures ok { IfOk result
        (SidePassed P x.now.cells a.now.cells (pair_tables top part.now) line) }
    ensures next { IfOk result (λ next. next ≤ line + 2 ^ 36) }
    ensures few { IfOk result (λ next. length part.now.cycles.items < 2 ^ 32) }
    ensures err { IfErr result
        (IsSideFault P x.now.cells a.now.cells (pair_tables top part.now) line) }
{
    if part.cycles.len() > u32::MAX as usize {
        return Err(WitnessFault::NoMemory);
    }
    let section = section_of(alloc, field, x, a, cells, kept, part, top)?;
    let next = test_section(alloc, field, &section, line)?;
    Ok(next)
}
