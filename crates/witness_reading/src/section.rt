//! The section of a pair, over the cells of the pair.
ghost use Rattle.std.specs.Prelude.{◌≡◌, ◌-◌, ◌^◌, ◌≤◌, ◌<◌, true, length, IfOk, IfErr};
ghost use Rattle.cube_sets.specs.Sets.{dimensions_agree};
ghost use Rattle.witness_laws.specs.Inputs.{all_cells};
ghost use Rattle.section_reading.specs.Section.{HasSection, StopsSection};
ghost use Rattle.witness_reading.specs.Kinds.{pair_table, pair_numbers, pair_wanted};
ghost use Rattle.witness_reading.specs.Ends.{IfTold};

use crate::cells::{PairCells, pair_cells};
use cube_sets::CubeSet;
use field_mod::Field;
use section_reading::section_due;
use std::alloc::Global;
use witness_runs::Stop;
use witness_types::PairPart;

// The part that the section at the front tells, over these cells of a pair.
fn section_over<'a, const P: u16>(
    alloc: Global,
    field: Field<P>,
    bytes: &'a [u8],
    head: &[u8],
    cells: &PairCells,
    top: u8,
) -> Result<(PairPart<P>, &'a [u8]), Stop>
    requires table { length cells.now.table.items < 2 ^ 32 - 1 }
    requires degrees { top < 255 }
    requires beside { length cells.now.wanted.items ≡ length cells.now.numbers.items }
    ensures ok { IfOk result (λ r. HasSection P head.now top cells.now.table.items
        cells.now.numbers.items cells.now.wanted.items bytes.now
        r.0.cycles.items r.0.cocycles.items r.0.homotopy.items r.1.now) }
    ensures err { IfErr result (StopsSection P head.now top cells.now.table.items
        cells.now.numbers.items cells.now.wanted.items bytes.now) }
{
    section_due(
        alloc,
        field,
        bytes,
        head,
        top,
        &cells.table,
        &cells.numbers,
        &cells.wanted,
    )
}

/// The part of the pair of x and a that the section at the front tells, behind its first line; and
/// what stands behind the section.
pub fn read_section<'a, const P: u16>(
    alloc: Global,
    field: Field<P>,
    bytes: &'a [u8],
    head: &[u8],
    x: &CubeSet,
    a: &CubeSet,
    top: u8,
) -> Result<(PairPart<P>, &'a [u8]), Stop>
    requires agree { dimensions_agree x.now.dimension a.now.dimension ≡ true }
    requires few { length (all_cells x.now.cells a.now.cells) ≤ 4096 }
    requires degrees { top < 255 }
    ensures ok { IfOk result (λ r. HasSection P head.now top
        (pair_table x.now.cells a.now.cells) (pair_numbers x.now.cells a.now.cells)
        (pair_wanted x.now.cells a.now.cells) bytes.now
        r.0.cycles.items r.0.cocycles.items r.0.homotopy.items r.1.now) }
    ensures err { IfErr result (IfTold (StopsSection P head.now top
        (pair_table x.now.cells a.now.cells) (pair_numbers x.now.cells a.now.cells)
        (pair_wanted x.now.cells a.now.cells) bytes.now)) }
{
    let cells = pair_cells(alloc, x, a)?;
    section_over(alloc, field, bytes, head, &cells, top)
}
