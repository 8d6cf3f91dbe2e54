//! What a witness of a map says of one cell of the domain.
ghost use Rattle.std.specs.Prelude.{◌≡◌, ◌-◌, ◌<◌, ◌^◌, length, IfOk, IfErr};
ghost use Rattle.section_reading.specs.Cell.{HasCell, StopsCell};

use chains::Chain;
use field_mod::Field;
use std::alloc::Global;
use witness_runs::{Stop, chains_due, due_chain, due_vertex};

/// The vertex, the chains of the cells of the value, and the image of a cell.
#[derive(Drop)]
pub struct CellPart<const P: u16> {
    /// A vertex of the value.
    pub vertex: u32,
    /// The chain of each cell of the value, in order.
    pub contraction: Vec<Chain<P>>,
    /// The image of the cell.
    pub image: Chain<P>,
}

/// What stands of a cell at the front, and what follows it. The first table has the kinds of the
/// cells of the value, one more than their dimensions, and 0 for others; the second the kinds of
/// all cells of the range. Beside the number of each cell of the value stands the kind of cells
/// that its chain may name.
pub fn cell_due<'a, const P: u16>(
    alloc: Global,
    field: Field<P>,
    bytes: &'a [u8],
    number: u32,
    value: &[u8],
    numbers: &[u32],
    wanted: &[u8],
    range: &[u8],
    kind: u8,
) -> Result<(CellPart<P>, &'a [u8]), Stop>
    requires value { length value.now < 2 ^ 32 - 1 }
    requires range { length range.now < 2 ^ 32 - 1 }
    requires beside { length wanted.now ≡ length numbers.now }
    ensures ok { IfOk result (λ r. HasCell P number value.now numbers.now wanted.now range.now kind
        bytes.now r.0.vertex r.0.contraction.items r.0.image r.1.now) }
    ensures err { IfErr result
        (StopsCell P number value.now numbers.now wanted.now range.now kind bytes.now) }
{
    let (vertex, behind) = match due_vertex(bytes, number, value, 1) {
        Ok(read) => read,
        Err(miss) => return Err(Stop::at(bytes.len(), miss)),
    };
    let (contraction, last) = chains_due(
        alloc,
        field,
        behind,
        b"g",
        Some(number),
        numbers,
        value,
        wanted,
    )?;
    match due_chain(alloc, field, last, b"f", &[number], range, kind) {
        Ok((image, rest)) => {
            let part = CellPart {
                vertex,
                contraction,
                image,
            };
            Ok((part, rest))
        }
        Err(miss) => Err(Stop::at(last.len(), miss)),
    }
}
