//! How it is told that an inclusion is not invertible.
ghost use Rattle.std.specs.Prelude.{◌≡◌, IfOk};
ghost use Rattle.chains.specs.Terms.{IsNormal};
ghost use Rattle.cell_complex.specs.Numbering.{cell_terms};
ghost use Rattle.induced_map.specs.Within.{AreWithin};
ghost use Rattle.index_part.specs.Made.{IsSideTold, IsTold, HasNumbersOf, IsOfNumbers};

use cell_complex::Numbered;
use chains::Chain;
use faults::{CellChain, Fault, Terms};
use index_map::{IndexFault, Side};
use std::alloc::{AllocError as NoMemory, Global};

/// Why an inclusion is not invertible, with the cells of the two pairs in place of their numbers.
pub(crate) fn told<const P: u16>(
    alloc: Global,
    domain_cells: &Numbered,
    range_cells: &Numbered,
    fault: &IndexFault<P>,
) -> Result<Fault, NoMemory>
    requires { IsOfNumbers P domain_cells.now range_cells.now fault.now }
    ensures { IfOk result (IsTold P domain_cells.now range_cells.now fault.now) }
{
    match fault {
        IndexFault::NotInvertible { degree, side } => {
            told_side(alloc, domain_cells, range_cells, *degree, side)
        }
        IndexFault::NoMemory => Ok(Fault::OutOfMemory),
    }
}

// A killed cycle or a missed cocycle of a degree as it is told.
fn told_side<const P: u16>(
    alloc: Global,
    domain_cells: &Numbered,
    range_cells: &Numbered,
    degree: u8,
    side: &Side<P>,
) -> Result<Fault, NoMemory>
    requires { HasNumbersOf P domain_cells.now range_cells.now side.now }
    ensures { IfOk result (IsSideTold P domain_cells.now range_cells.now degree side.now) }
{
    match side {
        Side::Killed(cycle) => {
            let chain = chain_of_cells(alloc, domain_cells, cycle)?;
            Ok(Fault::Killed { degree, chain })
        }
        Side::Missed(cocycle) => {
            let chain = chain_of_cells(alloc, range_cells, cocycle)?;
            Ok(Fault::Missed { degree, chain })
        }
    }
}

// A chain of numbers of cells, with the cells in place of these.
fn chain_of_cells<const P: u16>(
    alloc: Global,
    cells: &Numbered,
    chain: &Chain<P>,
) -> Result<CellChain, NoMemory>
    requires { AreWithin cells.now chain.now }
    ensures named { IfOk result (λ named. named ≡ cell_terms cells.now chain.now) }
    ensures normal { IsNormal P chain.now }
{
    let mut named = Vec::new(alloc);
    for i in 0..chain.len() {
        let (number, coefficient) = chain.term(i);
        named.push((cells.cell(number), coefficient))?;
    }
    Ok(Terms::of(named))
}
