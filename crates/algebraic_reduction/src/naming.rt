//! For each generator the steps in whose row it stands: the index of the rows.
ghost use Rattle.std.specs.Prelude.{◌≡◌, ◌≢◌, ℕ, ◌<◌, length, OnOk, IfOk};
ghost use Rattle.chains.specs.Terms.{coefficient};
ghost use Rattle.field_mod.specs.Modular.{NonZero};
ghost use Rattle.algebraic_reduction.specs.Kept.{b_at, row_at};
ghost use Rattle.algebraic_reduction.specs.State.{Names, NamesStay, AreNames};

use crate::generators::Generators;
use crate::kept::Kept;
use chains::Chain;
use std::alloc::{AllocError, Global};

/// Adds the generator to the list at each generator that the row names.
fn name_row<const P: u16>(
    lists: &mut [Generators],
    generator: u32,
    row: &Chain<P>,
) -> Result<(), AllocError>
    ensures stay { OnOk result (NamesStay lists.old lists.new) }
    ensures named { OnOk result ((g : ℕ) → g < length lists.new → coefficient row.now g ≢ 0
        → Names lists.new g generator) }
{
    for index in 0..row.len() {
        let (at, _) = row.term(index);
        let place = at as usize;
        if place < lists.len() {
            lists[place].push(generator)?;
        }
    }
    Ok(())
}

fn empty_lists(alloc: Global, count: u32) -> Result<Vec<Generators>, AllocError>
    ensures { IfOk result (λ v. length v.items ≡ count) }
{
    let mut lists = Vec::with_capacity(alloc, count as usize)?;
    for _index in 0..count {
        lists.push(Generators::new(alloc))?;
    }
    Ok(lists)
}

/// Names the b of each step in the lists at the generators of its row.
fn name_steps<const P: u16>(steps: &[Kept<P>], lists: &mut [Generators]) -> Result<(), AllocError>
    ensures { OnOk result ((i g : ℕ) → i < length steps.now → g < length lists.new
        → NonZero P (row_at steps.now i g) → Names lists.new g (b_at steps.now i)) }
{
    for place in 0..steps.len() {
        let step = &steps[place];
        name_row(lists, step.b(), step.row())?;
    }
    Ok(())
}

/// For each of so many generators the b of the steps in whose row it stands.
pub fn name_rows<const P: u16>(
    alloc: Global,
    steps: &[Kept<P>],
    count: u32,
) -> Result<Vec<Generators>, AllocError>
    ensures { IfOk result (λ v. AreNames P count steps.now v.items) }
{
    let mut lists = empty_lists(alloc, count)?;
    name_steps(steps, &mut lists)?;
    Ok(lists)
}
