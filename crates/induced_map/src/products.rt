//! Products of cocycles and chains.
ghost use Rattle.std.specs.Prelude.{length, IfOk, OnOk};
ghost use Rattle.homology_basis.specs.Bases.{in_degree};
ghost use Rattle.induced_map.specs.Images.{AddsProducts, AreProducts};
ghost use Rattle.induced_map.specs.Entries.{AreBelow};

use chains::Chain;
use field_mod::Field;
use homology_basis::Basis;
use std::alloc::{AllocError as NoMemory, Global};

/// The products of the cocycles of a degree with some chains over the numbers of the complex,
/// modulo `P`, cocycle after cocycle.
pub fn products_of<const P: u16>(
    alloc: Global,
    field: Field<P>,
    degree: u8,
    range: &Basis<P>,
    chains: &[Chain<P>],
) -> Result<Vec<u16>, NoMemory>
    ensures products { IfOk result (λ entries.
        AreProducts P (in_degree range.now.cocycles degree) chains.now
        (length (in_degree range.now.cycles degree)) entries.items) }
    ensures below { IfOk result (λ entries. AreBelow P entries.items) }
{
    let mut entries = Vec::new(alloc);
    for number in 0..range.dimension(degree) {
        push_products(field, range.cocycle(degree, number), chains, &mut entries)?;
    }
    Ok(entries)
}

// Puts the products of a cochain with some chains behind the others.
fn push_products<const P: u16>(
    field: Field<P>,
    cochain: &Chain<P>,
    chains: &[Chain<P>],
    entries: &mut Vec<u16>,
) -> Result<(), NoMemory>
    requires { AreBelow P entries.old.items }
    ensures products { OnOk result (AddsProducts P cochain.now chains.now (length chains.now)
        entries.old.items entries.new.items) }
    ensures below { OnOk result (AreBelow P entries.new.items) }
{
    for chain in chains {
        entries.push(cochain.dot(field, chain))?;
    }
    Ok(())
}
