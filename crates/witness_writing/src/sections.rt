//! The lines of a pair.
ghost use Rattle.std.specs.Prelude.{◌≡◌, ◌++◌, ◌≤◌, List, length, OnOk};
ghost use Rattle.std.specs.List.{Contains};
ghost use Rattle.elem_cubes.specs.Cells.{Factor};
ghost use Rattle.witness_writing.specs.Runs.{cycles_text, cocycles_text, homotopies_text};
ghost use Rattle.witness_writing.specs.Runs.{section_text, IsSectionOf};

use crate::cells::{both, faces, kept, number_in};
use cell_complex::Numbered;
use chains::Chain;
use cube_sets::CubeSet;
use std::alloc::{AllocError as NoMemory, Global};
use witness_lines::put_chain_line;
use witness_types::PairPart;

// Adds the lines of cycles.
fn put_cycles<const P: u16>(to: &mut Vec<u8>, cycles: &[(u8, Chain<P>)]) -> Result<(), NoMemory>
    ensures { OnOk result (to.new.items ≡ to.old.items ++ cycles_text cycles.now) }
{
    for place in 0..cycles.len() {
        let degree = u32::from(cycles[place].0);
        put_chain_line(to, b"z", &[degree], &cycles[place].1)?;
    }
    Ok(())
}

// Adds the lines of their cocycles.
fn put_cocycles<const P: u16>(
    to: &mut Vec<u8>,
    cycles: &[(u8, Chain<P>)],
    cocycles: &[Chain<P>],
) -> Result<(), NoMemory>
    requires { length cocycles.now ≡ length cycles.now }
    ensures { OnOk result (to.new.items ≡ to.old.items ++ cocycles_text cycles.now cocycles.now) }
{
    for place in 0..cocycles.len() {
        let degree = u32::from(cycles[place].0);
        put_chain_line(to, b"c", &[degree], &cocycles[place])?;
    }
    Ok(())
}

// Adds the lines of the chains of some of all cells.
fn put_homotopies<const P: u16>(
    to: &mut Vec<u8>,
    all: &Numbered,
    cells: &Numbered,
    chains: &[Chain<P>],
) -> Result<(), NoMemory>
    requires count { length chains.now ≡ length cells.now }
    requires inside { (q : List Factor) → Contains cells.now q → Contains all.now q }
    requires few { length all.now ≤ 4096 }
    ensures { OnOk result (to.new.items ≡ to.old.items
        ++ homotopies_text all.now cells.now chains.now) }
{
    for place in 0..cells.len() {
        let number = number_in(all, &cells.cell(place));
        put_chain_line(to, b"h", &[number], &chains[place as usize])?;
    }
    Ok(())
}

/// Adds the lines of the pair of x and a, but for the one that names it.
pub(crate) fn put_section<const P: u16>(
    alloc: Global,
    to: &mut Vec<u8>,
    x: &CubeSet,
    a: &CubeSet,
    part: &PairPart<P>,
) -> Result<(), NoMemory>
    requires { IsSectionOf x.now a.now part.now }
    ensures { OnOk result (to.new.items ≡ to.old.items
        ++ section_text x.now.cells a.now.cells part.now) }
{
    let set = both(alloc, x, a)?;
    let all = faces(alloc, &set)?;
    let cells = kept(alloc, x, a)?;
    put_cycles(to, &part.cycles)?;
    put_cocycles(to, &part.cycles, &part.cocycles)?;
    put_homotopies(to, &all, &cells, &part.homotopy)?;
    Ok(())
}
