//! Witnesses of version 1 are written.
ghost use Rattle.std.specs.Prelude.{◌≡◌, ◌∷◌, [], ◌++◌, ◌≤◌, length, OnOk, IfOk, IfSome, Some, IsTrue};
ghost use Rattle.cube_sets.specs.Sets.{dimensions_agree};
ghost use Rattle.map_checks.specs.Faults.{HasNoSetFault, together};
ghost use Rattle.witness_laws.specs.Inputs.{all_cells};
ghost use Rattle.witness_laws.specs.Tables.{tables_format};
ghost use Rattle.witness_types.specs.Inputs.{given_of, first_known, IsWitnessInput, IsWithinTables};
ghost use Rattle.witness_types.specs.Parts.{IsInOrder, map_part, read, tables_of};
ghost use Rattle.witness_types.specs.Texts.{IsWritable, tables_text};
ghost use Rattle.witness_writing.specs.Runs.{first_text, pair_text, pairs_text, images_text};
ghost use Rattle.witness_writing.specs.Runs.{map_text, IsSectionOf, IsOfValues};

use crate::cells::both;
use crate::matrices::put_matrices;
use crate::sections::put_section;
use crate::values::put_values;
use cube_maps::CubeMap;
use cube_sets::CubeSet;
use field_mod::Field;
use itoa::Buffer;
use std::alloc::{AllocError as NoMemory, Global};
use witness_types::{Input, MapPart, PairPart};

/// The text of a witness of version 1. The parts are those of a text for this input that fails by
/// none of the laws `Text`, `Header` and `Cell`.
pub fn write_witness<const P: u16>(
    alloc: Global,
    _field: Field<P>,
    input: &Input,
    domain: &PairPart<P>,
    map: Option<&MapPart<P>>,
) -> Result<Vec<u8>, NoMemory>
    requires input { IsWitnessInput input.now }
    requires limits { IsWithinTables (given_of input.now) }
    requires order { IsInOrder (given_of input.now).top domain.now }
    requires range_order { IfSome map (λ m. IsInOrder (given_of input.now).top m.now.range) }
    requires parts { IsWritable (tables_format P (given_of input.now)) (tables_of
        (given_of input.now) domain.now (read (λ m. map_part (given_of input.now) m.now) map)) }
    ensures { IfOk result (λ bytes. bytes.items ≡ tables_text P input.now
        (tables_of (given_of input.now) domain.now
        (read (λ m. map_part (given_of input.now) m.now) map.entry))) }
{
    match input {
        Input::Pair { x, a } => pair_file(alloc, x, a, domain),
        Input::Map {
            map: cubes,
            x,
            a,
            y,
            b,
        } => {
            let Some(part) = map else {
                unreachable!();
            };
            see_dimensions(cubes, x, a, y, b);
            map_file(alloc, cubes, x, a, y, b, domain, part)
        }
    }
}

// The dimension of a map of sets is small.
#[tactic(auto, using(crate::proofs::Whole::few_known))]
fn see_dimensions(map: &CubeMap, x: &CubeSet, a: &CubeSet, y: &CubeSet, b: &CubeSet)
    ensures { first_known (map.now.dimension ∷ x.now.dimension ∷ a.now.dimension
        ∷ y.now.dimension ∷ b.now.dimension ∷ []) ≤ 200 }
{
    let _map = map.dimension();
    let _x = x.dimension();
    let _a = a.dimension();
    let _y = y.dimension();
    let _b = b.dimension();
}

// The text for a pair.
fn pair_file<const P: u16>(
    alloc: Global,
    x: &CubeSet,
    a: &CubeSet,
    part: &PairPart<P>,
) -> Result<Vec<u8>, NoMemory>
    requires { IsSectionOf x.now a.now part.now }
    ensures { IfOk result (λ bytes. bytes.items
        ≡ first_text P ++ pair_text x.now.cells a.now.cells part.now) }
{
    let mut text = Vec::new(alloc);
    put_first_lines(&mut text, P)?;
    put_pair(alloc, &mut text, x, a, part)?;
    Ok(text)
}

// The text for a map.
fn map_file<const P: u16>(
    alloc: Global,
    map: &CubeMap,
    x: &CubeSet,
    a: &CubeSet,
    y: &CubeSet,
    b: &CubeSet,
    domain: &PairPart<P>,
    part: &MapPart<P>,
) -> Result<Vec<u8>, NoMemory>
    requires domain { IsSectionOf x.now a.now domain.now }
    requires range { IsSectionOf y.now b.now part.now.range }
    requires faultless { HasNoSetFault map.now.named x.now.cells a.now.cells y.now.cells
        b.now.cells }
    requires part { IsOfValues map.now.named (together x.now.cells a.now.cells)
        (together y.now.cells b.now.cells) part.now }
    requires degrees { length part.now.matrices.items ≤ 255 }
    ensures { IfOk result (λ bytes. bytes.items ≡ first_text P ++ map_text map.now.named
        x.now.cells a.now.cells y.now.cells b.now.cells domain.now part.now) }
{
    let mut text = Vec::new(alloc);
    put_first_lines(&mut text, P)?;
    put_pairs(alloc, &mut text, x, a, y, b, domain, &part.range)?;
    put_images(alloc, &mut text, map, x, a, y, b, part)?;
    Ok(text)
}

// Adds the lines of the version and of the modulus.
#[tactic(auto, using(witness_laws::proofs::Numerals::printed))]
fn put_first_lines(to: &mut Vec<u8>, modulus: u16) -> Result<(), NoMemory>
    ensures { OnOk result (to.new.items ≡ to.old.items ++ first_text modulus) }
{
    let mut buffer = Buffer::new();
    to.extend_from_slice(b"chomp witness 1\nmod ")?;
    to.extend_from_slice(buffer.format(modulus).as_bytes())?;
    to.extend_from_slice(b"\n")?;
    Ok(())
}

// Adds the lines of a pair, to the end.
fn put_pair<const P: u16>(
    alloc: Global,
    to: &mut Vec<u8>,
    x: &CubeSet,
    a: &CubeSet,
    part: &PairPart<P>,
) -> Result<(), NoMemory>
    requires { IsSectionOf x.now a.now part.now }
    ensures { OnOk result (to.new.items ≡ to.old.items
        ++ pair_text x.now.cells a.now.cells part.now) }
{
    to.extend_from_slice(b"claim pair\npair domain\n")?;
    put_section(alloc, to, x, a, part)?;
    to.extend_from_slice(b"end\n")?;
    Ok(())
}

// Adds the lines of the two pairs of a map.
fn put_pairs<const P: u16>(
    alloc: Global,
    to: &mut Vec<u8>,
    x: &CubeSet,
    a: &CubeSet,
    y: &CubeSet,
    b: &CubeSet,
    domain: &PairPart<P>,
    range: &PairPart<P>,
) -> Result<(), NoMemory>
    requires domain { IsSectionOf x.now a.now domain.now }
    requires range { IsSectionOf y.now b.now range.now }
    ensures { OnOk result (to.new.items ≡ to.old.items ++ pairs_text x.now.cells a.now.cells
        y.now.cells b.now.cells domain.now range.now) }
{
    to.extend_from_slice(b"claim map\npair domain\n")?;
    put_section(alloc, to, x, a, domain)?;
    to.extend_from_slice(b"pair range\n")?;
    put_section(alloc, to, y, b, range)?;
    Ok(())
}

// Adds the lines of values, images and matrices, to the end.
fn put_images<const P: u16>(
    alloc: Global,
    to: &mut Vec<u8>,
    map: &CubeMap,
    x: &CubeSet,
    a: &CubeSet,
    y: &CubeSet,
    b: &CubeSet,
    part: &MapPart<P>,
) -> Result<(), NoMemory>
    requires agree { IsTrue (dimensions_agree x.now.dimension a.now.dimension) }
    requires range_agree { IsTrue (dimensions_agree y.now.dimension b.now.dimension) }
    requires few { length (all_cells x.now.cells a.now.cells) ≤ 4096 }
    requires range_few { length (all_cells y.now.cells b.now.cells) ≤ 4096 }
    requires faultless { HasNoSetFault map.now.named x.now.cells a.now.cells y.now.cells
        b.now.cells }
    requires part { IsOfValues map.now.named (together x.now.cells a.now.cells)
        (together y.now.cells b.now.cells) part.now }
    requires degrees { length part.now.matrices.items ≤ 255 }
    ensures { OnOk result (to.new.items ≡ to.old.items ++ images_text map.now.named
        (together x.now.cells a.now.cells) (together y.now.cells b.now.cells) part.now) }
{
    let domain = both(alloc, x, a)?;
    let range = both(alloc, y, b)?;
    to.extend_from_slice(b"values\n")?;
    put_values(alloc, to, map, &domain, &range, part)?;
    to.extend_from_slice(b"matrix\n")?;
    put_matrices(to, &part.matrices)?;
    to.extend_from_slice(b"end\n")?;
    Ok(())
}
