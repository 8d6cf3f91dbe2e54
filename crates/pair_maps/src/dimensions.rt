//! The known dimensions of a map and of its sets are equal, or a file is refused.
ghost use Rattle.std.specs.Prelude.{◌≡◌, IfOk, option_copied};
ghost use Rattle.cube_sets.specs.Sets.{dimensions_agree};
ghost use Rattle.loading.specs.Steps.{IsDue};
ghost use Rattle.loading.specs.TwoSets.{second_name};
ghost use Rattle.pair_maps.specs.Inputs.{known, with_known, with_pair, agreed, agreeing, IsFullPair, IsFitting};

use crate::inputs::{MapFiles, PairMap};
use cube_maps::CubeMap;
use cube_sets::CubeSet;
use faults::{Fault, Name};
use loading::{TwoSets, copy_of};
use std::alloc::Global;

// Whether two dimensions are equal, or one of them is unknown.
fn agree(before: u8, found: u8) -> bool
    ensures { result ≡ dimensions_agree before found }
{
    before == found || before == 0 || found == 0
}

// The first known one of two dimensions.
fn known(first: u8, second: u8) -> u8
    ensures { result ≡ known first second }
{
    if first == 0 { second } else { first }
}

// The first known one of a dimension and that of the set of a file, where they agree.
fn with_known(alloc: Global, before: u8, name: &Name, set: &CubeSet) -> Result<u8, Fault>
    ensures { IsDue (with_known before name.now set.now) result }
{
    let found = set.dimension();
    if !agree(before, found) {
        let name = copy_of(alloc, name)?;
        return Err(Fault::Dimension {
            name,
            found,
            before,
        });
    }
    Ok(known(before, found))
}

// The file of a subset, or that of its set where there is none.
fn second_name<'a>(x: &'a Name, a: Option<&'a Name>) -> &'a Name
    ensures { result.now ≡ second_name x.now (option_copied a.entry) }
{
    match a {
        Some(name) => name,
        None => x,
    }
}

// The same of a set, then of its subset, whose file may be absent.
fn with_pair(
    alloc: Global,
    before: u8,
    x: &Name,
    a: Option<&Name>,
    sets: &TwoSets,
) -> Result<u8, Fault>
    ensures { IsDue (with_pair before x.now (option_copied a.entry) sets.now) result }
{
    let with_x = with_known(alloc, before, x, &sets.x)?;
    with_known(alloc, with_x, second_name(x, a), &sets.y)
}

// The first known dimension of a map and its sets, where all that are known are equal; else the
// refusal of the first file whose dimension differs.
fn agreed(
    alloc: Global,
    files: &MapFiles,
    map: &CubeMap,
    domain: &TwoSets,
    range: &TwoSets,
) -> Result<u8, Fault>
    ensures { IsDue (agreed files.now map.now domain.now range.now) result }
{
    let before = map.dimension();
    let with_domain = with_pair(alloc, before, &files.x, files.a.as_ref(), domain)?;
    with_pair(alloc, with_domain, &files.y, files.b.as_ref(), range)
}

/// The map of the pairs, where all known dimensions are equal; else the refusal of the first file
/// whose dimension differs.
pub(crate) fn agreeing(
    alloc: Global,
    files: &MapFiles,
    map: CubeMap,
    domain: TwoSets,
    range: TwoSets,
) -> Result<PairMap, Fault>
    requires domain { IsFullPair domain }
    requires range { IsFullPair range }
    ensures due { IsDue (agreeing files.now map domain range) result }
    ensures fits { IfOk result IsFitting }
{
    let _known = agreed(alloc, files, &map, &domain, &range)?;
    let TwoSets { x, y: a } = domain;
    let TwoSets { x: y, y: b } = range;
    Ok(PairMap { map, x, a, y, b })
}
