//! The cocycles of a section: one for each cycle, of its degree.
ghost use Rattle.std.specs.Prelude.{◌≡◌, ◌+◌, ◌-◌, ◌<◌, ◌≤◌, ◌^◌, [], codes, length, map, min, None, IfOk, IfErr};
ghost use Rattle.witness_runs.specs.Runs.{HasRun, NameKinds, StopsRun};
ghost use Rattle.section_reading.specs.Section.{degrees_of, kinds_of};

use chains::Chain;
use field_mod::Field;
use std::alloc::{AllocError, Global};
use witness_runs::{Stop, chains_due};

// The degrees of cycles.
fn degrees_of_cycles<const P: u16>(
    alloc: Global,
    cycles: &[(u8, Chain<P>)],
) -> Result<Vec<u32>, AllocError>
    ensures { IfOk result (λ ds. ds.items ≡ degrees_of cycles.now) }
{
    let mut degrees = Vec::new(alloc);
    for place in 0..cycles.len() {
        degrees.push(u32::from(cycles[place].0))?;
    }
    Ok(degrees)
}

// The kinds of the cells of these degrees: one more.
fn kinds_of_degrees(alloc: Global, degrees: &[u32]) -> Result<Vec<u8>, AllocError>
    ensures { IfOk result (λ ks. ks.items ≡ map (λ d. min (d + 1) 255) degrees.now) }
{
    let mut kinds = Vec::new(alloc);
    for degree in degrees {
        kinds.push(degree.saturating_add(1).min(255) as u8)?;
    }
    Ok(kinds)
}

/// The cocycles at the front, one for each cycle, and what stands behind them.
pub(crate) fn cocycles_due<'a, const P: u16>(
    alloc: Global,
    field: Field<P>,
    bytes: &'a [u8],
    cycles: &[(u8, Chain<P>)],
    kinds: &[u8],
) -> Result<(Vec<Chain<P>>, &'a [u8]), Stop>
    requires table { length kinds.now < 2 ^ 32 - 1 }
    requires degrees { map (λ d. min (d + 1) 255) (degrees_of cycles.now) ≡ kinds_of cycles.now }
    ensures run { IfOk result (λ r. HasRun P (codes "c") None (degrees_of cycles.now)
        (length (degrees_of cycles.now)) bytes.now r.0.items r.1.now) }
    ensures names { IfOk result (λ r. NameKinds kinds.now (kinds_of cycles.now) r.0.items
        (length (degrees_of cycles.now))) }
    ensures err { IfErr result (StopsRun P (codes "c") None (degrees_of cycles.now) kinds.now
        (kinds_of cycles.now) bytes.now) }
{
    let degrees = degrees_of_cycles(alloc, cycles)?;
    let wanted = kinds_of_degrees(alloc, &degrees)?;
    chains_due(alloc, field, bytes, b"c", None, &degrees, kinds, &wanted)
}
