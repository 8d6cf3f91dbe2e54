//! The lines on witness files that are accepted.
ghost use Rattle.std.specs.Prelude.{◌≡◌, ◌++◌, OnOk};
ghost use Rattle.report.specs.ReportText.{accepted_text, accepted_map_text, dimension_lines, rank_lines};

use crate::lines::put_group_line;
use crate::map_lines::put_rank_line;
use crate::{Accepted, AcceptedMap, Shown};
use std::alloc::AllocError as NoMemory;

/// Adds the report on a witness file that is accepted.
pub(crate) fn put_accepted(
    to: &mut Vec<u8>,
    shown: &Shown,
    accepted: &Accepted,
) -> Result<(), NoMemory>
    ensures { OnOk result (to.new.items ≡ to.old.items ++ accepted_text accepted.now shown.now) }
{
    to.extend_from_slice(b"accepted\n")?;
    match &accepted.map {
        Some(map) => put_map(to, shown.modulus, accepted.domain.as_slice(), map),
        None => put_dimensions(to, shown.modulus, accepted.domain.as_slice()),
    }
}

// Adds the lines on both pairs of a map, and on its ranks.
fn put_map(
    to: &mut Vec<u8>,
    modulus: u16,
    domain: &[u32],
    map: &AcceptedMap,
) -> Result<(), NoMemory>
    ensures { OnOk result (to.new.items ≡ to.old.items
        ++ accepted_map_text modulus domain.now map.now) }
{
    to.extend_from_slice(b"domain\n")?;
    put_dimensions(to, modulus, domain)?;
    to.extend_from_slice(b"range\n")?;
    put_dimensions(to, modulus, map.range.as_slice())?;
    to.extend_from_slice(b"map\n")?;
    put_ranks(to, map.ranks.as_slice())
}

// Adds the lines on the groups of these dimensions.
fn put_dimensions(to: &mut Vec<u8>, modulus: u16, dimensions: &[u32]) -> Result<(), NoMemory>
    ensures { OnOk result (to.new.items ≡ to.old.items
        ++ dimension_lines modulus 0 dimensions.now) }
{
    for (degree, dimension) in dimensions.iter().enumerate() {
        put_group_line(to, modulus, degree, *dimension)?;
    }
    Ok(())
}

// Adds the lines on these ranks.
fn put_ranks(to: &mut Vec<u8>, ranks: &[u32]) -> Result<(), NoMemory>
    ensures { OnOk result (to.new.items ≡ to.old.items ++ rank_lines 0 ranks.now) }
{
    for (degree, rank) in ranks.iter().enumerate() {
        put_rank_line(to, b"F", degree, *rank)?;
    }
    Ok(())
}
