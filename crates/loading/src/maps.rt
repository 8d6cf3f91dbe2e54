//! Maps of files.
ghost use Rattle.std.specs.Prelude.{◌≡◌, ◌⊎◌, IfOk, IfErr, Ok, Err};
ghost use Rattle.loading.specs.Readings.{read_bytes};
ghost use Rattle.loading.specs.Maps.{IsMapOf, IsMapIn, map_fault};
ghost use Rattle.loading.specs.Loads.{Loads};

use crate::files::{FILE_BYTES, load_bytes, told_cause};
use cube_maps::{CubeMap, MAP_PAIRS};
use faults::{Fault, LimitName, Name};
use grid_files::{TextCause, TextFault};
use map_files::read_map;
use outside::Files;
use std::alloc::Global;

/// The map of a file.
pub fn load_map<F: Files>(alloc: Global, files: &mut F, name: &Name) -> Result<CubeMap, Fault>
    ensures { Loads read_bytes (IsMapIn name.now) (F.seen files.old) (F.seen files.new) result }
{
    let bytes = load_bytes(alloc, files, name, FILE_BYTES)?;
    map_of(alloc, name, &bytes)
}

// The map of a text.
fn map_of(alloc: Global, name: &Name, bytes: &[u8]) -> Result<CubeMap, Fault>
    ensures map { IfOk result (λ map. IsMapOf name.now bytes.now (Ok map)) }
    ensures fault { IfErr result
        (λ fault. IsMapOf name.now bytes.now (Err fault) ⊎ (fault ≡ Fault.OutOfMemory)) }
{
    match read_map(alloc, bytes) {
        Ok(map) => Ok(map),
        Err(TextFault::At { place, cause }) => Err(map_fault(alloc, name, place, cause)),
        Err(TextFault::NoMemory) => Err(Fault::OutOfMemory),
    }
}

// The refusal of a text: its place and cause, but too many cubes or pairs are told as the limit
// that they pass.
fn map_fault(alloc: Global, name: &Name, place: u64, cause: TextCause) -> Fault
    ensures { (result ≡ map_fault name.now place cause) ⊎ (result ≡ Fault.OutOfMemory) }
{
    let Some(cause) = told_cause(cause) else {
        return Fault::Limit {
            count: LimitName::MapPairs,
            number: u64::from(MAP_PAIRS),
        };
    };
    match name.copy(alloc) {
        Ok(name) => Fault::BadText { name, place, cause },
        Err(_) => Fault::OutOfMemory,
    }
}
